//! The routes of one session, by prefix: routes are put in and taken out one by one, and what is
//! asked of them goes out: the origin of a prefix, the pairs in their order, those of two ribs side
//! by side, whether any prefix covers an address.
ghost use Rattle.std.specs.Prelude.{◌≡◌, ◌↔◌, [], ◌∷◌, length, IsTrue, IsSome, IfSome, IfNone, IfOk, OnOk, OnErr, Some};
ghost use Rattle.std.specs.Prelude.{None, option_copied, ◌<◌, ◌^◌};
ghost use Rattle.urpf_base.specs.Address.{Block, Covers};
ghost use Rattle.urpf_base.specs.Lists.{Has};
ghost use Rattle.prefix_map.specs.Beside.{beside};
ghost use Rattle.prefix_map.specs.Order.{is_after};
ghost use Rattle.adj_rib.specs.Routes.{ChangesAt, pairs_after, pairs_of, prefixes_of, routes_at};

use prefix_map::{Beside, Pairs, PrefixMap};
use std::alloc::Global;
use std::marker::{Brand, Model};
use std::sync::ledger::{Blank, Ledger};
use urpf_base::{Addr, Origin, OutOfMemory, Prefix, Steps};

/// The origin of each prefix that a session has announced and not withdrawn.
#[derive(Drop)]
pub struct AdjRib {
    routes: PrefixMap<Origin>,
}

impl Model for AdjRib {
    ghost use Rattle.adj_rib.specs.Routes.{Routes, routes_code};

    ghost Value = { Routes };

    ghost coded = { routes_code };

    ghost view = { λ r. r.routes };
}

impl AdjRib {
    /// No routes. Takes no memory: the first route does.
    pub fn new(alloc: Global) -> AdjRib
        ensures empty { prefixes_of result ≡ [] }
        ensures none { (p : Block) → routes_at result p ≡ None }
    {
        AdjRib {
            routes: PrefixMap::new(alloc),
        }
    }

    /// Gives the prefix this origin, and answers the origin that it had: None where it was not there.
    pub fn set(&mut self, prefix: Prefix, origin: Origin) -> Result<Option<Origin>, OutOfMemory>
        ensures old { IfOk result (λ old. old ≡ routes_at self.old prefix) }
        ensures ok { OnOk result (ChangesAt prefix (Some origin) self.old self.new) }
        ensures err { OnErr result (self.new ≡ self.old) }
    {
        self.routes.set(&prefix, origin)
    }

    /// Gives a prefix that is there another origin, and answers the old one. Takes no memory.
    pub fn replace(&mut self, prefix: &Prefix, origin: Origin) -> Origin
        requires { IsSome (routes_at self.old prefix.now) }
        ensures old { routes_at self.old prefix.now ≡ Some result }
        ensures new { ChangesAt prefix.now (Some origin) self.old self.new }
    {
        self.routes.replace(prefix, origin)
    }

    /// Takes the prefix out, and answers the origin that it had: None where it was not there.
    pub fn remove(&mut self, prefix: &Prefix) -> Option<Origin>
        ensures old { result ≡ routes_at self.old prefix.now }
        ensures gone { ChangesAt prefix.now None self.old self.new }
    {
        self.routes.remove(prefix)
    }

    /// The origin of the prefix. None where the prefix is not there.
    pub fn get(&self, prefix: &Prefix) -> Option<Origin>
        ensures { result ≡ routes_at self.now prefix.now }
    {
        self.routes.get(prefix)
    }

    /// Takes all routes out.
    pub fn clear(&mut self)
        ensures empty { prefixes_of self.new ≡ [] }
        ensures none { (p : Block) → routes_at self.new p ≡ None }
    {
        self.routes.clear();
    }

    /// How many prefixes there are.
    pub fn len(&self) -> usize
        ensures count { result ≡ length (prefixes_of self.now) }
        ensures small { result < 2 ^ 63 }
    {
        self.routes.len()
    }

    /// The first pair whose prefix comes after the given one, or the first of all where none is
    /// given. The given prefix need not be there. None where no such pair is left.
    pub fn after(&self, prefix: Option<&Prefix>) -> Option<(Prefix, Origin)>
        ensures held { IfSome result (λ r. routes_at self.now r.0 ≡ Some r.1) }
        ensures above { IfSome result (λ r. IsTrue (is_after (option_copied prefix.entry) r.0)) }
        ensures first { IfSome result (λ r. pairs_after (option_copied prefix.entry) self.now
            ≡ r ∷ pairs_after (Some r.0) self.now) }
        ensures end { IfNone result (pairs_after (option_copied prefix.entry) self.now ≡ []) }
    {
        self.routes.pairs_after(prefix).next()
    }

    /// The pairs of prefix and origin, in the order of the prefixes.
    pub fn pairs(&self) -> Pairs<'_, Origin>
        ensures list { result ≡ pairs_of self.now }
        ensures small { length result < 2 ^ 63 }
    {
        self.routes.pairs()
    }

    /// The prefixes of this rib and of the other, in their order, each with what the one and what
    /// the other has there.
    pub fn beside<'a>(&'a self, other: &'a AdjRib) -> Beside<'a, Origin, Origin>
        ensures { result ≡ beside (pairs_of self.now) (pairs_of other.now) }
    {
        Beside::over(&self.routes, &other.routes)
    }

    /// Another rib with the same routes.
    pub fn copied(&self) -> Result<AdjRib, OutOfMemory>
        ensures { IfOk result (λ copy. copy ≡ self.now) }
    {
        let Ok(routes) = self.routes.copied() else {
            return Err(OutOfMemory);
        };
        Ok(AdjRib { routes })
    }

    /// Whether a prefix that is there covers the address.
    pub fn any_covers(&self, addr: &Addr) -> bool
        ensures { IsTrue result ↔ ((p : Block) × Has (prefixes_of self.now) p × Covers p addr.now) }
    {
        covers_counted::<Brand>(&self.routes, addr, Blank::new(1))
    }
}

/// Whether a prefix of the map covers the address, with its steps counted from none on.
fn covers_counted<L: Ledger>(routes: &PrefixMap<Origin>, addr: &Addr, blank: Blank) -> bool
    requires name { blank.name ≡ L.name }
    requires parts { blank.parts ≡ L.parts }
    requires some { 0 < blank.parts }
    ensures { IsTrue result ↔ ((p : Block) × Has (prefixes_of routes.now) p × Covers p addr.now) }
{
    let mut steps = Steps::<L>::new(blank);
    routes.any_covers(addr, &mut steps)
}
