//! What an UPDATE withdraws and announces, read out of the octets of its body.
ghost use Rattle.std.specs.Prelude.{◌≡◌};
ghost use Rattle.std.specs.Iterator.{YieldsFirst, item_count};
ghost use Rattle.bgp_update.specs.Update.{route_origin};
ghost use Rattle.bgp_update.specs.View.{AreFields, both_in};

use crate::families::BothFamilies;
use crate::layout::Fields;
use crate::routes::origin_in;
use bgp_attr::Attrs;
use std::marker::Model;
use urpf_base::{Origin, Prefix};

/// An UPDATE whose body was read and has no fault. It borrows the body, and contracts see what it
/// withdraws and announces, and the origin of what it announces.
#[derive(Drop)]
pub struct UpdateView<'a> {
    withdrawn: &'a [u8],
    unreach: &'a [u8],
    nlri: &'a [u8],
    reach: &'a [u8],
    origin: Origin,
}

impl<'a> Model for UpdateView<'a> {
    ghost use Rattle.urpf_base.specs.RouteUpdates.{RouteUpdate};
    ghost use Rattle.bgp_update.specs.View.{AreFields, both_in};

    ghost Value = { RouteUpdate };

    ghost view = { λ u. record {
      withdrawn = both_in u.withdrawn.now u.unreach.now;
      announced = both_in u.nlri.now u.reach.now;
      origin = u.origin;
    } };

    ghost invariant = { λ u. AreFields u.withdrawn.now u.unreach.now
        × AreFields u.nlri.now u.reach.now };
}

impl<'a> UpdateView<'a> {
    /// The UPDATE of these fields and attributes, whose fields of prefixes are all well formed.
    pub(crate) fn of(fields: Fields<'a>, attrs: &Attrs<'a>) -> UpdateView<'a>
        requires withdraws { AreFields fields.withdrawn.now attrs.now.unreach.now }
        requires announces { AreFields fields.nlri.now attrs.now.reach.now }
        ensures withdrawn { result.withdrawn
            ≡ both_in fields.entry.withdrawn.now attrs.now.unreach.now }
        ensures announced { result.announced
            ≡ both_in fields.entry.nlri.now attrs.now.reach.now }
        ensures origin { result.origin
            ≡ route_origin attrs.now.path attrs.now.as4 attrs.now.aggregators }
    {
        UpdateView {
            withdrawn: fields.withdrawn,
            unreach: attrs.unreach,
            nlri: fields.nlri,
            reach: attrs.reach,
            origin: origin_in(attrs),
        }
    }

    /// The prefixes that are withdrawn: those of IPv4, and then those of IPv6, in their order.
    pub fn withdrawn(&self) -> Withdrawn<'a>
        ensures { result ≡ self.now.withdrawn }
    {
        let prefixes = BothFamilies::over(self.withdrawn, self.unreach);
        Withdrawn { prefixes }
    }

    /// The prefixes that are announced: those of IPv4, and then those of IPv6, in their order. One
    /// that is withdrawn too counts as announced.
    pub fn announced(&self) -> Announced<'a>
        ensures { result ≡ self.now.announced }
    {
        let prefixes = BothFamilies::over(self.nlri, self.reach);
        Announced { prefixes }
    }

    /// The origin of all announced prefixes. None where the path has none, or AS_PATH is missing.
    pub fn origin(&self) -> Origin
        ensures { result ≡ self.now.origin }
    {
        self.origin
    }
}

/// The withdrawn prefixes that are left. Contracts see their list.
#[derive(Drop)]
pub struct Withdrawn<'a> {
    prefixes: BothFamilies<'a>,
}

impl<'a> Model for Withdrawn<'a> {
    ghost use Rattle.std.specs.Prelude.{List};
    ghost use Rattle.urpf_base.specs.Address.{Block};

    ghost Value = { List Block };

    ghost view = { λ w. w.prefixes };
}

impl<'a> Iterator for Withdrawn<'a> {
    type Item = Prefix;

    ghost next_gives = { YieldsFirst (λ s. s) };

    ghost remaining = { item_count (λ s. s) };

    fn next(&mut self) -> Option<Prefix> {
        self.prefixes.next()
    }
}

/// The announced prefixes that are left. Contracts see their list.
#[derive(Drop)]
pub struct Announced<'a> {
    prefixes: BothFamilies<'a>,
}

impl<'a> Model for Announced<'a> {
    ghost use Rattle.std.specs.Prelude.{List};
    ghost use Rattle.urpf_base.specs.Address.{Block};

    ghost Value = { List Block };

    ghost view = { λ a. a.prefixes };
}

impl<'a> Iterator for Announced<'a> {
    type Item = Prefix;

    ghost next_gives = { YieldsFirst (λ s. s) };

    ghost remaining = { item_count (λ s. s) };

    fn next(&mut self) -> Option<Prefix> {
        self.prefixes.next()
    }
}
