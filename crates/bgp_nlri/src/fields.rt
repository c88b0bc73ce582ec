//! A field of prefixes: whether its octets are prefixes one after the other and nothing else, and
//! which prefixes they are.
ghost use Rattle.std.specs.Prelude.{◌≡◌, ◌↔◌, List, IsTrue};
ghost use Rattle.std.specs.Iterator.{YieldsFirst, item_count};
ghost use Rattle.urpf_base.specs.Address.{Block};
ghost use Rattle.bgp_nlri.specs.Nlri.{SpellsPrefixes};

use crate::family::Family;
use crate::spelling::first;
use std::marker::Model;
use urpf_base::Prefix;

/// Whether the field is well formed: every length is within the family's bound, and the last prefix
/// ends where the field does. An empty field is.
pub fn check(field: &[u8], family: Family) -> bool
    ensures { IsTrue result ↔ ((prefixes : List Block) × SpellsPrefixes family field.now prefixes) }
{
    let mut rest = field;
    while !rest.is_empty() {
        let Some((_, more)) = first(rest, family) else {
            return false;
        };
        rest = more;
    }
    true
}

/// The prefixes of a field in their order, read out of its octets. Contracts see the list of those
/// that are left.
#[derive(Debug, Drop)]
pub struct Prefixes<'a> {
    rest: &'a [u8],
    family: Family,
}

impl<'a> Model for Prefixes<'a> {
    ghost use Rattle.std.specs.Prelude.{List};
    ghost use Rattle.urpf_base.specs.Address.{Block};

    ghost Value = { List Block };

    ghost use Rattle.bgp_nlri.specs.Front.{prefixes_in};

    ghost view = { λ p. prefixes_in p.family p.rest.now };
}

impl<'a> Prefixes<'a> {
    /// All prefixes of the field, the bits past the length cleared (RFC 4271, section 4.3).
    pub fn over(field: &'a [u8], family: Family) -> Prefixes<'a>
        requires { (prefixes : List Block) × SpellsPrefixes family field.now prefixes }
        ensures value { SpellsPrefixes family field.now result }
        ensures only { (prefixes : List Block) → SpellsPrefixes family field.now prefixes
            → result ≡ prefixes }
    {
        Prefixes {
            rest: field,
            family,
        }
    }
}

impl<'a> Iterator for Prefixes<'a> {
    type Item = Prefix;

    ghost next_gives = { YieldsFirst (λ s. s) };

    ghost remaining = { item_count (λ s. s) };

    #[tactic(auto, using(crate::proofs::Laws::in_some, crate::proofs::Laws::in_none))]
    fn next(&mut self) -> Option<Prefix> {
        let Some((prefix, rest)) = first(self.rest, self.family) else {
            return None;
        };
        self.rest = rest;
        Some(prefix)
    }
}
