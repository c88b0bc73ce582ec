//! The prefixes of an UPDATE of both families: two fields of prefixes come in, and their prefixes
//! go out one by one, first those of IPv4 (RFC 4271, section 4.3), and then those of IPv6, which
//! stand in a multiprotocol attribute (RFC 4760, section 5).
ghost use Rattle.std.specs.Prelude.{◌≡◌};
ghost use Rattle.std.specs.Iterator.{YieldsFirst, item_count};
ghost use Rattle.bgp_update.specs.View.{AreFields, both_in};

use bgp_nlri::{Family, Prefixes};
use std::marker::Model;
use urpf_base::Prefix;

/// The prefixes that are left. Contracts see their list.
#[derive(Drop)]
pub struct BothFamilies<'a> {
    ipv4: Prefixes<'a>,
    ipv6: Prefixes<'a>,
}

impl<'a> Model for BothFamilies<'a> {
    ghost use Rattle.std.specs.Prelude.{List, ◌++◌};
    ghost use Rattle.urpf_base.specs.Address.{Block};

    ghost Value = { List Block };

    ghost view = { λ b. b.ipv4 ++ b.ipv6 };
}

impl<'a> BothFamilies<'a> {
    /// All prefixes of a field of IPv4 prefixes, and then all of a field of IPv6 prefixes.
    pub fn over(ipv4: &'a [u8], ipv6: &'a [u8]) -> BothFamilies<'a>
        requires { AreFields ipv4.now ipv6.now }
        ensures { result ≡ both_in ipv4.now ipv6.now }
    {
        BothFamilies {
            ipv4: Prefixes::over(ipv4, Family::V4),
            ipv6: Prefixes::over(ipv6, Family::V6),
        }
    }
}

impl<'a> Iterator for BothFamilies<'a> {
    type Item = Prefix;

    ghost next_gives = { YieldsFirst (λ s. s) };

    ghost remaining = { item_count (λ s. s) };

    fn next(&mut self) -> Option<Prefix> {
        if let Some(prefix) = self.ipv4.next() {
            return Some(prefix);
        }
        self.ipv6.next()
    }
}
