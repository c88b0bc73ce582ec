//! Maps by prefix: that calls succeed where memory is ample, and the order of a walk.
ghost use Rattle.std.specs.Prelude.{◌≡◌, ◌<◌};

use prefix_map::{Beside, PrefixMap, beside_laws, map_laws, order_laws};
use std::marker::Brand;
use std::process::Abort;
use std::sync::ledger::{Blank, Ledger};
use urpf_base::{Addr, Prefix, Steps};

/// 198.51.100.0, of the addresses for documentation (RFC 5737).
pub const NET: u32 = 0xC633_6400;

/// 2001:db8::1, of the addresses for documentation (RFC 3849).
pub const HOST: u128 = 0x2001_0DB8_0000_0000_0000_0000_0000_0001;

pub fn short(rt: &impl Abort, number: u32, len: u8) -> Prefix {
    Prefix::new(Addr::V4(number), len).expect(rt, "fits")
}

pub fn long(rt: &impl Abort, number: u128, len: u8) -> Prefix {
    Prefix::new(Addr::V6(number), len).expect(rt, "fits")
}

/// 1 at 2001:db8::1/128, 2 at 198.51.100.0/24, 3 at 2001:db8::/32 and 4 at 0.0.0.0/0.
fn four(rt: &(impl Abort + AllocGlobal)) -> PrefixMap<u8> {
    let mut map = PrefixMap::new(rt.alloc());
    map.set(&long(rt, HOST, 128), 1).expect(rt, "memory");
    map.set(&short(rt, NET, 24), 2).expect(rt, "memory");
    map.set(&long(rt, HOST, 32), 3).expect(rt, "memory");
    map.set(&short(rt, 0, 0), 4).expect(rt, "memory");
    map
}

#[test]
fn pairs_come_in_the_order_of_prefixes(rt: HostRuntime) {
    let map = four(&rt);
    let mut pairs = map.pairs();
    assert_eq!(rt; pairs.next(), Some((short(&rt, 0, 0), 4)));
    assert_eq!(rt; pairs.next(), Some((short(&rt, NET, 24), 2)));
    assert_eq!(rt; pairs.next(), Some((long(&rt, HOST, 32), 3)));
    assert_eq!(rt; pairs.next(), Some((long(&rt, HOST, 128), 1)));
    assert_eq!(rt; pairs.next(), None);
    let net = short(&rt, NET, 24);
    assert_eq!(rt;
        map.pairs_after(Some(&net)).next(),
        Some((long(&rt, HOST, 32), 3))
    );
    map_laws::<u8>();
    order_laws::<u8>();
}

#[test]
fn a_copy_stays_as_it_was(rt: HostRuntime) {
    let mut map = four(&rt);
    let copy = map.copied().expect(&rt, "memory");
    let all = short(&rt, 0, 0);
    assert_eq!(rt; map.set(&all, 5), Ok(Some(4)));
    if map.get(&all).is_some() {
        assert_eq!(rt; map.replace(&all, 6), 5);
    }
    assert_eq!(rt; map.remove(&long(&rt, HOST, 32)), Some(3));
    assert_eq!(rt; map.len(), 3);
    let mut both = Beside::over(&copy, &map);
    assert_eq!(rt; both.next(), Some((short(&rt, 0, 0), (Some(4), Some(6)))));
    assert_eq!(rt;
        both.next(),
        Some((short(&rt, NET, 24), (Some(2), Some(2))))
    );
    assert_eq!(rt; both.next(), Some((long(&rt, HOST, 32), (Some(3), None))));
    map.clear();
    assert_eq!(rt; map.get(&short(&rt, 0, 0)), None);
    beside_laws::<u8, u8>();
}

fn covers<L: Ledger>(map: &PrefixMap<u8>, addr: Addr, blank: Blank) -> bool
    requires name { blank.name ≡ L.name }
    requires parts { blank.parts ≡ L.parts }
    requires some { 0 < blank.parts }
{
    map.any_covers(&addr, &mut Steps::<L>::new(blank))
}

#[test]
fn an_address_is_covered_by_what_is_there(rt: HostRuntime) {
    let mut map = four(&rt);
    map.remove(&short(&rt, 0, 0));
    assert!(rt; covers::<Brand>(&map, Addr::V4(NET + 255), Blank::new(1)));
    assert!(rt; !covers::<Brand>(&map, Addr::V4(NET + 256), Blank::new(1)));
}
