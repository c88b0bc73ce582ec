//! Adj-RIBs-In: that calls succeed where memory is ample, and what a walk gives.
use adj_rib::{AdjRib, map_laws, order_laws};
use std::process::Abort;
use urpf_base::{Addr, Prefix};

/// 198.51.100.0, of the addresses for documentation (RFC 5737).
const NET: u32 = 0xC633_6400;

fn prefix(rt: &impl Abort, number: u32, len: u8) -> Prefix {
    Prefix::new(Addr::V4(number), len).expect(rt, "fits")
}

/// 198.51.100.0/24 from AS 64500, and ::/0 and 0.0.0.0/0 from no AS.
fn three(rt: &(impl Abort + AllocGlobal)) -> AdjRib {
    let all_of_v6 = Prefix::new(Addr::V6(0), 0).expect(rt, "fits");
    let mut rib = AdjRib::new(rt.alloc());
    rib.set(all_of_v6, None).expect(rt, "memory");
    rib.set(prefix(rt, NET, 24), Some(64500))
        .expect(rt, "memory");
    rib.set(prefix(rt, 0, 0), None).expect(rt, "memory");
    rib
}

#[test]
fn a_new_rib_has_nothing(rt: HostRuntime) {
    let rib = AdjRib::new(rt.alloc());
    assert_eq!(rt; rib.len(), 0);
    assert_eq!(rt; rib.get(&prefix(&rt, 0, 0)), None);
    assert_eq!(rt; rib.after(None), None);
    assert!(rt; !rib.any_covers(&Addr::V4(0)));
    map_laws();
    order_laws();
}

#[test]
fn set_answers_what_was_there(rt: HostRuntime) {
    let mut rib = AdjRib::new(rt.alloc());
    let net = prefix(&rt, NET, 24);
    assert_eq!(rt; rib.set(net, Some(64500)), Ok(None));
    assert_eq!(rt; rib.set(net, None), Ok(Some(Some(64500))));
    assert_eq!(rt; rib.set(net, Some(64501)), Ok(Some(None)));
    assert_eq!(rt; rib.get(&net), Some(Some(64501)));
    assert_eq!(rt; rib.len(), 1);
}

#[test]
fn what_is_removed_is_gone(rt: HostRuntime) {
    let mut rib = three(&rt);
    assert_eq!(rt; rib.remove(&prefix(&rt, NET, 25)), None);
    assert_eq!(rt; rib.remove(&prefix(&rt, NET, 24)), Some(Some(64500)));
    assert_eq!(rt; rib.get(&prefix(&rt, NET, 24)), None);
    assert_eq!(rt; rib.len(), 2);
    rib.clear();
    assert_eq!(rt; rib.len(), 0);
    assert_eq!(rt; rib.after(None), None);
}

#[test]
fn a_walk_goes_in_order_and_ends(rt: HostRuntime) {
    let rib = three(&rt);
    let all_of_v6 = Prefix::new(Addr::V6(0), 0).expect(&rt, "fits");
    assert_eq!(rt; rib.after(None), Some((prefix(&rt, 0, 0), None)));
    assert_eq!(rt;
        rib.after(Some(&prefix(&rt, 0, 0))),
        Some((prefix(&rt, NET, 24), Some(64500)))
    );
    assert_eq!(rt;
        rib.after(Some(&prefix(&rt, NET, 24))),
        Some((all_of_v6, None))
    );
    assert_eq!(rt; rib.after(Some(&all_of_v6)), None);
    assert_eq!(rt;
        rib.after(Some(&prefix(&rt, 1, 32))),
        Some((prefix(&rt, NET, 24), Some(64500)))
    );
}

#[test]
fn an_address_is_covered_by_what_is_there(rt: HostRuntime) {
    let mut rib = AdjRib::new(rt.alloc());
    rib.set(prefix(&rt, NET, 24), None).expect(&rt, "memory");
    assert!(rt; rib.any_covers(&Addr::V4(NET + 9)));
    assert!(rt; !rib.any_covers(&Addr::V4(NET + 256)));
    assert!(rt; !rib.any_covers(&Addr::V6(0)));
}

#[test]
fn a_copy_is_told_apart_once_it_changes(rt: HostRuntime) {
    let rib = three(&rt);
    let mut copy = rib.copied().expect(&rt, "memory");
    let net = prefix(&rt, NET, 24);
    if copy.get(&net).is_some() {
        assert_eq!(rt; copy.replace(&net, None), Some(64500));
    }
    copy.remove(&prefix(&rt, 0, 0));
    let mut both = rib.beside(&copy);
    assert_eq!(rt; both.next(), Some((prefix(&rt, 0, 0), (Some(None), None))));
    assert_eq!(rt;
        both.next(),
        Some((prefix(&rt, NET, 24), (Some(Some(64500)), Some(None))))
    );
    let mut pairs = copy.pairs();
    assert_eq!(rt; pairs.next(), Some((prefix(&rt, NET, 24), None)));
}
