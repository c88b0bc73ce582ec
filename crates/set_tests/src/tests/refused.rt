//! A call that answers want of memory changes nothing, and the same call succeeds where memory is
//! there again. With no allocation refused, this is one run of each call with ample memory;
//! `rt try --test --fail-alloc N` refuses the Nth.
use crate::tests::fed::{Fed, empty_fed};
use crate::tests::slow::slow_cell;
use rpf_plain::{Row, SetEngine};
use std::process::Abort;
use urpf_base::{Addr, IfaceId, Prefix, Role};

fn row(rt: &impl Abort, number: u32) -> Row {
    let prefix = Prefix::new(Addr::V4(number << 8), 24).expect(rt, "a prefix");
    let iface = IfaceId::new((number % 4) as u16).expect(rt, "an interface");
    Row {
        prefix,
        iface,
        origin: Some(64496 + number % 5),
    }
}

/// The engine says of each prefix what the slow program says.
fn same(rt: &impl Abort, fed: &Fed) {
    for number in 0..30 {
        let prefix = row(rt, number).prefix;
        assert_eq!(rt;
            fed.engine.cell(&prefix),
            slow_cell(&fed.rows, &fed.pairs, &fed.kinds, &prefix)
        );
    }
}

fn add(rt: &impl Abort, fed: &mut Fed, number: u32) {
    if fed.add(&row(rt, number)).is_err() {
        same(rt, fed);
        fed.add(&row(rt, number))
            .expect(rt, "memory is there again");
    }
}

/// Adds a pair of the prefix of a row.
fn add_pair(rt: &impl Abort, fed: &mut Fed, number: u32, asn: u32) {
    let prefix = row(rt, number).prefix;
    if fed.add_pair(prefix, asn).is_err() {
        same(rt, fed);
        fed.add_pair(prefix, asn)
            .expect(rt, "memory is there again");
    }
}

/// Drains, and answers how many cells changed.
fn drain(rt: &impl Abort, fed: &mut Fed) -> usize {
    if let Ok(changes) = fed.engine.drain_changes() {
        return changes.items().len();
    }
    same(rt, fed);
    let changes = fed
        .engine
        .drain_changes()
        .expect(rt, "memory is there again");
    changes.items().len()
}

#[test]
fn a_refused_call_changes_nothing(rt: HostRuntime) {
    let mut fed = empty_fed(&rt);
    for number in 0..30 {
        add(&rt, &mut fed, number);
    }
    assert_eq!(rt; drain(&rt, &mut fed), 30);
    assert_eq!(rt; drain(&rt, &mut fed), 0);
    for number in 0..20 {
        add_pair(&rt, &mut fed, number * 2, 64496 + number % 7);
    }
    // Four of the five prefixes that have no row have a pair of an AS that all interfaces have.
    assert_eq!(rt; drain(&rt, &mut fed), 4);
    same(&rt, &fed);
    let provider = IfaceId::new(3).expect(&rt, "an interface");
    fed.set_role(provider, Role::Customer)
        .expect(&rt, "it takes no memory");
    assert_eq!(rt; drain(&rt, &mut fed), 34);
    same(&rt, &fed);
}
