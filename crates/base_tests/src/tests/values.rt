//! Prefixes that were worked by hand, and each of the other calls of urpf_base once.
ghost use Rattle.std.specs.Prelude.{◌≡◌, ◌<◌};

use std::marker::Brand;
use std::sync::ledger::{Blank, Ledger};
use urpf_base::{
    Addr, Cell, CellChange, Changes, IfaceId, Kind, Mask, Mode, Prefix, Role, Steps,
    order_of_prefixes,
};

#[test]
fn a_prefix_of_all_bits_covers_one_address(rt: HostRuntime) {
    let one = Prefix::new(Addr::V6(1), 128).expect(&rt, "fits");
    assert!(rt; one.covers(&Addr::V6(1)));
    assert!(rt; !one.covers(&Addr::V6(0)));
}

#[test]
fn a_length_past_the_address_is_refused(rt: HostRuntime) {
    assert_eq!(rt; Prefix::new(Addr::V4(0), 33), None);
    assert_eq!(rt; Prefix::new(Addr::V6(0), 129), None);
}

#[test]
fn prefixes_are_ordered_by_family_address_and_length(rt: HostRuntime) {
    let all = Prefix::new(Addr::V4(0), 0).expect(&rt, "fits");
    let longer = Prefix::new(Addr::V4(0), 8).expect(&rt, "fits");
    let later = Prefix::new(Addr::V4(0x0A00_0000), 8).expect(&rt, "fits");
    let all_of_v6 = Prefix::new(Addr::V6(0), 0).expect(&rt, "fits");
    assert!(rt; all < longer, "a shorter prefix comes first");
    assert!(rt; longer < later, "a lesser address comes first");
    assert!(rt; later < all_of_v6, "IPv4 comes first");
    order_of_prefixes();
}

fn two_steps<L: Ledger>(blank: Blank)
    requires name { blank.name ≡ L.name }
    requires parts { blank.parts ≡ L.parts }
    requires some { 0 < blank.parts }
{
    let mut steps = Steps::<L>::new(blank);
    steps.tick();
    steps.tick();
}

#[test]
fn steps_are_counted_at_a_ledger() {
    two_steps::<Brand>(Blank::new(1));
}

#[test]
fn interfaces_have_numbers_below_64(rt: HostRuntime) {
    assert_eq!(rt; IfaceId::new(64), None);
    assert_eq!(rt; IfaceId::new(63).expect(&rt, "fits").number(), 63);
}

#[test]
fn a_mask_is_a_set_of_interfaces(rt: HostRuntime) {
    let first = IfaceId::new(0).expect(&rt, "fits");
    let last = IfaceId::new(63).expect(&rt, "fits");
    let both = Mask::empty().with(first).union(Mask::empty().with(last));
    assert!(rt; both.has(first) && both.has(last));
    assert!(rt; !both.without(first).has(first) && both.without(first).has(last));
    assert!(rt; both.without(first).without(last).is_empty());
}

#[test]
fn algorithms_are_for_customers(rt: HostRuntime) {
    let customer = Kind {
        role: Role::Customer,
        mode: Mode::EfpA,
    };
    let provider = Kind {
        role: Role::Provider,
        mode: Mode::EfpB,
    };
    assert_eq!(rt; customer.effective(), Mode::EfpA);
    assert_eq!(rt; provider.effective(), Mode::Loose);
}

#[test]
fn changes_are_kept_in_their_order(rt: HostRuntime) {
    let prefix = Prefix::new(Addr::V4(0xC633_6400), 24).expect(&rt, "fits");
    let cell = Cell {
        f: Mask::empty(),
        a: Mask::empty(),
        z: true,
    };
    let mut changes = Changes::new(rt.alloc());
    changes
        .push(CellChange { prefix, cell })
        .expect(&rt, "memory");
    assert_eq!(rt; changes.items().len(), 1);
    assert!(rt; changes.items()[0].cell.z);
}
