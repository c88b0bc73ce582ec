//! The 33 prefixes of 255.255.255.255, one below the other.
ghost use Rattle.std.specs.Prelude.{◌≡◌, ◌+◌, ◌<◌, ◌≤◌};

use crate::tests::made::{iface, mask};
use cover_table::CoverTable;
use std::marker::Brand;
use std::process::Abort;
use std::sync::ledger::{Blank, Ledger};
use urpf_base::{Addr, Cell, CellChange, IfaceId, Mode, Prefix, Steps};

/// 255.255.255.255.
const LAST: u32 = 0xFFFF_FFFF;

/// The cell of the prefix of this length, of the interfaces that have a route to it.
fn nested(rt: &impl Abort, len: u8, interfaces: &[u16]) -> CellChange {
    let prefix = Prefix::new(Addr::V4(LAST), len).expect(rt, "a prefix");
    let cell = Cell {
        f: mask(rt, interfaces),
        a: mask(rt, &[]),
        z: false,
    };
    CellChange { prefix, cell }
}

/// Interface 0 has a route to the longest prefix alone, and interface 1 to each of the others.
fn table_of_33(rt: &(impl Abort + AllocGlobal)) -> CoverTable {
    let mut table = CoverTable::new(rt.alloc());
    table.reserve(33).expect(rt, "memory");
    for len in 0..32 {
        table.absorb(&nested(rt, len, &[1]));
    }
    table.absorb(&nested(rt, 32, &[0]));
    table
}

/// Whether the address passes, which takes 33 steps at most.
fn in_33_steps<L: Ledger>(
    table: &CoverTable,
    iface: IfaceId,
    number: u32,
    steps: &mut Steps<L>,
) -> bool
    ensures { steps.new ≤ steps.old + 33 }
{
    table.check(iface, Mode::Feasible, &Addr::V4(number), steps)
}

fn is_feasible<L: Ledger>(table: &CoverTable, iface: IfaceId, number: u32, blank: Blank) -> bool
    requires name { blank.name ≡ L.name }
    requires parts { blank.parts ≡ L.parts }
    requires some { 0 < blank.parts }
{
    in_33_steps(table, iface, number, &mut Steps::<L>::new(blank))
}

/// The last address and the one before it pass on the interface so.
fn answers(rt: &impl Abort, table: &CoverTable, number: u16, last: bool, before: bool) {
    let id = iface(rt, number);
    assert_eq!(rt; is_feasible::<Brand>(table, id, LAST, Blank::new(1)), last);
    assert_eq!(rt;
        is_feasible::<Brand>(table, id, LAST - 1, Blank::new(1)),
        before
    );
}

#[test]
fn of_33_nested_prefixes_the_longest_alone_is_on_interface_0(rt: HostRuntime) {
    let mut table = table_of_33(&rt);
    answers(&rt, &table, 0, true, false);
    answers(&rt, &table, 1, true, true);
    table.reserve(1).expect(&rt, "memory");
    table.absorb(&nested(&rt, 32, &[]));
    answers(&rt, &table, 0, false, false);
    answers(&rt, &table, 1, true, true);
}
