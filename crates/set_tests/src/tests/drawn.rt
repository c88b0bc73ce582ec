//! Drawn rows and pairs: what each drain answers, and what the engine says of each prefix, is what a slow
//! program says.
ghost use Rattle.std.specs.Prelude.{◌<◌};

use crate::tests::fed::{Fed, four};
use crate::tests::slow::slow_cell;
use prefix_map::PrefixMap;
use rpf_plain::{Row, SetEngine};
use std::process::Abort;
use urpf_base::{Addr, Cell, IfaceId, Mask, Prefix, Role};

/// How many lists of rows and pairs are drawn.
const LISTS: u32 = 2000;

/// How many pairs a list has at most.
const PAIRS: usize = 10;

/// Numbers that are drawn, the same in each run.
#[derive(Drop)]
struct Draw {
    state: u64,
}

impl Draw {
    /// A number below `most`.
    fn below(&mut self, most: u32) -> u32
        requires { 0 < most }
        ensures { result < most }
    {
        self.state = self
            .state
            .wrapping_mul(6_364_136_223_846_793_005)
            .wrapping_add(1_442_695_040_888_963_407);
        (self.state >> 33) as u32 % most
    }
}

/// One of six prefixes of both families, some of which cover others.
fn prefix(rt: &impl Abort, number: u32) -> Prefix {
    let (addr, len) = match number {
        0 => (Addr::V4(0), 0),
        1 => (Addr::V4(0xC633_6400), 24),
        2 => (Addr::V4(0xC633_6400), 25),
        3 => (Addr::V4(0xCB00_7100), 24),
        4 => (Addr::V6(0x2001_0DB8 << 96), 32),
        _ => (Addr::V6(0), 0),
    };
    Prefix::new(addr, len).expect(rt, "a prefix")
}

/// A row of one of four interfaces, six prefixes, and four origins or none.
fn row(rt: &impl Abort, draw: &mut Draw) -> Row {
    let iface = IfaceId::new(draw.below(4) as u16).expect(rt, "an interface");
    let prefix = prefix(rt, draw.below(6));
    let origin = match draw.below(5) {
        0 => None,
        other => Some(64496 + other),
    };
    Row {
        prefix,
        iface,
        origin,
    }
}

fn role(number: u32) -> Role {
    match number {
        0 => Role::Customer,
        1 => Role::Peer,
        _ => Role::Provider,
    }
}

/// Whether the pair was added and not taken away since.
fn is_listed(fed: &Fed, prefix: &Prefix, asn: u32) -> bool {
    for pair in &fed.pairs {
        if pair.0 == *prefix && pair.1 == asn {
            return true;
        }
    }
    false
}

/// Adds or takes a pair of one of six prefixes and six ASes, of which AS 0 and another are the
/// origin of no row.
fn edit_pair(rt: &impl Abort, fed: &mut Fed, draw: &mut Draw) {
    let prefix = prefix(rt, draw.below(6));
    let asn = match draw.below(6) {
        0 => 0,
        other => 64496 + other,
    };
    let there = is_listed(fed, &prefix, asn);
    if fed.pairs.len() < PAIRS && draw.below(3) > 0 {
        let new = fed.add_pair(prefix, asn).expect(rt, "memory");
        assert!(rt; new != there);
    } else {
        assert!(rt; fed.remove_pair(&prefix, asn) == there);
    }
}

/// Adds or takes rows and pairs, and now and then changes a role.
fn edit(rt: &impl Abort, fed: &mut Fed, draw: &mut Draw) {
    let kind = draw.below(10);
    if kind > 7 {
        return edit_pair(rt, fed, draw);
    }
    if kind == 0 {
        let iface = IfaceId::new(draw.below(4) as u16).expect(rt, "an interface");
        fed.set_role(iface, role(draw.below(3)))
            .expect(rt, "memory");
    } else if kind < 3 {
        fed.take_last();
    } else if fed.rows.len() < 40 {
        fed.add(&row(rt, draw)).expect(rt, "memory");
    }
}

/// The changes of a drain, written into a table of cells.
fn drain(rt: &impl Abort, fed: &mut Fed, table: &mut PrefixMap<Cell>) {
    let changes = fed.engine.drain_changes().expect(rt, "memory");
    for change in changes.items() {
        let before = table.set(&change.prefix, change.cell).expect(rt, "memory");
        assert!(rt; before != Some(change.cell), "a cell that did not change");
    }
}

fn empty_cell() -> Cell {
    Cell {
        f: Mask::empty(),
        a: Mask::empty(),
        z: false,
    }
}

fn same(rt: &impl Abort, found: &Cell, wanted: &Cell) {
    assert!(rt; *found == *wanted);
}

/// The table has the cells that the slow program has, and the engine has the cell of this prefix.
fn compare(rt: &impl Abort, fed: &Fed, table: &PrefixMap<Cell>, asked: u32) {
    for number in 0..6 {
        let prefix = prefix(rt, number);
        let cell = slow_cell(&fed.rows, &fed.pairs, &fed.kinds, &prefix);
        same(rt, &table.get(&prefix).unwrap_or(empty_cell()), &cell);
        if number == asked {
            same(rt, &fed.engine.cell(&prefix), &cell);
        }
    }
}

/// So many edits, and a drain behind them.
fn edit_and_drain(
    rt: &impl Abort,
    fed: &mut Fed,
    draw: &mut Draw,
    table: &mut PrefixMap<Cell>,
    edits: u32,
) {
    for _ in 0..edits {
        edit(rt, fed, draw);
    }
    drain(rt, fed, table);
    compare(rt, fed, table, draw.below(6));
}

#[test]
fn drawn_rows_have_the_cells_of_a_slow_program(rt: HostRuntime) {
    let mut draw = Draw { state: 8704 };
    let kinds = four(&rt);
    for _ in 0..LISTS {
        let copy = kinds.copied().expect(&rt, "memory");
        let mut fed = Fed::new(rt.alloc(), copy).expect(&rt, "memory");
        let mut table = PrefixMap::new(rt.alloc());
        let edits = draw.below(60);
        edit_and_drain(&rt, &mut fed, &mut draw, &mut table, edits);
        let more = draw.below(4);
        edit_and_drain(&rt, &mut fed, &mut draw, &mut table, more);
    }
}
