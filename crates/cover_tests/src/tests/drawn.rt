//! Drawn tables: what the trees of a table say of a source is what a plain list says, and what a slow
//! program says that walks all writes.
ghost use Rattle.std.specs.Prelude.{◌<◌};

use crate::tests::asked::passes;
use crate::tests::listed::{Listed, is_in_set};
use crate::tests::made::iface;
use cover_table::CoverTable;
use std::process::Abort;
use urpf_base::{Addr, Cell, CellChange, IfaceId, Mask, Mode, Prefix};

/// How many tables are drawn.
const TABLES: u32 = 2000;

/// How many cells are written into a table, and how many sources are asked for then.
const WRITES: u32 = 64;

const SOURCES: u32 = 12;

/// Numbers that are drawn, the same in each run.
#[derive(Drop)]
struct Draw {
    state: u64,
}

impl Draw {
    /// A number below `most`.
    fn below(&mut self, most: u32) -> u32
        requires { 0 < most }
        ensures { result < most }
    {
        self.state = self
            .state
            .wrapping_mul(6_364_136_223_846_793_005)
            .wrapping_add(1_442_695_040_888_963_407);
        (self.state >> 33) as u32 % most
    }
}

/// An address of few, so that many prefixes cover it. In each family they differ in their first two
/// bits and in their last two.
fn addr(draw: &mut Draw) -> Addr {
    let first = draw.below(4);
    let last = draw.below(4);
    if draw.below(2) == 0 {
        return Addr::V4(first << 30 | last);
    }
    Addr::V6((first as u128) << 126 | last as u128)
}

/// A length of few: 0, all bits, and those where addresses part.
fn len(draw: &mut Draw, addr: Addr) -> u8 {
    let most = match addr {
        Addr::V4(_) => 32,
        Addr::V6(_) => 128,
    };
    match draw.below(6) {
        0 => 0,
        1 => 1,
        2 => 2,
        3 => most - 2,
        4 => most - 1,
        _ => most,
    }
}

fn mask(rt: &impl Abort, draw: &mut Draw) -> Mask {
    match draw.below(4) {
        0 => Mask::empty().with(iface(rt, 0)),
        1 => Mask::empty().with(iface(rt, 63)),
        _ => Mask::empty(),
    }
}

/// A write of a cell, which is empty one time out of four or more.
fn change(rt: &impl Abort, draw: &mut Draw) -> CellChange {
    let addr = addr(draw);
    let prefix = Prefix::new(addr, len(draw, addr)).expect(rt, "a prefix");
    let cell = Cell {
        f: mask(rt, draw),
        a: mask(rt, draw),
        z: draw.below(4) == 0,
    };
    CellChange { prefix, cell }
}

/// Whether a later write is of the same prefix.
fn is_written_over(later: &[CellChange], prefix: &Prefix) -> bool {
    for change in later {
        if change.prefix == *prefix {
            return true;
        }
    }
    false
}

/// Whether the source passes by the last write of some prefix that covers it.
fn slow_check(writes: &[CellChange], iface: IfaceId, mode: Mode, source: &Addr) -> bool {
    for (i, change) in writes.iter().enumerate() {
        if change.prefix.covers(source)
            && is_in_set(mode, iface, &change.prefix, &change.cell)
            && !is_written_over(&writes[i + 1..], &change.prefix)
        {
            return true;
        }
    }
    mode == Mode::Off
}

/// The table of trees, the plain list and the slow program agree on the source in each mode.
fn agree(
    rt: &impl Abort,
    table: &CoverTable,
    listed: &Listed,
    writes: &[CellChange],
    id: IfaceId,
    source: &Addr,
) {
    for mode in [
        Mode::Off,
        Mode::Feasible,
        Mode::Loose,
        Mode::LooseNoDefault,
        Mode::EfpA,
        Mode::EfpB,
    ] {
        let wanted = slow_check(writes, id, mode, source);
        assert_eq!(rt;
            passes(table, id, mode, source),
            wanted,
            "{mode:?} {source:?}"
        );
        assert_eq!(rt;
            listed.check(id, mode, source),
            wanted,
            "{mode:?} {source:?}"
        );
    }
}

/// A drawn table, beside the list of its writes.
fn draw_table(rt: &(impl Abort + AllocGlobal), draw: &mut Draw) {
    let mut table = CoverTable::new(rt.alloc());
    let mut listed = Listed::new(rt.alloc());
    let mut writes = Vec::new(rt.alloc());
    for _ in 0..draw.below(WRITES) + 1 {
        let next = change(rt, draw);
        table.reserve(1).expect(rt, "memory");
        table.absorb(&next);
        listed.write(&next).expect(rt, "memory");
        writes.push(next).expect(rt, "memory");
    }
    for _ in 0..SOURCES {
        let source = addr(draw);
        agree(rt, &table, &listed, &writes, iface(rt, 0), &source);
        agree(rt, &table, &listed, &writes, iface(rt, 63), &source);
    }
}

#[test]
fn drawn_tables_answer_as_a_slow_program_does(rt: HostRuntime) {
    let mut draw = Draw { state: 1 };
    for _ in 0..TABLES {
        draw_table(&rt, &mut draw);
    }
}
