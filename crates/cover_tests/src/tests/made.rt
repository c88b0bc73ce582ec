//! Interfaces, cells, changes and batches that tests are made of.
ghost use Rattle.std.specs.Prelude.{◌≡◌, IsTrue};
ghost use Rattle.urpf_base.specs.Cells.{AllBefore};

use cover_table::Batch;
use router_config::{Kinds, read_config};
use std::process::Abort;
use urpf_base::{Addr, Cell, CellChange, Changes, IfaceId, Mask, Prefix};

/// 192.0.2.0, 198.51.100.0 and 203.0.113.0, of the addresses for documentation (RFC 5737).
pub const TEST_NET_1: u32 = 0xC000_0200;

pub const TEST_NET_2: u32 = 0xC633_6400;

pub const TEST_NET_3: u32 = 0xCB00_7100;

/// 2001:db8::, of the addresses for documentation (RFC 3849).
pub const DOCUMENTATION: u128 = 0x2001_0DB8 << 96;

/// A change: prefix of IPv4 with its length, `f`, `a` and `z` of its cell.
pub type Given = (u32, u8, &'static [u16], &'static [u16], bool);

/// A customer's interface in each mode but loose, and others' interfaces in the other modes.
const SEVEN: &str = r#"
interface = [
  {number = 0, role = "customer", mode = "efp-a"},
  {number = 1, role = "customer", mode = "feasible"},
  {number = 2, role = "customer", mode = "efp-b"},
  {number = 3, role = "peer", mode = "loose"},
  {number = 4, role = "provider", mode = "loose-nodefault"},
  {number = 5, role = "customer", mode = "off"},
  {number = 6, role = "provider", mode = "efp-a"},
]
session = [{interface = 0, peer_as = 64501}]
"#;

/// The seven interfaces.
pub fn seven(rt: &(impl Abort + AllocGlobal)) -> Kinds {
    let config = read_config(rt.alloc(), SEVEN.as_bytes()).expect(rt, "a configuration");
    config.kinds().expect(rt, "memory")
}

pub fn iface(rt: &impl Abort, number: u16) -> IfaceId {
    IfaceId::new(number).expect(rt, "an interface")
}

pub fn mask(rt: &impl Abort, numbers: &[u16]) -> Mask {
    let mut mask = Mask::empty();
    for number in numbers {
        mask = mask.with(iface(rt, *number));
    }
    mask
}

pub fn change(rt: &impl Abort, given: &Given) -> CellChange {
    let cell = Cell {
        f: mask(rt, given.2),
        a: mask(rt, given.3),
        z: given.4,
    };
    CellChange {
        prefix: Prefix::new(Addr::V4(given.0), given.1).expect(rt, "a prefix"),
        cell,
    }
}

/// Whether the prefix comes behind those of all changes.
fn comes_last(changes: &[CellChange], prefix: &Prefix) -> bool
    ensures { IsTrue result → AllBefore changes.now prefix.now }
{
    for change in changes {
        if !change.prefix.cmp(prefix).is_lt() {
            return false;
        }
    }
    true
}

/// A batch of this number and these changes, which ascend.
pub fn batch(rt: &(impl Abort + AllocGlobal), number: u64, kinds: Kinds, given: &[Given]) -> Batch {
    let mut changes = Changes::new(rt.alloc());
    for row in given {
        let next = change(rt, row);
        assert!(rt; comes_last(changes.items(), &next.prefix));
        changes.push(next).expect(rt, "memory");
    }
    Batch {
        number,
        kinds,
        changes,
    }
}
