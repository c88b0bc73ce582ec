//! What an entry says of the interface that a source came in on.
ghost use Rattle.std.specs.Prelude.{◌≡◌, ◌==◌, ◌&&◌, ℕ, not};
ghost use Rattle.cover_table.specs.Judging.{in_mask, is_off, told};
ghost use Rattle.cover_table.specs.Tables.{is_empty_cell};
ghost use Rattle.cover_table.specs.Trees.{block_for, entry_cell};

use crate::nodes::Entry;
use urpf_base::{IfaceId, Mask, Mode};

/// Whether sources are not checked in this mode.
pub fn is_off(mode: Mode) -> bool
    ensures { result ≡ is_off mode }
{
    match mode {
        Mode::Off => true,
        Mode::Feasible | Mode::Loose | Mode::LooseNoDefault | Mode::EfpA | Mode::EfpB => false,
    }
}

/// Whether the entry is not empty, and says that its prefix is in the set of the interface.
pub fn told_by(mode: Mode, iface: IfaceId, entry: &Entry) -> bool
    ensures { (width : ℕ) → result ≡ (not (is_empty_cell (entry_cell entry.now))
        && told mode iface (block_for width entry.now) (entry_cell entry.now)) }
{
    if entry.is_empty() {
        return false;
    }
    match mode {
        Mode::Off => true,
        Mode::Feasible => in_mask(&entry.f, iface),
        Mode::Loose => has_some(&entry.f),
        Mode::LooseNoDefault => entry.len > 0 && has_some(&entry.f),
        Mode::EfpA => in_mask(&entry.a, iface),
        Mode::EfpB => entry.z,
    }
}

/// Whether the interface is in the set.
fn in_mask(mask: &Mask, iface: IfaceId) -> bool
    ensures { result ≡ in_mask mask.now iface }
{
    mask.has(iface)
}

/// Whether some interface is in the set.
fn has_some(mask: &Mask) -> bool
    ensures { result ≡ not (mask.now == 0) }
{
    !mask.is_empty()
}
