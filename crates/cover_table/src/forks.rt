//! Where two prefixes of a block part.
ghost use Rattle.std.specs.Prelude.{◌≡◌, ◌+◌, ◌≤◌, ◌<◌, true};
ghost use Rattle.urpf_base.specs.Address.{cleared};
ghost use Rattle.cover_table.specs.Tables.{is_empty_cell};
ghost use Rattle.cover_table.specs.Trees.{IsWithin, entry_cell, size};

use crate::nodes::{Entry, half};
use urpf_base::Mask;

/// The longest prefix of the block that covers both entries, with no cell. The upper one begins
/// where the lower one has ended, or later.
pub fn fork_of(width: u8, low: u128, depth: u8, lower: &Entry, upper: &Entry) -> Entry
    requires width { width ≤ 128 }
    requires lower { IsWithin width low depth lower.now }
    requires upper { IsWithin width low depth upper.now }
    requires whole { cleared width depth low ≡ low }
    requires apart { lower.now.bits + size width lower.now.len ≤ upper.now.bits }
    ensures within { IsWithin width low depth result }
    ensures empty { is_empty_cell (entry_cell result) ≡ true }
    ensures lower { IsWithin width result.bits (result.len + 1) lower.now }
    ensures upper { IsWithin width (result.bits + size width (result.len + 1)) (result.len + 1) upper.now }
{
    let middle = low + half(width - depth);
    if upper.bits < middle {
        return fork_of(width, low, depth + 1, lower, upper);
    }
    if lower.bits >= middle {
        return fork_of(width, middle, depth + 1, lower, upper);
    }
    Entry {
        bits: low,
        f: Mask::empty(),
        a: Mask::empty(),
        len: depth,
        z: false,
    }
}
