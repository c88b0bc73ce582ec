//! The table of the cells of now.
ghost use Rattle.std.specs.Prelude.{IfOk};
ghost use Rattle.rpf_plain.specs.Cells.{IsTable};
ghost use Rattle.rpf_plain.specs.Kept.{all_rows};
ghost use Rattle.rpf_plain.specs.World.{world_for};

use crate::cells::{decided, with_pairs};
use crate::customers::customers_of;
use crate::origins::reaches;
use crate::row_map::RowMap;
use origin_pairs::PairSet;
use prefix_map::PrefixMap;
use router_config::Kinds;
use std::alloc::Global;
use urpf_base::{Cell, OutOfMemory};

/// The cells of all prefixes that a set has, made anew.
pub fn table_of(
    alloc: Global,
    rows: &RowMap,
    pairs: &PairSet,
    kinds: &Kinds,
) -> Result<PrefixMap<Cell>, OutOfMemory>
    ensures { IfOk result (IsTable (world_for kinds.now (all_rows rows.now) pairs.now)) }
{
    let customers = customers_of(kinds);
    let origins = reaches(alloc, rows, customers)?;
    let cells = decided(alloc, rows, &origins, customers)?;
    with_pairs(cells, pairs, &origins, customers)
}
