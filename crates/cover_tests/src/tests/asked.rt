//! A table is asked for a source, with its steps counted from none on.
ghost use Rattle.std.specs.Prelude.{◌≡◌, ◌<◌};

use cover_table::CoverTable;
use std::marker::Brand;
use std::sync::ledger::{Blank, Ledger};
use urpf_base::{Addr, IfaceId, Mode, Steps};

/// Whether the source passes on the interface in this mode.
pub fn passes(table: &CoverTable, iface: IfaceId, mode: Mode, source: &Addr) -> bool {
    passes_counted::<Brand>(table, iface, mode, source, Blank::new(1))
}

fn passes_counted<L: Ledger>(
    table: &CoverTable,
    iface: IfaceId,
    mode: Mode,
    source: &Addr,
    blank: Blank,
) -> bool
    requires name { blank.name ≡ L.name }
    requires parts { blank.parts ≡ L.parts }
    requires some { 0 < blank.parts }
{
    table.check(iface, mode, source, &mut Steps::<L>::new(blank))
}
