//! A table as a plain list of cells, in no order: what the tree stands for.
use std::alloc::{AllocError, Global};
use urpf_base::{Addr, Cell, CellChange, IfaceId, Mask, Mode, Prefix};

/// The cells of prefixes, each prefix once. A cell may be empty.
#[derive(Drop)]
pub struct Listed {
    rows: Vec<(Prefix, Cell)>,
}

impl Listed {
    pub fn new(alloc: Global) -> Listed {
        Listed {
            rows: Vec::new(alloc),
        }
    }

    /// Writes one cell.
    pub fn write(&mut self, change: &CellChange) -> Result<(), AllocError> {
        for row in self.rows.iter_mut() {
            if row.0 == change.prefix {
                row.1 = change.cell;
                return Ok(());
            }
        }
        self.rows.push((change.prefix, change.cell))?;
        Ok(())
    }

    /// Whether the source passes on the interface in this mode.
    pub fn check(&self, iface: IfaceId, mode: Mode, source: &Addr) -> bool {
        for row in &self.rows {
            if row.0.covers(source) && is_in_set(mode, iface, &row.0, &row.1) {
                return true;
            }
        }
        mode == Mode::Off
    }
}

/// Whether the cell of the prefix has it in the set of the interface.
pub fn is_in_set(mode: Mode, iface: IfaceId, prefix: &Prefix, cell: &Cell) -> bool {
    let heard = cell.f != Mask::empty();
    match mode {
        Mode::Off => true,
        Mode::Feasible => cell.f.has(iface),
        Mode::Loose => heard,
        Mode::LooseNoDefault => heard && prefix.len() != 0,
        Mode::EfpA => cell.a.has(iface),
        Mode::EfpB => cell.z,
    }
}
