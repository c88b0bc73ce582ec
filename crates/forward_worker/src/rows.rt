//! The rows of a round: what is said of each packet.
ghost use Rattle.std.specs.Prelude.{◌≡◌, [], ◌∷◌, ◌++◌, OnOk, OnErr};

use std::alloc::Global;
use std::marker::Model;
use urpf_base::{Addr, OutOfMemory, Verdict};

/// What is said of one packet.
#[derive(Clone, Copy, Debug, PartialEq, Eq)]
pub struct CheckRow {
    /// The number of the worker that read it.
    pub worker: u32,
    /// Its place among the packets of the worker, from 1.
    pub place: u64,
    /// The number of the interface that it came in on.
    pub iface: u16,
    /// Its source. None where its first 60 octets name none.
    pub source: Option<Addr>,
    /// The number of the publication that judged it, 0 before the first one, and the verdict. None
    /// where the checker was refused, at this packet or before in the round.
    pub answer: Option<(u64, Verdict)>,
}

/// A list of rows. Contracts see the list.
#[derive(Drop)]
pub struct CheckRows {
    items: Vec<CheckRow>,
}

impl Model for CheckRows {
    ghost use Rattle.std.specs.Prelude.{List};
    ghost use Rattle.forward_worker.specs.declared.rows.CheckRow.{CheckRow};

    ghost Value = { List CheckRow };

    ghost view = { λ r. r.items.items };
}

impl CheckRows {
    /// The list of no row. It takes no memory.
    pub fn new(alloc: Global) -> CheckRows
        ensures { result ≡ [] }
    {
        CheckRows {
            items: Vec::new(alloc),
        }
    }

    /// The list of these rows.
    pub(crate) fn of(items: Vec<CheckRow>) -> CheckRows
        ensures { result ≡ items.items }
    {
        CheckRows { items }
    }

    /// Appends a row. Where memory is refused nothing is changed.
    pub fn push(&mut self, row: CheckRow) -> Result<(), OutOfMemory>
        ensures ok { OnOk result (self.new ≡ self.old ++ row ∷ []) }
        ensures err { OnErr result (self.new ≡ self.old) }
    {
        let Ok(()) = self.items.push(row) else {
            return Err(OutOfMemory);
        };
        Ok(())
    }

    /// The rows in their order.
    pub fn items(&self) -> &[CheckRow]
        ensures { result.now ≡ self.now }
    {
        &self.items
    }
}
