//! A snapshot: it takes over what is published, batch by batch, and judges sources by it.
ghost use Rattle.std.specs.Prelude.{◌≡◌, ◌≤◌, ◌<◌, MatchResult, length};
ghost use Rattle.cover_table.specs.Judging.{judge, passes};
ghost use Rattle.cover_table.specs.Snapshots.{opening, step};
ghost use Rattle.cover_table.specs.Tables.{taken_over};

use crate::batch::Batch;
use crate::table::CoverTable;
use router_config::Kinds;
use std::alloc::Global;
use std::marker::{Brand, Model};
use std::sync::ledger::{Blank, Ledger};
use urpf_base::{Addr, CellChange, IfaceId, Mode, OutOfMemory, Steps, Verdict};

/// What was published last: its number, the interfaces with their kinds, and the cells. Contracts
/// see these alone, and not the room that is left.
#[derive(Drop)]
pub struct Snapshot {
    number: u64,
    kinds: Kinds,
    table: CoverTable,
}

impl Model for Snapshot {
    ghost use Rattle.std.specs.Coded.{codes};
    ghost use Rattle.cover_table.specs.Snapshots.{Publication};
    ghost use Rattle.cover_table.specs.Tables.{cells_code};

    ghost Value = { Publication };

    ghost coded = { Prim.hlevel (codes, cells_code) };

    ghost view = { λ s. record { number = s.number; kinds = s.kinds; cells = s.table.cells } };
}

impl Snapshot {
    /// What stands before the first publication: its number is 0, and no prefix is in any set. It
    /// takes no memory.
    pub fn new(alloc: Global, kinds: Kinds) -> Snapshot
        ensures { result ≡ opening kinds }
    {
        Snapshot {
            number: 0,
            kinds,
            table: CoverTable::new(alloc),
        }
    }

    /// Takes a publication over. Where memory is refused nothing of the one before is changed.
    pub fn absorb(&mut self, batch: &Batch) -> Result<(), OutOfMemory>
        ensures { MatchResult result (λ _. self.new ≡ step self.old batch.now) (λ _. self.new ≡ self.old) }
    {
        let kinds = batch.kinds.copied()?;
        let changes = batch.changes.items();
        self.table.reserve(changes.len())?;
        take_over(&mut self.table, changes);
        self.kinds = kinds;
        self.number = batch.number;
        Ok(())
    }

    /// The verdict on a packet that came in on this interface with this source, which is None where
    /// none can be read. It takes no memory.
    pub fn check(&self, iface: u16, source: Option<Addr>) -> Verdict
        ensures { result ≡ judge self.now iface source }
    {
        let Some(id) = self.kinds.iface(iface as u32) else {
            return Verdict::NoIface;
        };
        let Some(kind) = self.kinds.kind(id) else {
            return Verdict::NoIface;
        };
        let Some(source) = source else {
            return Verdict::BadHead;
        };
        if passes_counted::<Brand>(&self.table, id, kind.effective(), &source, Blank::new(1)) {
            return Verdict::Pass;
        }
        Verdict::Drop
    }

    /// The number of the publication, which is 0 before the first one.
    pub fn number(&self) -> u64
        ensures { result ≡ self.now.number }
    {
        self.number
    }

    /// The interfaces of the publication, each with its kind.
    pub fn kinds(&self) -> &Kinds
        ensures { result.now ≡ self.now.kinds }
    {
        &self.kinds
    }
}

/// Whether the source passes. The steps are counted for the contract of the table alone.
fn passes_counted<L: Ledger>(
    table: &CoverTable,
    iface: IfaceId,
    mode: Mode,
    addr: &Addr,
    blank: Blank,
) -> bool
    requires name { blank.name ≡ L.name }
    requires parts { blank.parts ≡ L.parts }
    requires some { 0 < blank.parts }
    ensures { result ≡ passes mode iface table.now.cells addr.now }
{
    let mut steps = Steps::<L>::new(blank);
    table.check(iface, mode, addr, &mut steps)
}

/// Writes the cells of all changes. It takes no memory.
fn take_over(table: &mut CoverTable, changes: &[CellChange])
    requires { length changes.now ≤ table.old.spare }
    ensures { table.new.cells ≡ taken_over changes.now table.old.cells }
{
    for change in changes {
        table.absorb(change);
    }
}
