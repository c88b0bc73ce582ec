//! Who checks packets: a pass, or one of two stand-ins for it.
ghost use Rattle.std.specs.Prelude.{◌≡◌, [], None, IfSome, IfNone, length};
ghost use mathlib.Core.List.{IsPrefix};
ghost use Rattle.urpf_base.specs.Faults.{Rose};
ghost use Rattle.cover_table.specs.Judging.{judge};
ghost use Rattle.cover_table.specs.Snapshots.{fold, opening as at_opening};
ghost use Rattle.epoch_publish.specs.History.{AreNumbered};

use cover_table::Snapshot;
use router_config::Kinds;
use std::alloc::Global;
use std::marker::Model;
use urpf_base::{Addr, Verdict};

/// Who checks packets. Contracts see whose publications it checks by, if there is such a one, the
/// interfaces before the first publication, the batches that it saw or was told of, and how often it
/// was refused.
pub trait Checker {
    ghost use Rattle.std.specs.Prelude.{ℕ, List, Option};
    ghost use Rattle.logbook.specs.Pages.{Book};
    ghost use Rattle.urpf_base.specs.declared.kinds.Kind.{Kind};
    ghost use Rattle.cover_table.specs.declared.batch.Batch.{Batch};

    ghost identity: { Self → Option Book };

    ghost opening: { Self → List (ℕ × Kind) };

    ghost list: { Self → List Batch };

    ghost count: { Self → ℕ };

    /// The verdict on a packet that came in on this interface with this source, which is None where
    /// none can be read, and the number of the publication that it is by, 0 before the first one.
    /// None where it was refused, which its count tells: a count at its last value counts as raised.
    fn check(&mut self, iface: u16, source: Option<Addr>) -> Option<(u64, Verdict)>
        ensures kept { (identity self.new ≡ identity self.old) × (opening self.new ≡ opening self.old) }
        ensures grows { IsPrefix (list self.old) (list self.new) }
        ensures numbered { AreNumbered (list self.new) }
        ensures number { IfSome result (λ a. a.0 ≡ length (list self.new)) }
        ensures verdict { IfSome result (λ a. a.1 ≡ judge (fold (opening self.new) (list self.new)) iface source) }
        ensures answered { IfSome result (λ _. count self.new ≡ count self.old) }
        ensures refused { IfNone result (Rose (count self.old) (count self.new) × (list self.new ≡ list self.old)) };

    /// The number of the last batch, which is 0 where there is none.
    fn number(&self) -> u64
        ensures number { result ≡ length (list self.now) }
        ensures numbered { AreNumbered (list self.now) };
}

/// A checker without publications, which judges by what is there before the first one. Contracts see
/// the interfaces.
#[derive(Drop)]
pub struct SurePass {
    snapshot: Snapshot,
}

impl Model for SurePass {
    ghost use Rattle.std.specs.Prelude.{◌≡◌, ℕ, List};
    ghost use Rattle.urpf_base.specs.declared.kinds.Kind.{Kind};
    ghost use Rattle.cover_table.specs.Snapshots.{opening};

    ghost Value = { List (ℕ × Kind) };

    ghost view = { λ p. p.snapshot.kinds };

    ghost invariant = { λ p. p.snapshot ≡ opening p.snapshot.kinds };
}

impl SurePass {
    /// A checker by these interfaces. It takes no memory.
    pub fn new(alloc: Global, kinds: Kinds) -> SurePass
        ensures { result ≡ kinds }
    {
        SurePass {
            snapshot: Snapshot::new(alloc, kinds),
        }
    }
}

impl Checker for SurePass {
    ghost identity = { λ p. None };

    ghost opening = { λ p. p };

    ghost list = { λ p. [] };

    ghost count = { λ p. 0 };

    fn check(&mut self, iface: u16, source: Option<Addr>) -> Option<(u64, Verdict)> {
        Some((0, self.snapshot.check(iface, source)))
    }

    fn number(&self) -> u64 {
        0
    }
}

/// A checker that refuses each check. Contracts see how often it did.
#[derive(Drop)]
pub struct NoPass {
    refused: u64,
}

impl Model for NoPass {
    ghost use Rattle.std.specs.Prelude.{ℕ};

    ghost Value = { ℕ };

    ghost view = { λ p. p.refused };
}

impl NoPass {
    /// A checker that has not refused yet.
    pub fn new() -> NoPass
        ensures { result ≡ 0 }
    {
        NoPass { refused: 0 }
    }
}

impl Checker for NoPass {
    ghost identity = { λ p. None };

    ghost opening = { λ p. [] };

    ghost list = { λ p. [] };

    ghost count = { λ p. p };

    fn check(&mut self, _iface: u16, _source: Option<Addr>) -> Option<(u64, Verdict)> {
        self.refused = raised(self.refused);
        None
    }

    fn number(&self) -> u64 {
        0
    }
}

/// One more, up to the last value.
pub(crate) fn raised(count: u64) -> u64
    ensures { Rose count result }
{
    if count == u64::MAX {
        return count;
    }
    count + 1
}
