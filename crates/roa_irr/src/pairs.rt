//! The pairs of a table: what each record comes to is added, and the pairs are told by their place.
ghost use Rattle.std.specs.Prelude.{◌≡◌, ◌↔◌, ℕ, ◌+◌, ◌^◌, ◌<◌, ◌≤◌, List, [], ◌∷◌, ◌++◌, length};
ghost use Rattle.std.specs.Prelude.{Err, OnErr, OnOk, Some, slice_get};
ghost use Rattle.roa_irr.specs.Tables.{pairs_max, pairs_of, skipped_of};

use origin_pairs::{PackedPair, packed};
use std::alloc::Global;
use std::marker::Model;
use urpf_base::Prefix;

/// The most pairs of a table. Our own choice.
const PAIRS_MAX: usize = 4_000_000;

/// The pairs of a table in its order, with repeats, and how many of its records gave none. Contracts
/// see them as that list and that number.
#[derive(Drop)]
pub struct Pairs {
    rows: Vec<PackedPair>,
    skipped: u64,
}

impl Model for Pairs {
    ghost use Rattle.std.specs.Prelude.{map};
    ghost use Rattle.origin_pairs.specs.Packed.{unpacked};
    ghost use Rattle.roa_irr.specs.Tables.{Table};

    ghost Value = { Table };

    ghost view = { λ p. record { pairs = map unpacked p.rows.items; skipped = p.skipped } };
}

/// Why no pairs were read.
#[derive(Clone, Copy, Debug, PartialEq, Eq)]
pub enum PairsFault {
    /// There would be more than 4,000,000 pairs, repeats counted.
    TooMany,
    /// Memory could not be had.
    OutOfMemory,
}

/// What a record or an object comes to.
#[derive(Clone, Copy, Debug)]
pub enum Outcome {
    /// It gives this pair.
    Pair(Prefix, u32),
    /// It gives none, and is counted.
    Skipped,
    /// It is of no class that gives pairs.
    Ignored,
}

impl Pairs {
    pub(crate) fn new(alloc: Global) -> Pairs
        ensures pairs { result.pairs ≡ [] }
        ensures skipped { result.skipped ≡ 0 }
    {
        Pairs {
            rows: Vec::new(alloc),
            skipped: 0,
        }
    }

    /// How many pairs there are.
    pub fn len(&self) -> usize
        ensures { result ≡ length self.now.pairs }
    {
        self.rows.len()
    }

    /// Pair `k`, counted from 0.
    pub fn pair(&self, k: usize) -> (Prefix, u32)
        requires { k < length self.now.pairs }
        ensures { slice_get self.now.pairs k ≡ Some result }
    {
        self.rows[k].unpacked()
    }

    /// How many records or objects gave no pair.
    pub fn skipped(&self) -> u64
        ensures { result ≡ self.now.skipped }
    {
        self.skipped
    }

    /// Adds what one more record comes to. TooMany where it is a pair and there is no room for it.
    /// Memory is taken for a pair alone.
    pub(crate) fn add(&mut self, outcome: Outcome) -> Result<(), PairsFault>
        requires few { self.old.skipped + 1 < 2 ^ 64 }
        requires room { length self.old.pairs ≤ pairs_max }
        ensures pairs { OnOk result (self.new.pairs ≡ self.old.pairs ++ pairs_of (outcome ∷ [])) }
        ensures skipped { OnOk result (self.new.skipped ≡ self.old.skipped + skipped_of (outcome ∷ [])) }
        ensures fits { OnOk result (length self.new.pairs ≤ pairs_max) }
        ensures too_many { result ≡ Err PairsFault.TooMany
            → pairs_max < length self.old.pairs + length (pairs_of (outcome ∷ [])) }
        ensures memory { result ≡ Err PairsFault.OutOfMemory → 0 < length (pairs_of (outcome ∷ [])) }
    {
        match outcome {
            Outcome::Pair(prefix, origin) => self.push(&prefix, origin),
            Outcome::Skipped => {
                self.skipped += 1;
                Ok(())
            }
            Outcome::Ignored => Ok(()),
        }
    }

    /// Puts a pair at the end. TooMany where there is no room for it.
    fn push(&mut self, prefix: &Prefix, origin: u32) -> Result<(), PairsFault>
        requires room { length self.old.pairs ≤ pairs_max }
        ensures pairs { OnOk result (self.new.pairs ≡ self.old.pairs ++ (prefix.now, origin) ∷ []) }
        ensures skipped { self.new.skipped ≡ self.old.skipped }
        ensures fits { OnOk result (length self.old.pairs < pairs_max) }
        ensures too_many { result ≡ Err PairsFault.TooMany ↔ (length self.old.pairs ≡ pairs_max) }
    {
        if self.rows.len() >= PAIRS_MAX {
            return Err(PairsFault::TooMany);
        }
        let Ok(()) = self.rows.push(packed(prefix, origin)) else {
            return Err(PairsFault::OutOfMemory);
        };
        Ok(())
    }
}
