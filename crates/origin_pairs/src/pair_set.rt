//! A set of pairs: pairs go in and come out, and a walk gives them in order.
//!
//! It is kept as two ordered sets, one a family, whose members are 12 and 24 octets.
ghost use Rattle.std.specs.Prelude.{◌≡◌, ◌<◌, ◌^◌, [], Ok, OnErr, true, false, length};
ghost use Rattle.std.specs.BTreeSet.{IsOrdered, contains, insert_key};
ghost use Rattle.std.specs.Iterator.{YieldsFirst, item_count};
ghost use Rattle.urpf_base.specs.Lists.{Has};
ghost use Rattle.origin_pairs.specs.Kept.{all_pairs};
ghost use Rattle.origin_pairs.specs.Pairs.{AreAscending, HasOneMore};

use crate::packed_pair::{LongPair, PackedPair, ShortPair};
use crate::packing::packed;
use std::alloc::Global;
use std::collections::BTreeSet;
use std::collections::btree_set::Iter;
use std::marker::Model;
use urpf_base::{OutOfMemory, Prefix};

/// Pairs, each once. Contracts see them as a list in their order.
#[derive(Drop)]
pub struct PairSet {
    short: BTreeSet<ShortPair>,
    long: BTreeSet<LongPair>,
}

impl Model for PairSet {
    ghost use Rattle.std.specs.Prelude.{List};
    ghost use Rattle.std.specs.Coded.{coded_list};
    ghost use Rattle.origin_pairs.specs.Kept.{AreKept, all_pairs, pair_code};
    ghost use Rattle.origin_pairs.specs.Pairs.{Pair};

    ghost Value = { List Pair };

    ghost coded = { coded_list pair_code };

    ghost view = { λ s. all_pairs s.short.keys s.long.keys };

    ghost invariant = { λ s. AreKept s.short.keys s.long.keys };
}

impl PairSet {
    /// No pairs. It takes no memory.
    pub fn new(alloc: Global) -> PairSet
        ensures { result ≡ [] }
    {
        PairSet {
            short: BTreeSet::new(alloc),
            long: BTreeSet::new(alloc),
        }
    }

    /// Adds a pair. Whether it is new. A refusal comes only where it is, and changes nothing.
    pub fn add(&mut self, prefix: &Prefix, asn: u32) -> Result<bool, OutOfMemory>
        requires { length self.old < 2 ^ 40 }
        ensures added { result ≡ Ok true → HasOneMore (prefix.now, asn) self.old self.new }
        ensures there { result ≡ Ok false → Has self.old (prefix.now, asn) × (self.new ≡ self.old) }
        ensures err { OnErr result (self.new ≡ self.old) }
        ensures absent { OnErr result (¬ Has self.old (prefix.now, asn)) }
    {
        match packed(prefix, asn) {
            PackedPair::Short(pair) => insert_into(&mut self.short, pair),
            PackedPair::Long(pair) => insert_into(&mut self.long, pair),
        }
    }

    /// Takes a pair away. Whether it was there. It takes no memory.
    pub fn remove(&mut self, prefix: &Prefix, asn: u32) -> bool
        ensures removed { result ≡ true → HasOneMore (prefix.now, asn) self.new self.old }
        ensures absent { result ≡ false
            → (¬ Has self.old (prefix.now, asn)) × (self.new ≡ self.old) }
    {
        match packed(prefix, asn) {
            PackedPair::Short(pair) => self.short.remove(&pair),
            PackedPair::Long(pair) => self.long.remove(&pair),
        }
    }

    /// The pairs in their order, those of IPv4 first.
    pub fn pairs(&self) -> PairsIn<'_>
        ensures list { result ≡ self.now }
        ensures ascending { AreAscending self.now }
    {
        PairsIn {
            short: self.short.iter(),
            long: self.long.iter(),
        }
    }
}

/// Adds a pair to the set of its family. Whether it is new. A refusal comes only where it is.
fn insert_into<K: Ord + Copy>(set: &mut BTreeSet<K>, pair: K) -> Result<bool, OutOfMemory>
    ensures added { result ≡ Ok true → (contains K.cmp set.old pair ≡ false)
        × (set.new.keys ≡ insert_key K.cmp set.old.keys pair) }
    ensures there { result ≡ Ok false → (contains K.cmp set.old pair ≡ true)
        × (set.new.keys ≡ set.old.keys) }
    ensures err { OnErr result (set.new.keys ≡ set.old.keys) }
    ensures absent { OnErr result (contains K.cmp set.old pair ≡ false) }
    ensures ordered { IsOrdered K.cmp set.new }
{
    let Ok(added) = set.insert(pair) else {
        return Err(OutOfMemory);
    };
    Ok(added)
}

/// The pairs that are still to come.
#[derive(Drop)]
pub struct PairsIn<'a> {
    short: Iter<'a, ShortPair>,
    long: Iter<'a, LongPair>,
}

impl<'a> Model for PairsIn<'a> {
    ghost use Rattle.std.specs.Prelude.{List};
    ghost use Rattle.std.specs.Coded.{coded_list};
    ghost use Rattle.origin_pairs.specs.Kept.{all_pairs, pair_code};
    ghost use Rattle.origin_pairs.specs.Pairs.{Pair};

    ghost Value = { List Pair };

    ghost coded = { coded_list pair_code };

    ghost view = { λ p. all_pairs p.short p.long };
}

impl<'a> Iterator for PairsIn<'a> {
    type Item = (Prefix, u32);

    ghost next_gives = { YieldsFirst (λ s. s) };

    ghost remaining = { item_count (λ s. s) };

    fn next(&mut self) -> Option<(Prefix, u32)> {
        if let Some(pair) = self.short.next() {
            return Some(PackedPair::Short(*pair).unpacked());
        }
        let Some(pair) = self.long.next() else {
            return None;
        };
        Some(PackedPair::Long(*pair).unpacked())
    }
}
