//! The map: pairs go in and come out by their prefix, and a walk gives them in order.
ghost use Rattle.std.specs.Prelude.{◌≡◌, ◌↔◌, ◌<◌, ◌≤◌, ◌+◌, ◌^◌, Some, None, IsSome, IfOk, OnOk, OnErr, IsTrue, false};
ghost use Rattle.std.specs.Prelude.{length, option_copied};
ghost use Rattle.urpf_base.specs.Address.{Block, Covers, block_of, width_of};
ghost use Rattle.urpf_base.specs.Lists.{Has};
ghost use Rattle.std.specs.FinMap as map;
ghost use Rattle.prefix_map.specs.Keys.{FitsFamily};
ghost use Rattle.prefix_map.specs.Mapped.{entries_after};
ghost use Rattle.std.specs.BTreeMap.{IsOrdered, btree_map_len, get, insert_entry};

use crate::families::{Key, key_of};
use crate::keys::{LongKey, ShortKey};
use crate::pairs::{Pairs, long_start, short_start};
use std::alloc::Global;
use std::collections::BTreeMap;
use std::marker::Model;
use std::ops::Bound;
use std::sync::ledger::Ledger;
use urpf_base::{Addr, OutOfMemory, Prefix, Steps};

/// The most pairs that a map comes to hold.
pub(crate) const PAIRS_MOST: usize = 0x7FFF_FFFF_FFFF_FFFF;

/// A value for each of finitely many prefixes.
#[derive(Drop)]
pub struct PrefixMap<V: Copy> {
    pub(crate) short: BTreeMap<ShortKey, V>,
    pub(crate) long: BTreeMap<LongKey, V>,
}

impl<V: Copy> Model for PrefixMap<V> {
    ghost use Rattle.prefix_map.specs.Mapped.{Mapped};
    ghost use Rattle.prefix_map.specs.Kept.{AreKept, seen, map_code};

    ghost Value = { Mapped V };

    ghost coded = { map_code V.code };

    ghost view = { λ m. seen m.short.entries m.long.entries };

    ghost invariant = { λ m. AreKept m.short.entries m.long.entries };
}

impl<V: Copy> PrefixMap<V> {
    /// No pairs. Takes no memory: the first pair does.
    pub fn new(alloc: Global) -> PrefixMap<V>
        ensures { result ≡ map.empty }
    {
        PrefixMap {
            short: BTreeMap::new(alloc),
            long: BTreeMap::new(alloc),
        }
    }

    /// Gives the prefix this value, and answers the value that it had: None where it was not there.
    /// A refusal comes only where it was not there, and changes nothing.
    pub fn set(&mut self, prefix: &Prefix, value: V) -> Result<Option<V>, OutOfMemory>
        ensures old { IfOk result (λ old. old ≡ map.get self.old prefix.now) }
        ensures ok { OnOk result (self.new ≡ map.insert self.old prefix.now value) }
        ensures err { OnErr result (self.new ≡ self.old) }
        ensures absent { OnErr result (map.get self.old prefix.now ≡ None) }
    {
        match key_of(prefix) {
            Key::Short(key) => insert_within(&mut self.short, key, value, self.long.len()),
            Key::Long(key) => insert_within(&mut self.long, key, value, self.short.len()),
        }
    }

    /// Gives a prefix that is there another value, and answers the old one.
    pub fn replace(&mut self, prefix: &Prefix, value: V) -> V
        requires { IsSome (map.get self.old prefix.now) }
        ensures old { map.get self.old prefix.now ≡ Some result }
        ensures new { self.new ≡ map.insert self.old prefix.now value }
    {
        let Ok(Some(old)) = self.set(prefix, value) else {
            unreachable!()
        };
        old
    }

    /// Takes the prefix out, and answers the value that it had: None where it was not there.
    pub fn remove(&mut self, prefix: &Prefix) -> Option<V>
        ensures old { result ≡ map.get self.old prefix.now }
        ensures gone { self.new ≡ map.remove self.old prefix.now }
    {
        match key_of(prefix) {
            Key::Short(key) => self.short.remove(&key),
            Key::Long(key) => self.long.remove(&key),
        }
    }

    /// Takes all pairs out.
    pub fn clear(&mut self)
        ensures { self.new ≡ map.empty }
    {
        self.short.clear();
        self.long.clear();
    }

    /// The value of the prefix. None where the prefix is not there.
    pub fn get(&self, prefix: &Prefix) -> Option<V>
        ensures { result ≡ map.get self.now prefix.now }
    {
        match key_of(prefix) {
            Key::Short(key) => self.short.get(&key).copied(),
            Key::Long(key) => self.long.get(&key).copied(),
        }
    }

    /// How many prefixes there are.
    pub fn len(&self) -> usize
        ensures count { result ≡ map.len self.now }
        ensures small { result < 2 ^ 63 }
    {
        self.short.len() + self.long.len()
    }

    /// The pairs, in the order of their prefixes.
    pub fn pairs(&self) -> Pairs<'_, V>
        ensures list { result ≡ map.entries self.now }
        ensures small { length result < 2 ^ 63 }
    {
        self.pairs_after(None)
    }

    /// The pairs whose prefix comes after the given one, or all of them where none is given. The
    /// given prefix need not be there.
    pub fn pairs_after(&self, start: Option<&Prefix>) -> Pairs<'_, V>
        ensures list { result ≡ entries_after (option_copied start.entry) self.now }
        ensures small { length result < 2 ^ 63 }
    {
        let short = self.short.range((short_start(start), Bound::Unbounded));
        let long = self.long.range((long_start(start), Bound::Unbounded));
        Pairs::over(short, long)
    }

    /// Whether a prefix that is there covers the address. It asks for one prefix of each length, a
    /// step for each: for 33 prefixes of IPv4 at most, or 129 of IPv6.
    pub fn any_covers<L: Ledger>(&self, addr: &Addr, steps: &mut Steps<L>) -> bool
        ensures covers { IsTrue result ↔ ((p : Block) × Has (map.keys self.now) p × Covers p addr.now) }
        ensures bound { steps.new ≤ steps.old + width_of addr.now + 1 }
        ensures up { steps.old ≤ steps.new }
        // Each look is counted: one for each length up to that of a prefix that covers, or for all.
        ensures some { IsTrue result → (p : Block) × Has (map.keys self.now) p × Covers p addr.now
            × (steps.new ≡ steps.old + p.len + 1) }
        ensures all { result ≡ false → steps.new ≡ steps.old + width_of addr.now + 1 }
    {
        let _ = &self.short;
        let addr = *addr;
        for len in 0..bits_of(addr) + 1 {
            let prefix = Prefix::new(addr, len).unwrap();
            if self.ask(&prefix, steps).is_some() {
                return true;
            }
        }
        false
    }

    /// That a prefix which is there and covers the address is the one of its length that does. It does
    /// nothing.
    pub fn one_covers_of_each_length(&self, addr: &Addr)
        ensures { (p : Block) → IsSome (map.get self.now p) → Covers p addr.now
            → (p.len ≤ width_of addr.now) × (p ≡ block_of p.len addr.now) }
    {
        let _ = &self.short;
        let _ = bits_of(*addr);
    }

    /// The value of the prefix, in one step.
    fn ask<L: Ledger>(&self, prefix: &Prefix, steps: &mut Steps<L>) -> Option<V>
        ensures value { result ≡ map.get self.now prefix.now }
        ensures step { steps.new ≡ steps.old + 1 }
    {
        steps.tick();
        self.get(prefix)
    }

    /// Another map with the same pairs.
    pub fn copied(&self) -> Result<PrefixMap<V>, OutOfMemory>
        requires { (a b : V) → V.is_clone a b → b ≡ a }
        ensures { IfOk result (λ copy. copy ≡ self.now) }
    {
        let Ok(short) = self.short.clone() else {
            return Err(OutOfMemory);
        };
        let Ok(long) = self.long.clone() else {
            return Err(OutOfMemory);
        };
        Ok(PrefixMap { short, long })
    }
}

/// How many bits an address of this family has.
fn bits_of(addr: Addr) -> u8
    ensures width { result ≡ width_of addr }
    ensures fits { FitsFamily addr }
{
    match addr {
        Addr::V4(_) => 32,
        Addr::V6(_) => 128,
    }
}

/// Gives the key this value in one of two maps, the other of which has so many pairs. A refusal
/// comes only where the key was not there.
fn insert_within<K: Ord + Copy, V: Copy>(
    map: &mut BTreeMap<K, V>,
    key: K,
    value: V,
    others: usize,
) -> Result<Option<V>, OutOfMemory>
    requires { btree_map_len map.old + others < 2 ^ 63 }
    ensures old { IfOk result (λ old. old ≡ get K.cmp map.old key) }
    ensures entries { OnOk result (map.new.entries ≡ insert_entry K.cmp map.old.entries key value) }
    ensures err { OnErr result (map.new.entries ≡ map.old.entries) }
    ensures absent { OnErr result (get K.cmp map.old key ≡ None) }
    ensures count { btree_map_len map.new + others < 2 ^ 63 }
    ensures ordered { IsOrdered K.cmp map.new }
{
    if map.len() + others == PAIRS_MOST && map.get(&key).is_none() {
        return Err(OutOfMemory);
    }
    let Ok(old) = map.insert(key, value) else {
        return Err(OutOfMemory);
    };
    Ok(old)
}
