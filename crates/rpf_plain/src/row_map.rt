//! The rows of an engine in their order, each with how often it is there.
//!
//! They are kept as two ordered maps, one a family, under keys of 12 and 24 octets.
ghost use Rattle.std.specs.Prelude.{◌≡◌, ◌⊎◌, ◌+◌, ◌<◌, ◌≤◌, ◌^◌, ℕ, [], ◌∷◌, Some, OnOk, OnErr, length};
ghost use Rattle.std.specs.BTreeMap.{IsOrdered, get, insert_entry, is_at};
ghost use Rattle.std.specs.Iterator.{YieldsFirst, item_count};
ghost use Rattle.std.specs.Map.{remove_entry};
ghost use Rattle.urpf_base.specs.Lists.{Has};
ghost use Rattle.rpf_plain.specs.Ahead.{InPrefixOrder};
ghost use Rattle.rpf_plain.specs.Kept.{all_rows, each_row, how_often};
ghost use Rattle.rpf_plain.specs.Rows.{AreSameRows, repeats};

use crate::row_keys::{LongRow, RowKey, ShortRow};
use crate::row_packing::row_key;
use crate::rows::Row;
use std::alloc::Global;
use std::collections::BTreeMap;
use std::collections::btree_map::Keys;
use std::marker::Model;
use urpf_base::OutOfMemory;

/// Rows with repeats. Contracts see each row once, with how often it is there beyond once.
#[derive(Drop)]
pub struct RowMap {
    short: BTreeMap<ShortRow, u32>,
    long: BTreeMap<LongRow, u32>,
}

impl Model for RowMap {
    ghost use Rattle.std.specs.Prelude.{ℕ, List};
    ghost use Rattle.std.specs.Coded.{coded_list, coded×, coded_ℕ};
    ghost use Rattle.rpf_plain.specs.declared.rows.Row.{Row};
    ghost use Rattle.rpf_plain.specs.Kept.{row_code};
    ghost use Rattle.rpf_plain.specs.RowKeys.{AreCounts, both_counts};

    ghost Value = { List (Row × ℕ) };

    ghost coded = { coded_list (coded× row_code coded_ℕ) };

    ghost view = { λ m. both_counts m.short.entries m.long.entries };

    ghost invariant = { λ m. AreCounts m.short.entries m.long.entries };
}

impl RowMap {
    /// No rows. It takes no memory.
    pub fn new(alloc: Global) -> RowMap
        ensures { result ≡ [] }
    {
        RowMap {
            short: BTreeMap::new(alloc),
            long: BTreeMap::new(alloc),
        }
    }

    /// Adds a row, which may be there already. A refusal changes nothing: it comes where memory is
    /// short for a row that is not there, or where the row is there 2^32 times.
    pub fn add(&mut self, row: Row) -> Result<(), OutOfMemory>
        requires { length (all_rows self.old) < 2 ^ 40 }
        ensures ok { OnOk result (AreSameRows (all_rows self.new) (row ∷ all_rows self.old)) }
        ensures err { OnErr result (self.new ≡ self.old) }
        ensures absent { OnErr result ((repeats (all_rows self.old) row ≡ 0)
            ⊎ (2 ^ 32 ≤ repeats (all_rows self.old) row)) }
    {
        match row_key(&row) {
            RowKey::Short(key) => add_once(&mut self.short, key),
            RowKey::Long(key) => add_once(&mut self.long, key),
        }
    }

    /// Takes a row away once. It takes no memory, since the row is there.
    pub fn take(&mut self, row: &Row)
        requires { Has (all_rows self.old) row.now }
        ensures { AreSameRows (all_rows self.old) (row.now ∷ all_rows self.new) }
    {
        match row_key(row) {
            RowKey::Short(key) => take_once(&mut self.short, &key),
            RowKey::Long(key) => take_once(&mut self.long, &key),
        }
    }

    /// The rows in their order, each once.
    pub fn rows(&self) -> Rows<'_>
        ensures list { result ≡ each_row self.now }
        ensures order { InPrefixOrder (each_row self.now) }
    {
        Rows {
            short: self.short.keys(),
            long: self.long.keys(),
        }
    }
}

/// Adds a row to those of its family. A refusal changes nothing: it comes only where the row is not
/// there, or is there 2^32 times.
fn add_once<K: Ord + Copy>(rows: &mut BTreeMap<K, u32>, row: K) -> Result<(), OutOfMemory>
    ensures ok { OnOk result (rows.new.entries
        ≡ insert_entry K.cmp rows.old.entries row (how_often (get K.cmp rows.old row))) }
    ensures ordered { OnOk result (IsOrdered K.cmp rows.new) }
    ensures err { OnErr result (rows.new.entries ≡ rows.old.entries) }
    ensures absent { OnErr result ((how_often (get K.cmp rows.old row) ≡ 0)
        ⊎ (2 ^ 32 ≤ how_often (get K.cmp rows.old row))) }
{
    let more = rows.get(&row).copied();
    if more == Some(u32::MAX) {
        return Err(OutOfMemory);
    }
    let Ok(_) = rows.insert(row, once_more(more)) else {
        return Err(OutOfMemory);
    };
    Ok(())
}

/// How often a row is there beyond once, once it is added to a map that has it so often.
fn once_more(more: Option<u32>) -> u32
    requires { how_often more < 2 ^ 32 }
    ensures { result ≡ how_often more }
{
    match more {
        Some(more) => more + 1,
        None => 0,
    }
}

/// Takes a row of those of its family away once, if it is there.
fn take_once<K: Ord + Copy>(rows: &mut BTreeMap<K, u32>, row: &K)
    ensures last { get K.cmp rows.old row.now ≡ Some 0
        → rows.new.entries ≡ remove_entry (is_at (K.cmp row.now)) rows.old.entries }
    ensures fewer { (n : ℕ) → get K.cmp rows.old row.now ≡ Some (n + 1)
        → rows.new.entries ≡ insert_entry K.cmp rows.old.entries row.now n }
    ensures ordered { IsOrdered K.cmp rows.new }
{
    let more = rows.get(row).copied().unwrap_or(0);
    if more == 0 {
        rows.remove(row);
        return;
    }
    let Ok(_) = rows.insert(*row, more - 1) else {
        unreachable!()
    };
}

/// The rows that are still to come.
#[derive(Drop)]
pub struct Rows<'a> {
    short: Keys<'a, ShortRow, u32>,
    long: Keys<'a, LongRow, u32>,
}

impl<'a> Model for Rows<'a> {
    ghost use Rattle.std.specs.Prelude.{List};
    ghost use Rattle.std.specs.Coded.{coded_list};
    ghost use Rattle.rpf_plain.specs.declared.rows.Row.{Row};
    ghost use Rattle.rpf_plain.specs.Kept.{row_code};
    ghost use Rattle.rpf_plain.specs.RowKeys.{both_rows};

    ghost Value = { List Row };

    ghost coded = { coded_list row_code };

    ghost view = { λ r. both_rows r.short r.long };
}

impl<'a> Iterator for Rows<'a> {
    type Item = Row;

    ghost next_gives = { YieldsFirst (λ s. s) };

    ghost remaining = { item_count (λ s. s) };

    fn next(&mut self) -> Option<Row> {
        if let Some(key) = self.short.next() {
            return Some(key.row());
        }
        let Some(key) = self.long.next() else {
            return None;
        };
        Some(key.row())
    }
}
