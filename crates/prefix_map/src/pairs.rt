//! The walk over the pairs of a map, in the order of their prefixes.
ghost use Rattle.std.specs.Prelude.{◌≡◌, option_copied};
ghost use Rattle.std.specs.BTreeMap.Range.{is_from_start};
ghost use Rattle.std.specs.Iterator.{YieldsFirst, item_count};
ghost use Rattle.urpf_base.specs.Order.{prefix_order};
ghost use Rattle.prefix_map.specs.Keys.{short_block, long_block};
ghost use Rattle.prefix_map.specs.Kept.{joined};
ghost use Rattle.prefix_map.specs.Order.{is_after};

use crate::families::{Key, key_of};
use crate::keys::{LongKey, ShortKey};
use std::collections::btree_map::Range;
use std::marker::Model;
use std::ops::Bound;
use urpf_base::Prefix;

/// The pairs that are still to come.
#[derive(Drop)]
pub struct Pairs<'a, V: Copy> {
    short: Range<'a, ShortKey, V>,
    long: Range<'a, LongKey, V>,
}

impl<'a, V: Copy> Model for Pairs<'a, V> {
    ghost use Rattle.std.specs.Prelude.{List};
    ghost use Rattle.std.specs.Coded.{coded_list, coded×};
    ghost use Rattle.urpf_base.specs.Address.{Block};
    ghost use Rattle.prefix_map.specs.Keys.{short_block, long_block};
    ghost use Rattle.prefix_map.specs.Kept.{block_code, joined};

    ghost Value = { List (Block × V) };

    ghost coded = { coded_list (coded× block_code V.code) };

    ghost view = { λ p. joined short_block long_block p.short p.long };
}

impl<'a, V: Copy> Pairs<'a, V> {
    /// The pairs of both families, IPv4 first.
    pub(crate) fn over(short: Range<'a, ShortKey, V>, long: Range<'a, LongKey, V>) -> Pairs<'a, V>
        ensures { result ≡ joined short_block long_block short.entry long.entry }
    {
        Pairs { short, long }
    }
}

impl<'a, V: Copy> Iterator for Pairs<'a, V> {
    type Item = (Prefix, V);

    ghost next_gives = { YieldsFirst (λ s. s) };

    ghost remaining = { item_count (λ s. s) };

    fn next(&mut self) -> Option<(Prefix, V)> {
        if let Some((key, value)) = self.short.next() {
            return Some((key.prefix(), *value));
        }
        let Some((key, value)) = self.long.next() else {
            return None;
        };
        Some((key.prefix(), *value))
    }
}

/// Where the keys of IPv4 after the prefix start, or all of them where none is given.
pub(crate) fn short_start(prefix: Option<&Prefix>) -> Bound<ShortKey>
    ensures { (k : ShortKey) → is_from_start (λ x y. prefix_order (short_block x) (short_block y)) result k
        ≡ is_after (option_copied prefix.entry) (short_block k) }
{
    let Some(prefix) = prefix else {
        return Bound::Unbounded;
    };
    match key_of(prefix) {
        Key::Short(key) => Bound::Excluded(key),
        Key::Long(_) => Bound::Excluded(ShortKey::last()),
    }
}

/// Where the keys of IPv6 after the prefix start, or all of them where none is given.
pub(crate) fn long_start(prefix: Option<&Prefix>) -> Bound<LongKey>
    ensures { (k : LongKey) → is_from_start (λ x y. prefix_order (long_block x) (long_block y)) result k
        ≡ is_after (option_copied prefix.entry) (long_block k) }
{
    let Some(prefix) = prefix else {
        return Bound::Unbounded;
    };
    match key_of(prefix) {
        Key::Short(_) => Bound::Unbounded,
        Key::Long(key) => Bound::Excluded(key),
    }
}
