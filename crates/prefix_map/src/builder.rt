//! A map that is made at once, of pairs that come one after another.
ghost use Rattle.std.specs.Prelude.{◌≡◌, ◌<◌, ◌+◌, ◌^◌, ◌++◌, ◌∷◌, [], IfOk, OnOk, OnErr};
ghost use Rattle.std.specs.BTreeMap.{IsFromIterResult};
ghost use Rattle.std.specs.FinMap as map;
ghost use Rattle.std.specs.Vec.{vec_len};

use crate::families::{Key, key_of};
use crate::keys::{LongKey, ShortKey};
use crate::map::{PAIRS_MOST, PrefixMap};
use std::alloc::Global;
use std::collections::BTreeMap;
use std::marker::Model;
use urpf_base::{OutOfMemory, Prefix};

/// Pairs that become a map. Contracts see that map: of pairs with one prefix the last one counts. Where
/// they come in the order of their prefixes this takes less time and memory than to set one after
/// another.
#[derive(Drop)]
pub struct PrefixMapBuilder<V: Copy> {
    short: Vec<(ShortKey, V)>,
    long: Vec<(LongKey, V)>,
}

impl<V: Copy> Model for PrefixMapBuilder<V> {
    ghost use Rattle.std.specs.Prelude.{◌+◌, ◌<◌, ◌^◌, length};
    ghost use Rattle.prefix_map.specs.Built.{built};
    ghost use Rattle.prefix_map.specs.Kept.{map_code};
    ghost use Rattle.prefix_map.specs.Mapped.{Mapped};

    ghost Value = { Mapped V };

    ghost coded = { map_code V.code };

    ghost view = { λ b. built b.short.items b.long.items };

    ghost invariant = { λ b. length b.short.items + length b.long.items < 2 ^ 63 };
}

impl<V: Copy> PrefixMapBuilder<V> {
    /// No pairs. It takes no memory.
    pub fn new(alloc: Global) -> PrefixMapBuilder<V>
        ensures { result ≡ map.empty }
    {
        PrefixMapBuilder {
            short: Vec::new(alloc),
            long: Vec::new(alloc),
        }
    }

    /// Gives the prefix this value. A refusal changes nothing.
    pub fn set(&mut self, prefix: &Prefix, value: V) -> Result<(), OutOfMemory>
        ensures ok { OnOk result (self.new ≡ map.insert self.old prefix.now value) }
        ensures err { OnErr result (self.new ≡ self.old) }
    {
        match key_of(prefix) {
            Key::Short(key) => push_within(&mut self.short, key, value, self.long.len()),
            Key::Long(key) => push_within(&mut self.long, key, value, self.short.len()),
        }
    }

    /// The map.
    pub fn finish(self, alloc: Global) -> Result<PrefixMap<V>, OutOfMemory>
        ensures { IfOk result (λ made. made ≡ self) }
    {
        let PrefixMapBuilder { short, long } = self;
        let short = map_of(alloc, short)?;
        let long = map_of(alloc, long)?;
        Ok(PrefixMap { short, long })
    }
}

/// Appends a pair to one of two lists, the other of which has so many. A refusal changes nothing.
fn push_within<K: Copy, V: Copy>(
    pairs: &mut Vec<(K, V)>,
    key: K,
    value: V,
    others: usize,
) -> Result<(), OutOfMemory>
    requires { vec_len pairs.old + others < 2 ^ 63 }
    ensures ok { OnOk result (pairs.new.items ≡ pairs.old.items ++ (key, value) ∷ []) }
    ensures err { OnErr result (pairs.new.items ≡ pairs.old.items) }
    ensures count { vec_len pairs.new + others < 2 ^ 63 }
{
    if pairs.len() + others == PAIRS_MOST {
        return Err(OutOfMemory);
    }
    let Ok(()) = pairs.push((key, value)) else {
        return Err(OutOfMemory);
    };
    Ok(())
}

/// The map of one family.
fn map_of<K: Ord + Copy, V: Copy>(
    alloc: Global,
    pairs: Vec<(K, V)>,
) -> Result<BTreeMap<K, V>, OutOfMemory>
    ensures { IfOk result (IsFromIterResult K.cmp pairs.items) }
{
    let Ok(made) = pairs.into_iter().collect(alloc) else {
        return Err(OutOfMemory);
    };
    Ok(made)
}
