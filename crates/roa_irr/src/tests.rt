//! What no clause says: texts made by hand and the first lines of what tools print, with what
//! follows of them, read with ample memory. No error of `csv` comes of any.
mod objects;
mod tables;

use crate::{Pairs, PairsFault};
use urpf_base::{Addr, Prefix};

/// How many pairs a table has, and how many records or objects gave none. None where it is not
/// read.
fn counts(table: Result<Pairs, PairsFault>) -> Option<(usize, u64)> {
    match table {
        Ok(pairs) => Some((pairs.len(), pairs.skipped())),
        Err(_) => None,
    }
}

/// Whether pair `k` is this prefix with this origin.
fn is_pair(pairs: &Pairs, k: usize, addr: Addr, len: u8, origin: u32) -> bool {
    if k >= pairs.len() {
        return false;
    }
    let (prefix, number) = pairs.pair(k);
    Some(prefix) == Prefix::new(addr, len) && number == origin
}
