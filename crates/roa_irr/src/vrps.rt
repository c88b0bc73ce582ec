//! Reading a VRP table: the octets of a text in CSV come in, and its pairs go out.
//!
//! A record whose first field is an AS number and whose second is a prefix gives a pair. Each other
//! record is skipped and counted, and so a header is. Further fields are not looked at.
ghost use Rattle.std.specs.Prelude.{◌≡◌, ◌⊎◌, ◌^◌, ◌<◌, ◌≤◌, ℕ, List, length, true};
ghost use Rattle.std.specs.Prelude.{Ok, Err, Some, IfErr, IfOk, IfSome, OnOk};
ghost use Rattle.csv.specs.Reading.{ReadRecord, error_kind, stops_reader};
ghost use Rattle.csv.specs.Records.{fields_of};
ghost use Rattle.roa_irr.specs.Tables.{IsOnly, Table, pairs_max};
ghost use Rattle.roa_irr.specs.Vrps.{ComesTo, GivesPair, IsSetUp, IsVrpTable, OpensTooMany, known};
ghost use Rattle.ip_text.specs.Prefixes.{SpellsAsn, SpellsPrefix};
ghost use Rattle.urpf_base.specs.Address.{Block};

use crate::pairs::{Outcome, Pairs, PairsFault};
use csv::{ByteRecord, Error, Reader, ReaderBuilder};
use ip_text::{read_asn, read_prefix};
use std::alloc::Global;
use urpf_base::Prefix;

/// The pairs of a VRP table of fewer than 2^32 octets. TooMany where it has more than 4,000,000,
/// repeats counted.
pub fn read_vrps(alloc: Global, text: &[u8]) -> Result<Pairs, PairsFault>
    requires { length text.now < 2 ^ 32 }
    ensures found { IfOk result (IsVrpTable text.now) }
    ensures fits { IfOk result (λ table. length table.pairs ≤ pairs_max) }
    ensures only { (table : Table) → IsVrpTable text.now table → length table.pairs ≤ pairs_max
        → (result ≡ Ok table) ⊎ (result ≡ Err PairsFault.OutOfMemory) }
    ensures many { result ≡ Err PairsFault.TooMany → OpensTooMany text.now }
    ensures too_many { (table : Table) → IsVrpTable text.now table → pairs_max < length table.pairs
        → (result ≡ Err PairsFault.TooMany) ⊎ (result ≡ Err PairsFault.OutOfMemory) }
{
    let mut reader = ReaderBuilder::new()
        .has_headers(false)
        .flexible(true)
        .from_reader(alloc, text);
    let mut row = ByteRecord::new(alloc);
    let mut pairs = Pairs::new(alloc);
    'rows: while next_row(&mut reader, &mut row)? {
        pairs.add(outcome_of(&row))?;
    }
    Ok(pairs)
}

/// Whether there is one more record, which is then in `row`.
fn next_row(reader: &mut Reader<&[u8]>, row: &mut ByteRecord) -> Result<bool, PairsFault>
    requires { IsSetUp reader.old }
    ensures read { IfOk result (λ found.
        ReadRecord known reader.old reader.new found (fields_of row.new)) }
    ensures set_up { OnOk result (IsSetUp reader.new) }
    ensures err { IfErr result (λ fault. fault ≡ PairsFault.OutOfMemory) }
{
    match reader.read_byte_record(row) {
        Ok(found) => Ok(found),
        Err(error) => Err(as_memory(&error)),
    }
}

/// The want of memory that a failed read is handed on as. The octets are in memory, so nothing else
/// stops the reader, though no clause of `csv` says so; and no record is refused for its length or
/// for what it holds.
fn as_memory(_error: &Error) -> PairsFault
    requires { stops_reader (error_kind _error.now) ≡ true }
    ensures { result ≡ PairsFault.OutOfMemory }
{
    PairsFault::OutOfMemory
}

/// What a record comes to.
fn outcome_of(row: &ByteRecord) -> Outcome
    ensures { IsOnly ComesTo (fields_of row.now) result }
{
    match pair_of(row) {
        Some((prefix, origin)) => Outcome::Pair(prefix, origin),
        None => Outcome::Skipped,
    }
}

/// The pair of a record. None where it gives none.
fn pair_of(row: &ByteRecord) -> Option<(Prefix, u32)>
    ensures found { IfSome result (λ p. GivesPair (fields_of row.now) p.0 p.1) }
    ensures only { (prefix : Block) (origin : ℕ) → GivesPair (fields_of row.now) prefix origin
        → result ≡ Some (prefix, origin) }
{
    let Some(first) = row.get(0) else {
        return None;
    };
    let Some(second) = row.get(1) else {
        return None;
    };
    read_pair(first, second)
}

/// The pair that both texts spell. None where one of them does not.
fn read_pair(first: &[u8], second: &[u8]) -> Option<(Prefix, u32)>
    ensures found { IfSome result (λ p. SpellsAsn first.now p.1 × SpellsPrefix second.now p.0) }
    ensures only { (prefix : Block) (origin : ℕ) → SpellsAsn first.now origin
        → SpellsPrefix second.now prefix → result ≡ Some (prefix, origin) }
{
    let Some(origin) = read_asn(first) else {
        return None;
    };
    let Some(prefix) = read_prefix(second) else {
        return None;
    };
    Some((prefix, origin))
}
