//! A TOML document: a table and a key come in, and what stands there goes out.
ghost use Rattle.std.specs.Prelude.{◌≡◌, ◌≤◌, ◌^◌, ◌<◌, IfSome, Some, map, option_map, string_bytes};
ghost use Rattle.std.specs.BTreeMap.{keys};
ghost use Rattle.std.specs.List.{list_all};
ghost use Rattle.toml.specs.View.{view};
ghost use Rattle.toml.specs.Data.{get};
ghost use Rattle.router_config.specs.Documents.{as_number, as_tables, has_only, is_one_of, is_table, keys_at};
ghost use Rattle.router_config.specs.Documents.{number_at, tables_at, text_at};

use toml::{Table, Value};

/// The places of a document whose keys are known.
#[derive(Clone, Copy)]
pub(crate) enum Place {
    /// The whole document.
    Top,
    /// An interface.
    Interface,
    /// A session.
    Session,
}

/// Whether the table has no key but those of its place.
pub(crate) fn has_known_keys(place: Place, table: &Value) -> bool
    ensures { result ≡ has_only (keys_at place) (view table.now) }
{
    let Value::Table(table) = table else {
        return true;
    };
    are_known(place, table)
}

fn are_known(place: Place, table: &Table) -> bool
    ensures { result ≡ list_all (λ key. is_one_of (keys_at place) (string_bytes key)) (keys table.now) }
{
    table.keys().all(|key| is_known(place, key.as_str()))
}

fn is_known(place: Place, key: &str) -> bool
    ensures { result ≡ is_one_of (keys_at place) key.now }
{
    match place {
        Place::Top => key == "interface" || key == "session",
        Place::Interface => key == "number" || key == "role" || key == "mode",
        Place::Session => {
            key == "interface" || key == "peer_as" || key == "hold" || key == "max_prefixes"
        }
    }
}

/// The tables at a key. None where the key is missing, or holds no array of tables.
pub(crate) fn tables_at<'a>(place: &'a Value, key: &str) -> Option<&'a [Value]>
    ensures { option_map (λ tables. map view tables.now) result ≡ tables_at key.now (view place.now) }
{
    match place.get(key) {
        Some(value) => as_tables(value),
        None => None,
    }
}

pub(crate) fn as_tables(value: &Value) -> Option<&[Value]>
    ensures { option_map (λ tables. map view tables.now) result ≡ as_tables (view value.now) }
{
    let Value::Array(array) = value else {
        return None;
    };
    if !are_tables(array) {
        return None;
    }
    Some(array)
}

fn are_tables(values: &[Value]) -> bool
    ensures { result ≡ list_all (λ value. is_table (view value)) values.now }
{
    values.iter().all(|value| value.is_table())
}

/// The whole number at a key. None where the key is missing, or holds no whole number from `low` to
/// `high`.
pub(crate) fn number_at(place: &Value, key: &str, low: u32, high: u32) -> Option<u32>
    ensures value { result ≡ number_at key.now low high (view place.now) }
    ensures within { IfSome result (λ number. (low ≤ number) × (number ≤ high)) }
{
    match place.get(key) {
        Some(value) => as_number(value, low, high),
        None => None,
    }
}

pub(crate) fn as_number(value: &Value, low: u32, high: u32) -> Option<u32>
    ensures value { result ≡ as_number low high (view value.now) }
    ensures within { IfSome result (λ number. (low ≤ number) × (number ≤ high)) }
{
    let Value::Integer(number) = value else {
        return None;
    };
    if *number < low as i64 || *number > high as i64 {
        return None;
    }
    Some(*number as u32)
}

/// The text at a key. None where the key is missing, or holds no text.
pub(crate) fn text_at<'a>(place: &'a Value, key: &str) -> Option<&'a str>
    ensures { option_map (λ text. text.now) result ≡ text_at key.now (view place.now) }
{
    match place.get(key) {
        Some(value) => value.as_str(),
        None => None,
    }
}
