//! The value of an attribute: its lines come in, and what it spells goes out.
//!
//! A value may go on in further lines, whose parts one space joins. What is read of values has no
//! blank within, so no copy is joined: where one part alone is not blank the value is that part,
//! and a value of two such parts spells nothing.
ghost use Rattle.std.specs.Prelude.{◌≡◌, ◌↔◌, ◌++◌, ◌≤◌, ℕ, IsTrue, List, ◌∷◌, length};
ghost use Rattle.std.specs.List.{join_with_byte};
ghost use Rattle.urpf_base.specs.Address.{width_of};
ghost use Rattle.ip_text.specs.Prefixes.{SpellsAsn};
ghost use Rattle.roa_irr.specs.Irr.{SpellsOfWidth};
ghost use Rattle.roa_irr.specs.Lines.{lines_of, trimmed};
ghost use Rattle.roa_irr.specs.Steps.{IsKnown, IsValue, ahead, behind_empty, width};

use crate::lines::{Line, first_line, kind_of, trimmed};
use ip_text::{read_asn, read_prefix};
use urpf_base::{Addr, Prefix};

/// What is known of a value of one part or more.
#[derive(Clone, Copy)]
pub enum Value<'a> {
    /// This text without blanks around it, which is empty where all parts are blank.
    One(&'a [u8]),
    /// A text with a space within.
    Parted,
}

/// The value that begins with this part, and the text behind what continues it.
pub(crate) fn read_value<'a>(part: &'a [u8], text: &'a [u8]) -> (Value<'a>, &'a [u8])
    ensures value { IsValue (join_with_byte 32 (part.now ∷ (ahead text.now).parts)) result.0 }
    ensures attributes { (ahead result.1.now).attributes ≡ (ahead text.now).attributes }
    ensures behind { behind_empty (lines_of result.1.now) ≡ behind_empty (lines_of text.now) }
    ensures shorter { length result.1.now ≤ length text.now }
{
    let mut value = Value::One(trimmed(part));
    let mut rest = text;
    'lines: while !rest.is_empty() {
        let (line, more) = first_line(rest);
        match kind_of(line) {
            Line::Passed => {}
            Line::Continued(part) => value = with_part(value, part),
            Line::Empty => return (value, rest),
            Line::Begins(_, _) => return (value, rest),
        }
        rest = more;
    }
    (value, rest)
}

/// The value with one more part behind it.
fn with_part<'a>(value: Value<'a>, part: &'a [u8]) -> Value<'a>
    ensures { (joined : List ℕ) → IsValue joined value.entry
        → IsValue (joined ++ (32 ∷ part.now)) result }
{
    let Value::One(text) = value else {
        return Value::Parted;
    };
    let part = trimmed(part);
    if part.is_empty() {
        return Value::One(text);
    }
    if text.is_empty() {
        return Value::One(part);
    }
    Value::Parted
}

/// The prefix of IPv6 or else of IPv4 that the value spells. None where it spells none.
pub(crate) fn prefix_of(value: Value<'_>, v6: bool) -> Option<Prefix>
    ensures { (joined : List ℕ) → IsValue joined value.entry
        → IsKnown (SpellsOfWidth (width v6) (trimmed joined)) result }
{
    let Value::One(text) = value else {
        return None;
    };
    let Some(prefix) = read_prefix(text) else {
        return None;
    };
    if !is_of(&prefix.addr(), v6) {
        return None;
    }
    Some(prefix)
}

/// Whether the address is of IPv6, or else of IPv4.
fn is_of(addr: &Addr, v6: bool) -> bool
    ensures { IsTrue result ↔ (width_of addr.now ≡ width v6) }
{
    match *addr {
        Addr::V4(_) => !v6,
        Addr::V6(_) => v6,
    }
}

/// The AS number that the value spells. None where it spells none.
pub(crate) fn asn_of(value: Value<'_>) -> Option<u32>
    ensures { (joined : List ℕ) → IsValue joined value.entry
        → IsKnown (SpellsAsn (trimmed joined)) result }
{
    match value {
        Value::One(text) => read_asn(text),
        Value::Parted => None,
    }
}
