//! One object of a text: its lines come in, and what it comes to goes out.
//!
//! The class is the first attribute's name. Of a class that gives pairs the first value and the
//! value of the first `origin` are kept, already read; all other values are passed over.
ghost use Rattle.std.specs.Prelude.{◌≡◌, ◌<◌, ◌++◌, [], ◌∷◌, List, ℕ, IfSome, length, option_map};
ghost use Rattle.std.specs.List.{join_with_byte};
ghost use Rattle.roa_irr.specs.Irr.{AttributesComeTo, ObjectComesTo};
ghost use Rattle.roa_irr.specs.Lines.{lines_of};
ghost use Rattle.roa_irr.specs.Objects.{Attribute, is_named};
ghost use Rattle.roa_irr.specs.Steps.{IsValue, Sees, before_empty, behind_empty, outcome_from};
ghost use Rattle.roa_irr.specs.Tables.{IsOnly};

use crate::lines::{Line, first_line, kind_of};
use crate::pairs::Outcome;
use crate::values::{Value, asn_of, prefix_of, read_value};
use urpf_base::Prefix;

/// What the attributes of an object so far come to.
#[derive(Clone, Copy)]
pub enum Object {
    /// None was read.
    New,
    /// The class gives no pairs.
    Other,
    /// The class gives pairs: the prefix of the first value, if it spells one of the class.
    Route(Option<Prefix>),
    /// The same, and the AS number of the first origin, if it spells one.
    Held(Option<Prefix>, Option<u32>),
}

/// What the first object comes to, and the text behind the empty line that ends it. None where the
/// text ends with it.
pub(crate) fn read_object(text: &[u8]) -> (Outcome, Option<&[u8]>)
    ensures outcome { IsOnly ObjectComesTo (before_empty (lines_of text.now)) result.0 }
    ensures rest { option_map (λ r. lines_of r.now) result.1 ≡ behind_empty (lines_of text.now) }
    ensures shorter { IfSome result.1 (λ r. length r.now < length text.now) }
{
    let mut object = Object::New;
    let mut rest = text;
    'lines: while !rest.is_empty() {
        let (line, more) = first_line(rest);
        match kind_of(line) {
            Line::Empty => return (outcome_of(object), Some(more)),
            Line::Passed => rest = more,
            Line::Continued(_) => rest = more,
            Line::Begins(name, part) => {
                let (value, behind) = read_value(part, more);
                object = with_attribute(object, name, value);
                rest = behind;
            }
        }
    }
    (outcome_of(object), None)
}

/// The object with one more attribute.
fn with_attribute(object: Object, name: &[u8], value: Value<'_>) -> Object
    ensures { (attributes : List Attribute) (parts : List (List ℕ)) → Sees attributes object
        → IsValue (join_with_byte 32 parts) value.entry
        → Sees (attributes ++ record { name = name.now; parts = parts } ∷ []) result }
{
    match object {
        Object::New => begun(name, value),
        Object::Other => Object::Other,
        Object::Route(prefix) => {
            if is_named(name, b"origin") {
                return Object::Held(prefix, asn_of(value));
            }
            Object::Route(prefix)
        }
        Object::Held(prefix, origin) => Object::Held(prefix, origin),
    }
}

/// The object that begins with this attribute.
fn begun(name: &[u8], value: Value<'_>) -> Object
    ensures { (parts : List (List ℕ)) → IsValue (join_with_byte 32 parts) value.entry
        → Sees (record { name = name.now; parts = parts } ∷ []) result }
{
    if is_named(name, b"route") {
        return Object::Route(prefix_of(value, false));
    }
    if is_named(name, b"route6") {
        return Object::Route(prefix_of(value, true));
    }
    Object::Other
}

/// Whether the name is the one that is wanted, in letters of either case.
fn is_named(name: &[u8], wanted: &[u8]) -> bool
    ensures { result ≡ is_named wanted.now name.now }
{
    name.eq_ignore_ascii_case(wanted)
}

/// What an object with these attributes comes to.
fn outcome_of(object: Object) -> Outcome
    ensures { (attributes : List Attribute) → Sees attributes object
        → IsOnly AttributesComeTo attributes result }
{
    match object {
        Object::New => Outcome::Ignored,
        Object::Other => Outcome::Ignored,
        Object::Route(_) => Outcome::Skipped,
        Object::Held(prefix, origin) => outcome_from(prefix, origin),
    }
}

/// The pair of a prefix and an origin, where both are there.
fn outcome_from(prefix: Option<Prefix>, origin: Option<u32>) -> Outcome
    ensures { result ≡ outcome_from prefix origin }
{
    let Some(prefix) = prefix else {
        return Outcome::Skipped;
    };
    let Some(origin) = origin else {
        return Outcome::Skipped;
    };
    Outcome::Pair(prefix, origin)
}
