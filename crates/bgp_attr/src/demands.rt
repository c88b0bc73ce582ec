//! What is asked of an attribute, and the first of it that an attribute does not meet.
ghost use Rattle.std.specs.Prelude.{◌≡◌, ◌↔◌, false, IsTrue, List, [], IfNone, IfSome};
ghost use Rattle.urpf_base.specs.Lists.{Has};
ghost use Rattle.bgp_attr.specs.Attribute.{Attribute, codes};
ghost use Rattle.bgp_attr.specs.Faults.{IsProper, Meets, FailsWith, FirstUnmet, own_order, subcode};
ghost use Rattle.bgp_attr.specs.Table.{value_subcode};

use crate::attribute::{AttributeView, OPTIONAL, has_flag};
use crate::subcodes::{
    ATTRIBUTE_FLAGS_ERROR, ATTRIBUTE_LENGTH_ERROR, MALFORMED_ATTRIBUTE_LIST,
    UNRECOGNIZED_WELL_KNOWN_ATTRIBUTE,
};
use crate::table::{has_flags, has_length, row_of};
use crate::types::type_from;
use crate::values::has_value;
use as_path::Width;

/// What is asked of an attribute.
#[derive(Clone, Copy, Debug, PartialEq, Eq)]
pub enum Demand {
    /// Its type did not come before.
    New,
    /// Its type has a row in the table, or it may be passed over.
    Known,
    /// Its flags are those of the type.
    Flags,
    /// Its value is as long as the type asks.
    Length,
    /// Its value is one that the type may have.
    Value,
}

/// The subcode of the first demand that the attribute does not meet. None where it meets all.
pub fn fault_of(attribute: &AttributeView, is_repeated: bool, width: Width, v6: bool) -> Option<u8>
    ensures new { IfNone result (is_repeated ≡ false) }
    ensures proper { IfNone result (IsProper width v6 attribute.now) }
    ensures fault { (before : List Attribute)
        → (IsTrue is_repeated ↔ Has (codes before) attribute.now.code)
        → IfSome result (FailsWith width v6 before attribute.now) }
{
    if is_repeated {
        return Some(subcode(Demand::New, attribute.code));
    }
    let Some(demand) = first_unmet(attribute, width, v6) else {
        return None;
    };
    Some(subcode(demand, attribute.code))
}

/// The first demand of the table that the attribute does not meet. None where it meets all.
fn first_unmet(attribute: &AttributeView, width: Width, v6: bool) -> Option<Demand>
    ensures proper { IfNone result (IsProper width v6 attribute.now) }
    ensures unmet { IfSome result (FirstUnmet (Meets width v6 [] attribute.now) own_order) }
{
    let Some(attribute_type) = type_from(attribute.code) else {
        if has_flag(OPTIONAL, attribute.flags) {
            return None;
        }
        return Some(Demand::Known);
    };
    if !has_flags(attribute_type, attribute.flags) {
        return Some(Demand::Flags);
    }
    if !has_length(attribute_type, width, attribute.value) {
        return Some(Demand::Length);
    }
    if !has_value(attribute_type, width, v6, attribute.value) {
        return Some(Demand::Value);
    }
    None
}

/// The subcode of an attribute with this code that does not meet the demand.
fn subcode(demand: Demand, code: u8) -> u8
    ensures { result ≡ subcode code demand }
{
    match demand {
        Demand::New => MALFORMED_ATTRIBUTE_LIST,
        Demand::Known => UNRECOGNIZED_WELL_KNOWN_ATTRIBUTE,
        Demand::Flags => ATTRIBUTE_FLAGS_ERROR,
        Demand::Length => ATTRIBUTE_LENGTH_ERROR,
        Demand::Value => value_subcode(code),
    }
}

/// The subcode of a value that is not one of the type's, and 0 where the type takes any.
fn value_subcode(code: u8) -> u8
    ensures { result ≡ value_subcode code }
{
    let Some(attribute_type) = type_from(code) else {
        return 0;
    };
    row_of(attribute_type, Width::Two).wrong
}
