//! The table of attributes (RFC 4271, sections 5 and 6.3; RFC 4760, sections 3 and 4; RFC 6793,
//! section 3): the flags and the length that each type asks for, and the subcode of a wrong value.
//! Which values a type may have is left to the values.
ghost use Rattle.std.specs.Prelude.{◌≡◌, ◌↔◌, ◌+◌, Bool, true, false, IsTrue};
ghost use Rattle.as_path.specs.declared.widths.Width.{Width};
ghost use Rattle.as_path.specs.Path.{octets_per};
ghost use Rattle.bgp_attr.specs.Faults.{HasFlags, HasLength};
ghost use Rattle.bgp_attr.specs.Table.{row};

use crate::attribute::{OPTIONAL, TRANSITIVE, has_flag};
use crate::subcodes::{
    INVALID_NEXT_HOP, INVALID_ORIGIN, MALFORMED_AS_PATH, OPTIONAL_ATTRIBUTE_ERROR,
};
use crate::types::AttributeType;
use as_path::Width;

/// What a type asks of flags and length.
#[derive(Clone, Copy)]
pub struct Row {
    pub optional: bool,
    pub transitive: bool,
    /// How long the value is. None where the type leaves it open.
    pub size: Option<usize>,
    /// The subcode of a value that the type may not have, and 0 where it takes any.
    pub wrong: u8,
}

/// The row of the type, for AS numbers of this width.
pub fn row_of(attribute_type: AttributeType, width: Width) -> Row
    ensures optional { (w : Width) (v6 : Bool)
        → result.optional ≡ (row w v6 attribute_type).optional }
    ensures transitive { (w : Width) (v6 : Bool)
        → result.transitive ≡ (row w v6 attribute_type).transitive }
    ensures size { (v6 : Bool) → result.size ≡ (row width v6 attribute_type).size }
    ensures wrong { (w : Width) (v6 : Bool) → result.wrong ≡ (row w v6 attribute_type).wrong }
{
    match attribute_type {
        AttributeType::Origin => well_known(Some(1), INVALID_ORIGIN),
        AttributeType::AsPath => well_known(None, MALFORMED_AS_PATH),
        AttributeType::NextHop => well_known(Some(4), INVALID_NEXT_HOP),
        AttributeType::MultiExitDisc => non_transitive(Some(4), 0),
        AttributeType::LocalPref => well_known(Some(4), 0),
        AttributeType::AtomicAggregate => well_known(Some(0), 0),
        AttributeType::Aggregator => transitive(Some(aggregator_length(width)), 0),
        AttributeType::MpReachNlri => non_transitive(None, OPTIONAL_ATTRIBUTE_ERROR),
        AttributeType::MpUnreachNlri => non_transitive(None, OPTIONAL_ATTRIBUTE_ERROR),
        AttributeType::As4Path => transitive(None, 0),
        AttributeType::As4Aggregator => transitive(None, 0),
    }
}

/// A well-known attribute: transitive and not optional (RFC 4271, section 4.3).
fn well_known(size: Option<usize>, wrong: u8) -> Row
    ensures { result ≡ record { optional = false; transitive = true; size = size; wrong = wrong } }
{
    Row {
        optional: false,
        transitive: true,
        size,
        wrong,
    }
}

/// An optional transitive attribute.
fn transitive(size: Option<usize>, wrong: u8) -> Row
    ensures { result ≡ record { optional = true; transitive = true; size = size; wrong = wrong } }
{
    Row {
        optional: true,
        transitive: true,
        size,
        wrong,
    }
}

/// An optional attribute that is not handed on by a router that does not know it.
fn non_transitive(size: Option<usize>, wrong: u8) -> Row
    ensures { result ≡ record { optional = true; transitive = false; size = size; wrong = wrong } }
{
    Row {
        optional: true,
        transitive: false,
        size,
        wrong,
    }
}

/// An AS number and an address (RFC 4271, section 4.3, g).
fn aggregator_length(width: Width) -> usize
    ensures { result ≡ octets_per width + 4 }
{
    match width {
        Width::Two => 6,
        Width::Four => 8,
    }
}

/// Whether the flags are those of the type. Only the optional and the transitive flag count.
pub fn has_flags(attribute_type: AttributeType, flags: u8) -> bool
    ensures { (width : Width) (v6 : Bool)
        → (IsTrue result ↔ HasFlags flags (row width v6 attribute_type)) }
{
    let row = row_of(attribute_type, Width::Two);
    if has_flag(OPTIONAL, flags) != row.optional {
        return false;
    }
    has_flag(TRANSITIVE, flags) == row.transitive
}

/// Whether a value is as long as the type asks, where AS numbers have this width.
pub fn has_length(attribute_type: AttributeType, width: Width, value: &[u8]) -> bool
    ensures { (v6 : Bool) → (IsTrue result ↔ HasLength value.now (row width v6 attribute_type)) }
{
    let Some(size) = row_of(attribute_type, width).size else {
        return true;
    };
    value.len() == size
}
