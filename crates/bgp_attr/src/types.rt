//! The types of attributes that have a row in the table, by their codes.
ghost use Rattle.std.specs.Prelude.{◌≡◌};
ghost use Rattle.bgp_attr.specs.Table.{code_of, type_from};

/// The attributes that this router looks at, with their codes (RFC 4271, section 5; RFC 4760,
/// sections 3 and 4; RFC 6793, section 3).
#[derive(Clone, Copy, Debug, PartialEq, Eq)]
pub enum AttributeType {
    Origin = 1,
    AsPath = 2,
    NextHop = 3,
    MultiExitDisc = 4,
    LocalPref = 5,
    AtomicAggregate = 6,
    Aggregator = 7,
    MpReachNlri = 14,
    MpUnreachNlri = 15,
    As4Path = 17,
    As4Aggregator = 18,
}

/// The type of the code. None where the table has no row for it.
pub fn type_from(code: u8) -> Option<AttributeType>
    ensures { result ≡ type_from code }
{
    match code {
        1 => Some(AttributeType::Origin),
        2 => Some(AttributeType::AsPath),
        3 => Some(AttributeType::NextHop),
        4 => Some(AttributeType::MultiExitDisc),
        5 => Some(AttributeType::LocalPref),
        6 => Some(AttributeType::AtomicAggregate),
        7 => Some(AttributeType::Aggregator),
        14 => Some(AttributeType::MpReachNlri),
        15 => Some(AttributeType::MpUnreachNlri),
        17 => Some(AttributeType::As4Path),
        18 => Some(AttributeType::As4Aggregator),
        _ => None,
    }
}

/// The code of the type.
pub fn code_of(attribute_type: AttributeType) -> u8
    ensures { result ≡ code_of attribute_type }
{
    attribute_type as u8
}
