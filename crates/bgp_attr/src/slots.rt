//! The values of the attributes that the router looks at, each by itself.
ghost use Rattle.std.specs.Prelude.{◌≡◌, ◌≤◌, length, option_copied, IfSome};
ghost use Rattle.bgp_attr.specs.Table.{code_of};
ghost use Rattle.bgp_attr.specs.Slots.{no_values, with_attribute, put};

use crate::attribute::AttributeView;
use crate::types::{AttributeType, code_of};
use std::marker::Model;

/// The values that came so far, none for a type that did not.
#[derive(Drop)]
pub struct Slots<'a> {
    pub origin: Option<&'a [u8]>,
    pub path: Option<&'a [u8]>,
    pub next_hop: Option<&'a [u8]>,
    pub aggregator: Option<&'a [u8]>,
    pub reach: Option<&'a [u8]>,
    pub unreach: Option<&'a [u8]>,
    pub as4: Option<&'a [u8]>,
    pub as4_aggregator: Option<&'a [u8]>,
}

impl<'a> Model for Slots<'a> {
    ghost use Rattle.std.specs.Prelude.{◌≤◌, length, option_copied, IfSome};
    ghost use Rattle.bgp_attr.specs.Slots.{Values, values};

    ghost Value = { Values };

    ghost view = { λ s. values (option_copied s.origin) (option_copied s.path)
        (option_copied s.next_hop) (option_copied s.aggregator) (option_copied s.reach)
        (option_copied s.unreach) (option_copied s.as4) (option_copied s.as4_aggregator) };

    ghost invariant = { λ s. IfSome s.path (λ value. length value.now ≤ 65535)
        × IfSome s.as4 (λ value. length value.now ≤ 65535) };
}

impl<'a> Slots<'a> {
    /// No value.
    pub fn new() -> Slots<'a>
        ensures { result ≡ no_values }
    {
        Slots {
            origin: None,
            path: None,
            next_hop: None,
            aggregator: None,
            reach: None,
            unreach: None,
            as4: None,
            as4_aggregator: None,
        }
    }

    /// The values with that of one more attribute.
    pub fn with(self, attribute: &AttributeView<'a>) -> Slots<'a>
        ensures { result ≡ with_attribute attribute.now self.entry }
    {
        Slots {
            origin: put(self.origin, AttributeType::Origin, attribute),
            path: put(self.path, AttributeType::AsPath, attribute),
            next_hop: put(self.next_hop, AttributeType::NextHop, attribute),
            aggregator: put(self.aggregator, AttributeType::Aggregator, attribute),
            reach: put(self.reach, AttributeType::MpReachNlri, attribute),
            unreach: put(self.unreach, AttributeType::MpUnreachNlri, attribute),
            as4: put(self.as4, AttributeType::As4Path, attribute),
            as4_aggregator: put(self.as4_aggregator, AttributeType::As4Aggregator, attribute),
        }
    }
}

/// The value of the attribute where it is of this type, and else what was there.
fn put<'a>(
    old: Option<&'a [u8]>,
    attribute_type: AttributeType,
    attribute: &AttributeView<'a>,
) -> Option<&'a [u8]>
    ensures value { option_copied result
        ≡ put (code_of attribute_type) attribute.now (option_copied old.entry) }
    ensures short { IfSome old.entry (λ value. length value.now ≤ 65535)
        → IfSome result (λ value. length value.now ≤ 65535) }
{
    if attribute.code == code_of(attribute_type) {
        return Some(attribute.value);
    }
    old
}
