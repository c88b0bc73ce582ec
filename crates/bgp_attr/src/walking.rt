//! The walk over a field of attributes, up to its end or its first fault: the field comes in, and
//! what its attributes tell goes out, or the subcode of that fault (RFC 4271, section 6.3).
ghost use Rattle.std.specs.Prelude.{◌≡◌, ℕ, List, IfOk, IfErr, IsOkAnd, IsErrAnd};
ghost use Rattle.bgp_attr.specs.Attribute.{Attribute};
ghost use Rattle.bgp_attr.specs.Faults.{AreAttributes, IsFirstFault};
ghost use Rattle.bgp_attr.specs.Slots.{values_of};
ghost use Rattle.bgp_attr.specs.Told.{Tells, IsRead};
ghost use Rattle.bgp_nlri.specs.Nlri.{SpellsPrefixes};
ghost use Rattle.bgp_nlri.specs.declared.family.Family.TheVariants as family;
ghost use Rattle.urpf_base.specs.Address.{Block};

use crate::attribute::first;
use crate::attrs::{AttrFault, Attrs, attrs_from};
use crate::demands::fault_of;
use crate::slots::Slots;
use crate::subcodes::MALFORMED_ATTRIBUTE_LIST;
use as_path::Width;

/// What the attributes of the field tell, or the first fault of the field: the attributes are
/// judged in their order, and each by whether it is whole, its type is new, its type is known or
/// may be passed over, then by its flags, its length and its value.
///
/// `width` is that of AS numbers in AS_PATH and AGGREGATOR. `v6` says whether the peer listed IPv6
/// unicast; from another the multiprotocol attributes are passed over.
pub fn walk(field: &[u8], width: Width, v6: bool) -> Result<Attrs<'_>, AttrFault>
    // What is read are attributes as the table asks, and such attributes are read.
    ensures found { IfOk result (IsRead width v6 field.now) }
    ensures only { (attributes : List Attribute) → AreAttributes width v6 field.now attributes
        → IsOkAnd result (Tells width v6 attributes) }

    // The fault is the first of the field, and the first fault is answered.
    ensures fault { IfErr result (λ fault. IsFirstFault width v6 field.now fault.sub) }
    ensures only_fault { (sub : ℕ) → IsFirstFault width v6 field.now sub
        → IsErrAnd result (λ fault. fault.sub ≡ sub) }

    // The fields of IPv6 prefixes are well formed.
    ensures reach { IfOk result (λ attrs. (prefixes : List Block)
        × SpellsPrefixes family.V6 attrs.reach.now prefixes) }
    ensures unreach { IfOk result (λ attrs. (prefixes : List Block)
        × SpellsPrefixes family.V6 attrs.unreach.now prefixes) }
{
    match read(field, width, v6) {
        Ok(slots) => Ok(attrs_from(slots, width, v6)),
        Err(fault) => Err(fault),
    }
}

/// The values of the attributes, each by its type, or the first fault of the field.
fn read(field: &[u8], width: Width, v6: bool) -> Result<Slots<'_>, AttrFault>
    ensures good { IfOk result (λ slots. (attributes : List Attribute)
        × AreAttributes width v6 field.now attributes × (slots ≡ values_of attributes)) }
    ensures fault { IfErr result (λ fault. IsFirstFault width v6 field.now fault.sub) }
{
    let mut slots = Slots::new();
    let mut seen = [false; 256];
    let mut rest = field;
    while !rest.is_empty() {
        let Some((attribute, more)) = first(rest) else {
            return Err(AttrFault {
                sub: MALFORMED_ATTRIBUTE_LIST,
            });
        };
        let place = attribute.code as usize;
        if let Some(sub) = fault_of(&attribute, seen[place], width, v6) {
            return Err(AttrFault { sub });
        }
        seen[place] = true;
        slots = slots.with(&attribute);
        rest = more;
    }
    Ok(slots)
}
