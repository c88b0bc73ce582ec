//! Reading an UPDATE: its body comes in, and what it withdraws and announces goes out (RFC 4271,
//! section 4.3), or its first fault (section 6.3).
ghost use Rattle.std.specs.Prelude.{◌≡◌, ◌≤◌, ℕ, length, IfOk, IfErr, Ok, Err};
ghost use Rattle.urpf_base.specs.RouteUpdates.{RouteUpdate};
ghost use Rattle.bgp_update.specs.Faults.{IsFaultOf};
ghost use Rattle.bgp_update.specs.Update.{IsUpdate};

use crate::layout::read_fields;
use crate::routes::has_mandatory;
use crate::subcodes::{
    INVALID_NETWORK_FIELD, MALFORMED_ATTRIBUTE_LIST, MISSING_WELL_KNOWN_ATTRIBUTE,
};
use crate::view::UpdateView;
use as_path::Width;
use bgp_attr::walk;
use bgp_nlri::{Family, check};

/// The first fault of an UPDATE.
#[derive(Clone, Copy, Debug, PartialEq, Eq)]
pub struct UpdateFault {
    /// The subcode, under the code 3 (RFC 4271, section 6.3).
    pub sub: u8,
}

/// What the body withdraws and announces, or its first fault: the lengths of the fields count
/// first, then the withdrawn prefixes, the attributes in their order, whether one is missing, and
/// the prefixes of the NLRI. After a fault nothing of the body counts.
///
/// `width` is that of AS numbers in AS_PATH and AGGREGATOR. `v6` says whether the peer listed IPv6
/// unicast; from another the IPv6 prefixes are passed over.
pub fn read_update(body: &[u8], width: Width, v6: bool) -> Result<UpdateView<'_>, UpdateFault>
    requires { 4 ≤ length body.now }

    // What is read is an UPDATE without a fault, and each such UPDATE is read as that.
    ensures found { IfOk result (IsUpdate width v6 body.now) }
    ensures only { (update : RouteUpdate) → IsUpdate width v6 body.now update
        → result ≡ Ok update }

    // The fault is the first of the body, and the first fault is answered.
    ensures fault { IfErr result (λ fault. IsFaultOf width v6 body.now fault.sub) }
    ensures only_fault { (sub : ℕ) → IsFaultOf width v6 body.now sub
        → result ≡ Err (record { sub = sub }) }
{
    judge(body, width, v6)
}

/// The checks in their order, up to the first that finds a fault.
fn judge(body: &[u8], width: Width, v6: bool) -> Result<UpdateView<'_>, UpdateFault>
    ensures found { IfOk result (IsUpdate width v6 body.now) }
    ensures fault { IfErr result (λ fault. IsFaultOf width v6 body.now fault.sub) }
{
    let Some(fields) = read_fields(body) else {
        return Err(UpdateFault {
            sub: MALFORMED_ATTRIBUTE_LIST,
        });
    };
    if !check(fields.withdrawn, Family::V4) {
        return Err(UpdateFault {
            sub: INVALID_NETWORK_FIELD,
        });
    }
    let attrs = match walk(fields.attributes, width, v6) {
        Ok(attrs) => attrs,
        Err(fault) => return Err(UpdateFault { sub: fault.sub }),
    };
    if !has_mandatory(&attrs, fields.nlri) {
        return Err(UpdateFault {
            sub: MISSING_WELL_KNOWN_ATTRIBUTE,
        });
    }
    if !check(fields.nlri, Family::V4) {
        return Err(UpdateFault {
            sub: INVALID_NETWORK_FIELD,
        });
    }
    Ok(UpdateView::of(fields, &attrs))
}
