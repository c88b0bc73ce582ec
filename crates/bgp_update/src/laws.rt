//! Laws on the definitions of UPDATEs and of their faults, as contracts of functions without code.
ghost use Rattle.std.specs.Prelude.{◌≡◌, ◌↔◌, ℕ, Bool, List};
ghost use Rattle.as_path.specs.declared.widths.Width.{Width};
ghost use Rattle.urpf_base.specs.RouteUpdates.{RouteUpdate};
ghost use Rattle.bgp_update.specs.Faults.{IsFaultOf, HasOutcome};
ghost use Rattle.bgp_update.specs.Update.{IsUpdate};

use crate::subcodes::{
    INVALID_NETWORK_FIELD, MALFORMED_ATTRIBUTE_LIST, MISSING_WELL_KNOWN_ATTRIBUTE,
    UPDATE_MESSAGE_ERROR,
};

/// The code and its subcodes have the numbers that the standard assigns (RFC 4271, section 4.5). Contracts and
/// definitions cite them by name.
pub fn assigned_numbers()
    ensures code { UPDATE_MESSAGE_ERROR ≡ 3 }
    ensures subcodes { (MALFORMED_ATTRIBUTE_LIST ≡ 1) × (MISSING_WELL_KNOWN_ATTRIBUTE ≡ 3)
        × (INVALID_NETWORK_FIELD ≡ 10) }
{}

/// Each body is one UPDATE without a fault, or has one first fault: it has no first fault exactly
/// where it is an UPDATE for some prefixes and origin, and then for no others.
pub fn one_outcome()
    ensures some { (width : Width) (v6 : Bool) (body : List ℕ) → HasOutcome width v6 body }
    ensures exact { (width : Width) (v6 : Bool) (body : List ℕ)
        → (((update : RouteUpdate) × IsUpdate width v6 body update)
        ↔ ((sub : ℕ) → IsFaultOf width v6 body sub → ⊥)) }
    ensures one_update { (width : Width) (v6 : Bool) (body : List ℕ) (u v : RouteUpdate)
        → IsUpdate width v6 body u → IsUpdate width v6 body v → u ≡ v }
    ensures one_fault { (width : Width) (v6 : Bool) (body : List ℕ) (sub other : ℕ)
        → IsFaultOf width v6 body sub → IsFaultOf width v6 body other → sub ≡ other }
{}
