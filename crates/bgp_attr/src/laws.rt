//! Laws on the definitions of faults and on assigned numbers, as contracts of functions without
//! code.
ghost use Rattle.std.specs.Prelude.{◌≡◌, ◌↔◌, ℕ, Bool, List};
ghost use Rattle.as_path.specs.declared.widths.Width.{Width};
ghost use Rattle.bgp_attr.specs.Attribute.{Attribute};
ghost use Rattle.bgp_attr.specs.Faults.{AreAttributes, IsFirstFault, HasOutcome};

use crate::attribute::{EXTENDED_LENGTH, OPTIONAL, TRANSITIVE};
use crate::subcodes::{
    ATTRIBUTE_FLAGS_ERROR, ATTRIBUTE_LENGTH_ERROR, INVALID_NEXT_HOP, INVALID_ORIGIN,
    MALFORMED_AS_PATH, MALFORMED_ATTRIBUTE_LIST, OPTIONAL_ATTRIBUTE_ERROR,
    UNRECOGNIZED_WELL_KNOWN_ATTRIBUTE,
};

/// The subcodes and the flags have the numbers that the standard assigns (RFC 4271, sections 4.3 and
/// 4.5). Contracts and definitions cite them by name.
pub fn assigned_numbers()
    ensures lists { (MALFORMED_ATTRIBUTE_LIST ≡ 1) × (UNRECOGNIZED_WELL_KNOWN_ATTRIBUTE ≡ 2) }
    ensures forms { (ATTRIBUTE_FLAGS_ERROR ≡ 4) × (ATTRIBUTE_LENGTH_ERROR ≡ 5) }
    ensures values { (INVALID_ORIGIN ≡ 6) × (INVALID_NEXT_HOP ≡ 8)
        × (OPTIONAL_ATTRIBUTE_ERROR ≡ 9) × (MALFORMED_AS_PATH ≡ 11) }
    ensures flags { (OPTIONAL ≡ 128) × (TRANSITIVE ≡ 64) × (EXTENDED_LENGTH ≡ 16) }
{}

/// Each field of octets is attributes as the table asks, one list of them, or has one first fault:
/// it is such attributes exactly where it has no first fault.
pub fn one_outcome()
    ensures some { (width : Width) (v6 : Bool) (field : List ℕ) → HasOutcome width v6 field }
    ensures exact { (width : Width) (v6 : Bool) (field : List ℕ)
        → (((attributes : List Attribute) × AreAttributes width v6 field attributes)
        ↔ ((sub : ℕ) → IsFirstFault width v6 field sub → ⊥)) }
    ensures one_list { (width : Width) (v6 : Bool) (field : List ℕ) (xs ys : List Attribute)
        → AreAttributes width v6 field xs → AreAttributes width v6 field ys → xs ≡ ys }
    ensures one_fault { (width : Width) (v6 : Bool) (field : List ℕ) (sub other : ℕ)
        → IsFirstFault width v6 field sub → IsFirstFault width v6 field other → sub ≡ other }
{}
