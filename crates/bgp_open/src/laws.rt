//! Laws on the fields of an OPEN and on assigned numbers, for the proofs of the crates above. Each
//! function is nothing but its contract, and nothing runs here.
ghost use Rattle.std.specs.Prelude.{◌≡◌, ℕ, List, true};
ghost use Rattle.urpf_base.specs.Series.{SpellsAll};
ghost use Rattle.bgp_open.specs.Fields.{Field, SpellsField, are_fields, fields_in};

use crate::faults::{
    BAD_BGP_IDENTIFIER, BAD_PEER_AS, OPEN_MESSAGE_ERROR, UNACCEPTABLE_HOLD_TIME, UNSPECIFIC,
    UNSUPPORTED_OPTIONAL_PARAMETER, UNSUPPORTED_VERSION_NUMBER,
};

/// The code and its subcodes have the numbers that the standard assigns (RFC 4271, section 4.5). Contracts and
/// definitions cite them by name.
pub fn assigned_numbers()
    ensures code { OPEN_MESSAGE_ERROR ≡ 2 }
    ensures first { (UNSPECIFIC ≡ 0) × (UNSUPPORTED_VERSION_NUMBER ≡ 1) × (BAD_PEER_AS ≡ 2) }
    ensures second { (BAD_BGP_IDENTIFIER ≡ 3) × (UNSUPPORTED_OPTIONAL_PARAMETER ≡ 4)
        × (UNACCEPTABLE_HOLD_TIME ≡ 6) }
{}

/// A text is fields exactly where it spells some, and these are then the only ones.
pub fn one_list_of_fields()
    ensures found { (text : List ℕ) → are_fields text ≡ true
        → SpellsAll SpellsField text (fields_in text) }
    ensures only { (text : List ℕ) (fs : List Field) → SpellsAll SpellsField text fs
        → (are_fields text ≡ true) × (fields_in text ≡ fs) }
{}
