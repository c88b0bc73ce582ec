//! Laws on whole messages and on streams of them, for the proofs of the crates above. Each function
//! is nothing but its contract, and nothing runs here.
ghost use Rattle.std.specs.Prelude.{◌≡◌, ◌≤◌, ℕ, List, ◌++◌, length};
ghost use Rattle.bgp_wire.specs.Frames.{Framing, IsMessage};
ghost use Rattle.bgp_wire.specs.Header.{header_fault, length_field, type_field};
ghost use Rattle.bgp_wire.specs.States.{FitsKind, kind_of};

use crate::header::{
    BAD_MESSAGE_LENGTH, BAD_MESSAGE_TYPE, CONNECTION_NOT_SYNCHRONIZED, HEADER_OCTETS, KEEPALIVE,
    MESSAGE_HEADER_ERROR, NOTIFICATION, OPEN, UPDATE,
};

/// The code and its subcodes, the types and the length of a header have the numbers that the
/// standard assigns (RFC 4271, sections 4.1, 4.5 and 6.1). Contracts and definitions cite them by
/// name.
pub fn assigned_numbers()
    ensures code { MESSAGE_HEADER_ERROR ≡ 1 }
    ensures subcodes { (CONNECTION_NOT_SYNCHRONIZED ≡ 1) × (BAD_MESSAGE_LENGTH ≡ 2)
        × (BAD_MESSAGE_TYPE ≡ 3) }
    ensures types { (OPEN ≡ 1) × (UPDATE ≡ 2) × (NOTIFICATION ≡ 3) × (KEEPALIVE ≡ 4) }
    ensures header { HEADER_OCTETS ≡ 19 }
{}

/// Each stream is whole messages, a rest and an end in one way and no other (RFC 4271, section 4.1).
pub fn one_framing()
    ensures some { (stream : List ℕ) → Framing stream }
    ensures only { (stream : List ℕ) (a b : Framing stream)
        → (a.messages ≡ b.messages) × (a.rest ≡ b.rest) × (a.end ≡ b.end) }
{}

/// A header is judged by its 19 octets alone, and a whole message is as long as its kind asks
/// (RFC 4271, sections 4.1 to 4.5).
pub fn header_decides()
    ensures fault { (header more : List ℕ) → 19 ≤ length header
        → header_fault (header ++ more) ≡ header_fault header }
    ensures count { (header more : List ℕ) → 19 ≤ length header
        → length_field (header ++ more) ≡ length_field header }
    ensures code { (header more : List ℕ) → 19 ≤ length header
        → type_field (header ++ more) ≡ type_field header }
    ensures fits { (m : List ℕ) → IsMessage m → FitsKind (kind_of (type_field m)) (length m) }
{}
