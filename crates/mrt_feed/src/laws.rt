//! The numbers that the definitions cite by name, as the contract of a function without code.
ghost use Rattle.std.specs.Prelude.{◌≡◌};

use crate::layout::{
    BGP4MP, BGP4MP_ET, ESTABLISHED, IPV4, IPV6, MESSAGE, MESSAGE_AS4, STATE_CHANGE,
    STATE_CHANGE_AS4,
};
use crate::opening::{AS_TRANS, CAPABILITIES, FOUR_OCTET_AS, KEEPALIVE, MULTIPROTOCOL, OPEN};
use feed_io::FILE_OCTETS;

/// The numbers of records are those of RFC 6396, sections 4.4 and 4.5, and a recording has at most
/// 4 TiB. The messages that are made have the numbers of RFC 4271, section 4.1, RFC 5492, section 4,
/// RFC 4760, section 8, and RFC 6793, sections 3 and 9.
pub fn assigned_numbers()
    ensures types { (BGP4MP ≡ 16) × (BGP4MP_ET ≡ 17) }
    ensures subtypes { (STATE_CHANGE ≡ 0) × (MESSAGE ≡ 1) × (MESSAGE_AS4 ≡ 4) × (STATE_CHANGE_AS4 ≡ 5) }
    ensures families { (IPV4 ≡ 1) × (IPV6 ≡ 2) }
    ensures states { ESTABLISHED ≡ 6 }
    ensures limit { FILE_OCTETS ≡ 4398046511104 }
    ensures messages { (OPEN ≡ 1) × (KEEPALIVE ≡ 4) }
    ensures capabilities { (CAPABILITIES ≡ 2) × (MULTIPROTOCOL ≡ 1) × (FOUR_OCTET_AS ≡ 65) }
    ensures as_trans { AS_TRANS ≡ 23456 }
{}
