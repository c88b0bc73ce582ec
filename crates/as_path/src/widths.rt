//! How many octets an AS number takes.

/// The octets of an AS number in an AS_PATH: four from a peer that sent the capability of
/// four-octet AS numbers, and else two (RFC 6793, section 4.1). AS4_PATH has four.
#[derive(Clone, Copy, Debug, PartialEq, Eq)]
pub enum Width {
    Two,
    Four,
}
