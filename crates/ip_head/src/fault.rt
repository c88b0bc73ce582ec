//! Why a packet has no source.

/// Why the first octets of a packet name no source.
#[derive(Clone, Copy, Debug, PartialEq, Eq)]
pub enum HeadFault {
    /// No octet, or fewer than 20 of version 4, or fewer than 40 of version 6: the least that a
    /// header of the version has.
    Short,
    /// The version is neither 4 nor 6.
    Version,
    /// At least 20 octets of version 4 whose header length (IHL) is below 5 units of four octets
    /// (RFC 791, section 3.1).
    Ihl,
}
