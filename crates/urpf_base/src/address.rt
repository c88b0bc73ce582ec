//! An address of either family, as a number.

/// An address: 32 bits of IPv4 or 128 bits of IPv6, its first octet highest.
///
/// IPv4 comes before IPv6 in the order, and within a family the lesser number first.
#[derive(Clone, Copy, Debug, PartialEq, Eq, PartialOrd, Ord)]
pub enum Addr {
    V4(u32),
    V6(u128),
}
