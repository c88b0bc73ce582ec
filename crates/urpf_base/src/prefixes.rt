//! A prefix: the first bits of an address (RFC 4271, section 4.3), and the addresses that it covers.
ghost use Rattle.std.specs.Prelude.{◌≡◌, ◌≤◌, ◌<◌, ◌^◌, ◌↔◌, IsTrue};
ghost use Rattle.std.specs.Option.{SomeIff};
ghost use Rattle.urpf_base.specs.Address.{cleared, FirstBitsAgree, Covers, IsBlock, block_of, width_of};

use crate::address::Addr;
use std::marker::Model;

/// The bits of an IPv4 address.
const V4_BITS: u8 = 32;

/// The bits of an IPv6 address.
const V6_BITS: u8 = 128;

/// An address and a number of its first bits. The bits past that number are zero.
///
/// Prefixes are ordered with IPv4 first, then by address, then by length.
#[derive(Clone, Copy, Debug, PartialEq, Eq, PartialOrd, Ord)]
pub struct Prefix {
    addr: Addr,
    len: u8,
}

impl Model for Prefix {
    ghost use Rattle.urpf_base.specs.Address.{Block, IsBlock};

    ghost Value = { Block };

    ghost view = { λ p. record { addr = p.addr; len = p.len } };

    ghost invariant = { λ p. IsBlock p.addr p.len };

    ghost inverse = { λ b. record { addr = b.addr; len = b.len } };
}

impl Prefix {
    /// The first `len` bits of the address. The bits past them are cleared. None where the address
    /// has fewer bits: 32 of IPv4, 128 of IPv6.
    pub fn new(addr: Addr, len: u8) -> Option<Prefix>
        ensures { SomeIff result (len ≤ width_of addr) (block_of len addr) }
    {
        match addr {
            Addr::V4(number) => {
                if len > V4_BITS {
                    return None;
                }
                let addr = Addr::V4(cleared_32(number, len));
                Some(Prefix { addr, len })
            }
            Addr::V6(number) => {
                if len > V6_BITS {
                    return None;
                }
                let addr = Addr::V6(cleared_128(number, len));
                Some(Prefix { addr, len })
            }
        }
    }

    /// The address, whose bits past the length are zero.
    pub fn addr(&self) -> Addr
        ensures value { result ≡ self.now.addr }
        ensures block { IsBlock self.now.addr self.now.len }
    {
        self.addr
    }

    /// The number of bits that count, at most 32 for IPv4 and 128 for IPv6.
    pub fn len(&self) -> u8
        ensures { result ≡ self.now.len }
    {
        self.len
    }

    /// Whether the address is of this family and begins with these bits.
    pub fn covers(&self, addr: &Addr) -> bool
        ensures { IsTrue result ↔ Covers self.now addr.now }
    {
        match (self.addr, *addr) {
            (Addr::V4(own), Addr::V4(other)) => agree_32(own, other, self.len),
            (Addr::V6(own), Addr::V6(other)) => agree_128(own, other, self.len),
            (Addr::V4(_), Addr::V6(_)) => false,
            (Addr::V6(_), Addr::V4(_)) => false,
        }
    }
}

/// The number with its bits past the first `len` cleared.
fn cleared_32(number: u32, len: u8) -> u32
    requires { len ≤ 32 }
    ensures { result ≡ cleared 32 len number }
{
    if len == 0 {
        return 0;
    }
    number & (u32::MAX << (V4_BITS - len))
}

/// The number with its bits past the first `len` cleared.
fn cleared_128(number: u128, len: u8) -> u128
    requires { len ≤ 128 }
    ensures { result ≡ cleared 128 len number }
{
    if len == 0 {
        return 0;
    }
    number & (u128::MAX << (V6_BITS - len))
}

fn agree_32(a: u32, b: u32, len: u8) -> bool
    requires { len ≤ 32 }
    ensures { IsTrue result ↔ FirstBitsAgree 32 len a b }
{
    cleared_32(a, len) == cleared_32(b, len)
}

fn agree_128(a: u128, b: u128, len: u8) -> bool
    requires { len ≤ 128 }
    ensures { IsTrue result ↔ FirstBitsAgree 128 len a b }
{
    cleared_128(a, len) == cleared_128(b, len)
}
