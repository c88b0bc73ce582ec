//! The source address in the header of a packet.
//!
//! | Octets | IPv4 (RFC 791, section 3.1) | IPv6 (RFC 8200, section 3) |
//! |---|---|---|
//! | 0 | version, 4; header length (IHL) in units of four octets | version, 6; traffic class |
//! | 8 to 23 | | source |
//! | 12 to 15 | source | |
ghost use Rattle.std.specs.Prelude.{◌≡◌, ◌↔◌, ◌≤◌, length, take, drop, Err, Ok, IfOk};
ghost use Rattle.std.specs.Int.{w32, w128, from_be_bytes};
ghost use Rattle.urpf_base.specs.declared.address.Addr.{Addr as Address};
ghost use Rattle.ip_head.specs.Heads.{HasSource, IsShort, IsOfAnotherVersion, HasLowIhl};

use crate::fault::HeadFault;
use urpf_base::Addr;

/// The version of IPv4.
const IPV4: u8 = 4;

/// The version of IPv6.
const IPV6: u8 = 6;

/// The octets of an IPv4 header without options (RFC 791, section 3.1).
const IPV4_HEADER: usize = 20;

/// The octets of an IPv6 header (RFC 8200, section 3).
const IPV6_HEADER: usize = 40;

/// The least IHL: the header without options, in units of four octets (RFC 791, section 3.1).
const LEAST_IHL: u8 = 5;

/// The source address of the packet that begins with these octets.
pub fn source_of(head: &[u8]) -> Result<Addr, HeadFault>
    ensures found { IfOk result (λ source. HasSource head.now source) }
    ensures only { (source : Address) → HasSource head.now source → result ≡ Ok source }
    ensures short { result ≡ Err HeadFault.Short ↔ IsShort head.now }
    ensures version { result ≡ Err HeadFault.Version ↔ IsOfAnotherVersion head.now }
    ensures ihl { result ≡ Err HeadFault.Ihl ↔ HasLowIhl head.now }
{
    let Some(first) = head.first() else {
        return Err(HeadFault::Short);
    };
    match *first / 16 {
        IPV4 if head.len() < IPV4_HEADER => Err(HeadFault::Short),
        IPV4 if *first % 16 < LEAST_IHL => Err(HeadFault::Ihl),
        IPV4 => Ok(Addr::V4(ipv4_source(head))),
        IPV6 if head.len() < IPV6_HEADER => Err(HeadFault::Short),
        IPV6 => Ok(Addr::V6(ipv6_source(head))),
        _ => Err(HeadFault::Version),
    }
}

/// The source address in a whole IPv4 header.
fn ipv4_source(head: &[u8]) -> u32
    requires { 20 ≤ length head.now }
    ensures { result ≡ from_be_bytes w32 (take 4 (drop 12 head.now)) }
{
    let mut octets = [0; 4];
    octets.copy_from_slice(&head[12..16]);
    u32::from_be_bytes(octets)
}

/// The source address in a whole IPv6 header.
fn ipv6_source(head: &[u8]) -> u128
    requires { 40 ≤ length head.now }
    ensures { result ≡ from_be_bytes w128 (take 16 (drop 8 head.now)) }
{
    let mut octets = [0; 16];
    octets.copy_from_slice(&head[8..24]);
    u128::from_be_bytes(octets)
}
