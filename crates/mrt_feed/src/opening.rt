//! The messages that are made for a recorded session, since a recording may begin within one: who
//! sent its first message comes in, and the octets of an OPEN and a KEEPALIVE go out.
//!
//! | Octets | Of the OPEN (RFC 4271, section 4.2) |
//! |---|---|
//! | 0 to 18 | the header: length 43, or 37 without the last capability, and type 1 |
//! | 19 to 21 | version 4, the peer AS, or AS_TRANS where it does not fit (RFC 6793, section 9) |
//! | 22 to 27 | no hold timer, the identifier 0.0.0.1 |
//! | 28 to 30 | the length of the parameters, and the one that lists capabilities (RFC 5492, section 4) |
//! | 31 to 36 | IPv6 unicast (RFC 4760, section 8) |
//! | 37 to 42 | the peer AS in four octets, where the record has four (RFC 6793, section 3) |
ghost use Rattle.std.specs.Prelude.{◌≡◌, ◌+◌, ◌≤◌, ◌∷◌, [], ◌++◌, length, replicate};
ghost use Rattle.byteorder.specs.Endian.{big_bytes};
ghost use Rattle.urpf_base.specs.declared.address.Addr.{Addr};
ghost use Rattle.mrt_feed.specs.Openings as spec;

use crate::record_head::Sender;
use as_path::Width;
use feed_io::FewOctets;

/// The type of an OPEN (RFC 4271, section 4.1).
pub const OPEN: u8 = 1;

/// The type of a KEEPALIVE (RFC 4271, section 4.1).
pub const KEEPALIVE: u8 = 4;

/// The type of the parameter that lists capabilities (RFC 5492, section 4).
pub const CAPABILITIES: u8 = 2;

/// The code of the capability of an address family (RFC 4760, section 8).
pub const MULTIPROTOCOL: u8 = 1;

/// The code of the capability of four-octet AS numbers (RFC 6793, section 3).
pub const FOUR_OCTET_AS: u8 = 65;

/// The AS number that stands for one that does not fit (RFC 6793, section 9).
pub const AS_TRANS: u16 = 23_456;

/// The OPEN and the KEEPALIVE of a session with this peer, at most 62 octets.
pub fn session_opening(sender: &Sender) -> FewOctets
    ensures octets { result ≡ spec.session_opening sender.now }
{
    let mut messages = FewOctets::new();
    append_open(&mut messages, sender);
    append_header(&mut messages, 19, KEEPALIVE);
    messages
}

/// The OPEN of this peer, with its AS number as wide as the record has it.
fn append_open(messages: &mut FewOctets, sender: &Sender)
    requires { messages.old ≡ [] }
    ensures octets { messages.new ≡ spec.open_message sender.now }
    ensures within { length messages.new ≤ 43 }
{
    match sender.width {
        Width::Two => append_narrow(messages, sender.asn),
        Width::Four => append_wide(messages, sender.asn),
    }
}

/// The OPEN of a peer in whose record AS numbers have two octets.
fn append_narrow(messages: &mut FewOctets, asn: u32)
    requires { messages.old ≡ [] }
    ensures octets { (addr : Addr) → messages.new ≡ spec.open_message (record { addr = addr; width = Width.Two; asn = asn }) }
    ensures count { length messages.new ≡ 37 }
{
    let [high, low] = two_octets(asn).to_be_bytes();
    append_header(messages, 37, OPEN);
    messages.append(&[4, high, low, 0, 0, 0, 0, 0, 1]);
    messages.append(&[8, CAPABILITIES, 6, MULTIPROTOCOL, 4, 0, 2, 0, 1]);
}

/// The OPEN of a peer in whose record AS numbers have four octets.
fn append_wide(messages: &mut FewOctets, asn: u32)
    requires { messages.old ≡ [] }
    ensures octets { (addr : Addr) → messages.new ≡ spec.open_message (record { addr = addr; width = Width.Four; asn = asn }) }
    ensures count { length messages.new ≡ 43 }
{
    let [high, low] = two_octets(asn).to_be_bytes();
    let [a, b, c, d] = asn.to_be_bytes();
    append_header(messages, 43, OPEN);
    messages.append(&[4, high, low, 0, 0, 0, 0, 0, 1]);
    messages.append(&[14, CAPABILITIES, 12, MULTIPROTOCOL, 4, 0, 2, 0, 1]);
    messages.append(&[FOUR_OCTET_AS, 4, a, b, c, d]);
}

/// The AS number in two octets.
fn two_octets(asn: u32) -> u16
    ensures { result ≡ spec.two_octets asn }
{
    if asn > 65_535 {
        return AS_TRANS;
    }
    asn as u16
}

/// Appends the header of a message of so many octets and of this type.
fn append_header(messages: &mut FewOctets, count: u16, kind: u8)
    requires { length messages.old + 19 ≤ 79 }
    ensures { messages.new ≡ messages.old ++ (replicate 16 255 ++ (big_bytes 2 count ++ (kind ∷ []))) }
{
    let [high, low] = count.to_be_bytes();
    messages.append(&[0xFF; 16]);
    messages.append(&[high, low, kind]);
}
