//! The header of a capture file: in which order the octets of its numbers stand, and of which link
//! its frames are.
//!
//! | Octets | Field |
//! |---|---|
//! | 0 to 3 | magic: A1B2C3D4 or A1B23C4D, which tell the order of octets |
//! | 4 to 7 | version, two numbers |
//! | 8 to 15 | two fields that are not in use |
//! | 16 to 19 | the most octets that were kept of a frame |
//! | 20 to 23 | the type of the link: 1 or 101 |
//!
//! Magic and link are looked at, and nothing else (pcap-savefile(5); draft-ietf-opsawg-pcap, section 4).
ghost use Rattle.std.specs.Prelude.{◌≡◌, ◌≤◌, length};
ghost use Rattle.pcap_packets.specs.Formats as spec;

use byteorder::{self, ByteOrder};

/// The octets of the header of a file.
pub const FILE_HEADER: usize = 24;

/// The magic of a file whose times have microseconds.
pub const MICROSECONDS: u32 = 0xA1B2_C3D4;

/// The magic of a file whose times have nanoseconds.
pub const NANOSECONDS: u32 = 0xA1B2_3C4D;

/// The type of a link with Ethernet frames (LINKTYPE_ETHERNET).
pub const ETHERNET: u32 = 1;

/// The type of a link whose frames are IPv4 and IPv6 packets (LINKTYPE_RAW).
pub const RAW_IP: u32 = 101;

/// In which order the octets of a number stand.
#[derive(Clone, Copy, Debug, PartialEq, Eq)]
pub enum Order {
    /// The most significant octet first.
    BigEndian,
    /// The least significant octet first.
    LittleEndian,
}

/// What the frames of a file are.
#[derive(Clone, Copy, Debug, PartialEq, Eq)]
pub enum Link {
    /// Ethernet frames.
    Ethernet,
    /// Packets.
    Raw,
}

/// What the header of a file says.
#[derive(Clone, Copy, Debug, PartialEq, Eq)]
pub struct Format {
    /// The order of the octets of numbers in the file.
    pub order: Order,
    /// What its frames are.
    pub link: Link,
}

/// What a header says. None where the magic or the link is another one.
pub fn read_format(header: &[u8]) -> Option<Format>
    requires { 24 ≤ length header.now }
    ensures { result ≡ spec.format_of header.now }
{
    let order = read_order(header)?;
    let link = read_link(read_number(order, &header[20..]))?;
    Some(Format { order, link })
}

/// The number in the first four octets.
pub fn read_number(order: Order, octets: &[u8]) -> u32
    requires { 4 ≤ length octets.now }
    ensures { result ≡ spec.number_in order octets.now }
{
    match order {
        Order::BigEndian => byteorder::BigEndian::read_u32(octets),
        Order::LittleEndian => byteorder::LittleEndian::read_u32(octets),
    }
}

/// The order in which a header begins with a magic.
fn read_order(header: &[u8]) -> Option<Order>
    requires { 4 ≤ length header.now }
    ensures { result ≡ spec.order_of header.now }
{
    if is_magic(read_number(Order::BigEndian, header)) {
        return Some(Order::BigEndian);
    }
    if is_magic(read_number(Order::LittleEndian, header)) {
        return Some(Order::LittleEndian);
    }
    None
}

/// Whether a number is the magic of a capture file.
fn is_magic(number: u32) -> bool
    ensures { result ≡ spec.is_magic number }
{
    number == MICROSECONDS || number == NANOSECONDS
}

/// The link of a type.
fn read_link(number: u32) -> Option<Link>
    ensures { result ≡ spec.link_of number }
{
    if number == ETHERNET {
        return Some(Link::Ethernet);
    }
    if number == RAW_IP {
        return Some(Link::Raw);
    }
    None
}
