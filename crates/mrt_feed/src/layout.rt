//! How the records of BGP sessions are laid out: type and subtype come in, and where their fields
//! stand goes out (RFC 6396, sections 4.4 and 4.5).
//!
//! | Octets of a record | Field |
//! |---|---|
//! | 0 to 3 | the timestamp |
//! | 4 to 5, 6 to 7 | type and subtype |
//! | 8 to 11 | how many octets follow |
//! | 4 octets, in BGP4MP_ET alone | microseconds |
//! | 2 or 4 octets each | peer AS and local AS |
//! | 2 octets each | the interface index, and the address family |
//! | 4 or 16 octets each | peer address and local address |
//! | the rest | old state and new state in two octets each, or a BGP message |
ghost use Rattle.std.specs.Prelude.{◌≡◌, ◌+◌, ◌≤◌, length};
ghost use Rattle.mrt_feed.specs.Records as spec;

use as_path::Width;
use byteorder::{BigEndian, ByteOrder};

/// The type of records of BGP sessions (RFC 6396, section 4.4).
pub const BGP4MP: u16 = 16;

/// The same with microseconds (RFC 6396, section 4.5).
pub const BGP4MP_ET: u16 = 17;

/// The subtype of a state change, with AS numbers of two octets (RFC 6396, section 4.4.1).
pub const STATE_CHANGE: u16 = 0;

/// The subtype of a message, with AS numbers of two octets (RFC 6396, section 4.4.2).
pub const MESSAGE: u16 = 1;

/// The subtype of a message, with AS numbers of four octets (RFC 6396, section 4.4.3).
pub const MESSAGE_AS4: u16 = 4;

/// The subtype of a state change, with AS numbers of four octets (RFC 6396, section 4.4.4).
pub const STATE_CHANGE_AS4: u16 = 5;

/// The family of IPv4 addresses (RFC 6396, section 4.4.1).
pub const IPV4: u16 = 1;

/// The family of IPv6 addresses (RFC 6396, section 4.4.1).
pub const IPV6: u16 = 2;

/// The number of the state Established (RFC 6396, section 4.4.1).
pub const ESTABLISHED: u16 = 6;

/// The octets of the common header (RFC 6396, section 2).
pub const HEADER_OCTETS: usize = 12;

/// The layout of the records of one type and subtype.
#[derive(Clone, Copy)]
pub struct Layout {
    /// Microseconds stand in front.
    pub extended: bool,
    /// How many octets an AS number has.
    pub width: Width,
    /// A state change, and else a message.
    pub change: bool,
}

/// The layout by type and subtype. None where such records are not read.
pub fn layout_of(kind: u16, subkind: u16) -> Option<Layout>
    ensures { result ≡ spec.layout_of kind subkind }
{
    if kind == BGP4MP {
        return subtype_layout(false, subkind);
    }
    if kind == BGP4MP_ET {
        return subtype_layout(true, subkind);
    }
    None
}

fn subtype_layout(extended: bool, subkind: u16) -> Option<Layout>
    ensures { result ≡ spec.subtype_layout extended subkind }
{
    let (width, change) = match subkind {
        STATE_CHANGE => (Width::Two, true),
        MESSAGE => (Width::Two, false),
        MESSAGE_AS4 => (Width::Four, false),
        STATE_CHANGE_AS4 => (Width::Four, true),
        _ => return None,
    };
    Some(Layout {
        extended,
        width,
        change,
    })
}

impl Layout {
    /// Where the peer AS stands in a record: 12 or 16.
    pub fn peer_place(&self) -> usize
        ensures place { result ≡ spec.peer_place self.now }
        ensures within { (12 ≤ result) × (result ≤ 16) }
    {
        if self.extended { 16 } else { 12 }
    }

    /// Where the address family stands in a record: 18 to 26.
    pub fn family_place(&self) -> usize
        ensures place { result ≡ spec.family_place self.now }
        ensures within { (18 ≤ result) × (result ≤ 26) }
    {
        let numbers = match self.width {
            Width::Two => 4,
            Width::Four => 8,
        };
        self.peer_place() + numbers + 2
    }

    /// How many octets of the head stand behind the address family.
    fn tail_length(&self, family: u16) -> usize
        ensures length { result ≡ spec.tail_length self.now family }
        ensures within { result ≤ 51 }
    {
        let last = if self.change { 4 } else { 19 };
        match family {
            IPV4 => 8 + last,
            IPV6 => 32 + last,
            _ => 0,
        }
    }
}

/// How many octets the head of a record has that begins so, 12 to 79.
pub fn head_length(octets: &[u8]) -> usize
    ensures length { result ≡ spec.head_length octets.now }
    ensures within { (12 ≤ result) × (result ≤ 79) }
{
    if octets.len() < HEADER_OCTETS {
        return HEADER_OCTETS;
    }
    let kind = BigEndian::read_u16(&octets[4..]);
    let subkind = BigEndian::read_u16(&octets[6..]);
    match layout_of(kind, subkind) {
        None => HEADER_OCTETS,
        Some(layout) => known_length(&layout, octets),
    }
}

/// The same of a record that is read.
fn known_length(layout: &Layout, octets: &[u8]) -> usize
    ensures length { result ≡ spec.known_length layout.now octets.now }
    ensures within { (20 ≤ result) × (result ≤ 79) }
{
    let place = layout.family_place();
    if octets.len() < place + 2 {
        return place + 2;
    }
    place + 2 + layout.tail_length(BigEndian::read_u16(&octets[place..]))
}
