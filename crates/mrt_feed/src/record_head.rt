//! What the head of a record says: its octets come in, and which record it is goes out
//! (RFC 6396, sections 2, 4.4 and 4.5).
ghost use Rattle.std.specs.Prelude.{◌≡◌, ◌+◌, ◌≤◌, length};
ghost use Rattle.mrt_feed.specs.Records as spec;

use crate::layout::{HEADER_OCTETS, IPV4, IPV6, Layout, layout_of};
use as_path::Width;
use byteorder::{BigEndian, ByteOrder};
use urpf_base::Addr;

/// Who sent a recorded message.
#[derive(Clone, Copy)]
pub struct Sender {
    /// The peer address.
    pub addr: Addr,
    /// How many octets its AS number has in the record, and so in the session.
    pub width: Width,
    /// The peer AS.
    pub asn: u32,
}

/// What a whole head says.
#[derive(Clone, Copy)]
pub enum RecordHead {
    /// The address family is none of the two, or the length does not fit the subtype.
    Malformed,
    /// The record is not read, and has so many octets more.
    Other(u32),
    /// A message of this sender, of which so many octets follow its header.
    Message(Sender, u32),
    /// A state change of the peer at this address, to this state.
    Change(Addr, u16),
}

/// What a whole head says.
pub fn read_head(head: &[u8]) -> RecordHead
    requires { length head.now ≡ spec.head_length head.now }
    ensures { result ≡ spec.head_says head.now }
{
    let kind = BigEndian::read_u16(&head[4..]);
    let subkind = BigEndian::read_u16(&head[6..]);
    let count = BigEndian::read_u32(&head[8..]);
    match layout_of(kind, subkind) {
        None => RecordHead::Other(count),
        Some(layout) => read_known(&layout, count, head),
    }
}

/// The same of a record that is read, by its length.
fn read_known(layout: &Layout, count: u32, head: &[u8]) -> RecordHead
    requires { length head.now ≡ spec.known_length layout.now head.now }
    ensures { result ≡ spec.known_says layout.now count head.now }
{
    let family = BigEndian::read_u16(&head[layout.family_place()..]);
    read_family(layout, family, count, head)
}

/// The same by the address family.
fn read_family(layout: &Layout, family: u16, count: u32, head: &[u8]) -> RecordHead
    requires { spec.family_place layout.now + 2 + spec.tail_length layout.now family ≤ length head.now }
    ensures { result ≡ spec.family_says layout.now family count head.now }
{
    let place = layout.family_place() + 2;
    if family == IPV4 {
        let peer = Addr::V4(BigEndian::read_u32(&head[place..]));
        return read_peer(layout, count, peer, head);
    }
    if family == IPV6 {
        let peer = Addr::V6(BigEndian::read_u128(&head[place..]));
        return read_peer(layout, count, peer, head);
    }
    RecordHead::Malformed
}

/// The same by the address of the peer.
fn read_peer(layout: &Layout, count: u32, peer: Addr, head: &[u8]) -> RecordHead
    requires { spec.family_place layout.now + 2 ≤ length head.now }
    ensures { result ≡ spec.peer_says layout.now count peer head.now }
{
    if layout.change {
        return read_change(count, peer, head);
    }
    let whole = count as usize + HEADER_OCTETS;
    if whole < head.len() {
        return RecordHead::Malformed;
    }
    let rest = whole - head.len();
    RecordHead::Message(sender_of(layout, peer, head), rest as u32)
}

/// A state change, which ends with its new state.
fn read_change(count: u32, peer: Addr, head: &[u8]) -> RecordHead
    requires { 20 ≤ length head.now }
    ensures { result ≡ spec.change_says count peer head.now }
{
    if count as usize + HEADER_OCTETS != head.len() {
        return RecordHead::Malformed;
    }
    RecordHead::Change(peer, BigEndian::read_u16(&head[head.len() - 2..]))
}

/// The peer with its AS number.
fn sender_of(layout: &Layout, peer: Addr, head: &[u8]) -> Sender
    requires { spec.family_place layout.now + 2 ≤ length head.now }
    ensures { result ≡ spec.sender_of layout.now peer head.now }
{
    let place = layout.peer_place();
    let asn = match layout.width {
        Width::Two => BigEndian::read_u16(&head[place..]) as u32,
        Width::Four => BigEndian::read_u32(&head[place..]),
    };
    Sender {
        addr: peer,
        width: layout.width,
        asn,
    }
}
