//! Where a feed stands in a recording, and what a record does there: a whole head comes in, and what
//! is due goes out.
ghost use Rattle.std.specs.Prelude.{◌≡◌, ◌<◌, ◌≤◌, ℕ, [], length, slice_index, IfOk, OnErr, List, Ok, None, Some, true, false};
ghost use Rattle.mrt_feed.specs.MrtEvents as events;
ghost use Rattle.mrt_feed.specs.Openings.{session_opening};
ghost use Rattle.mrt_feed.specs.Places.{Goes, IsAtRecord, IsBetween, IsOff, due_events};
ghost use Rattle.mrt_feed.specs.Records.{change, head_length, head_says, message_front};

use crate::head::Head;
use crate::layout::ESTABLISHED;
use crate::opening::{KEEPALIVE, OPEN, session_opening};
use crate::record_head::{RecordHead, Sender, read_head};
use as_path::Width;
use feed_io::{FewOctets, Unsent};
use urpf_base::{Addr, Failed};

/// The octets of the header of a BGP message (RFC 4271, section 4.1).
const MESSAGE_HEADER: usize = 19;

/// What comes next out of a feed, in this order: octets in memory, octets of a message that are still
/// in the source, and the records behind those that are passed over.
#[derive(Drop)]
pub struct Progress {
    /// What was read of the head of the next record.
    pub head: Head,
    /// How many octets of a record that is passed over are still in the source.
    pub skip: u32,
    /// What is left of a made opening, or of the first octets of a message.
    pub unsent: Unsent,
    /// How many octets of a message are still in the source.
    pub owed: u32,
    /// How many octets AS numbers have in the made OPEN, and none while the transport is down.
    pub link: Option<Width>,
}

/// What is due.
#[derive(Clone, Copy)]
pub enum Due {
    /// The transport comes up.
    Up,
    /// The transport goes down.
    Down,
    /// Octets that stand in memory.
    Octets,
}

impl Progress {
    /// At the beginning of a recording, and down.
    pub fn new() -> Progress
        ensures head { result.head ≡ [] }
        ensures unsent { result.unsent ≡ [] }
        ensures owed { result.owed ≡ 0 }
        ensures skip { result.skip ≡ 0 }
        ensures link { result.link ≡ None }
    {
        Progress {
            head: Head::new(),
            skip: 0,
            unsent: Unsent::new(FewOctets::new()),
            owed: 0,
            link: None,
        }
    }
}

/// What a record makes due, by its whole head. It fails where that is off the format.
pub fn take_head(place: &mut Progress, peer: Addr) -> Result<Option<Due>, Failed>
    requires whole { length place.old.head ≡ head_length place.old.head }
    requires start { IsAtRecord place.old }
    ensures goes { IfOk result (λ due. Goes peer place.old [] place.new (due_events due)) }
    ensures between { result ≡ Ok None → IsBetween place.new }
    ensures empty { result ≡ Ok None → place.new.head ≡ [] }
    ensures octets { result ≡ Ok (Some Due.Octets) → 0 < length place.new.unsent }
    ensures kept { OnErr result (Goes peer place.old [] place.new []) }
    ensures off { OnErr result ((t : List ℕ) → IsOff peer place.new t) }
{
    match read_head(place.head.octets()) {
        RecordHead::Malformed => Err(Failed),
        RecordHead::Other(count) => {
            pass(place, count);
            Ok(None)
        }
        RecordHead::Message(sender, count) => Ok(take_message(place, peer, &sender, count)),
        RecordHead::Change(from, state) => Ok(take_change(place, peer, from, state)),
    }
}

/// Passes over the record whose head was read, which has so many octets more.
fn pass(place: &mut Progress, count: u32)
    ensures { place.new ≡ record place.old { head = []; skip = count } }
{
    place.head.clear();
    place.skip = count;
}

/// What a message makes due.
fn take_message(place: &mut Progress, peer: Addr, sender: &Sender, count: u32) -> Option<Due>
    requires whole { length place.old.head ≡ head_length place.old.head }
    requires start { IsAtRecord place.old }
    requires says { head_says place.old.head ≡ RecordHead.Message sender.now count }
    ensures goes { Goes peer place.old [] place.new (due_events result) }
    ensures between { result ≡ None → IsBetween place.new }
    ensures empty { result ≡ None → place.new.head ≡ [] }
    ensures octets { result ≡ Some Due.Octets → 0 < length place.new.unsent }
{
    if !is_told(peer, sender, message_kind(&place.head)) {
        pass(place, count);
        return None;
    }
    match place.link {
        None => Some(bring_up(place, sender)),
        Some(made) => Some(go_on(place, made, sender, count)),
    }
}

/// The type of the message whose header ends the head.
fn message_kind(head: &Head) -> u8
    requires { 19 ≤ length head.now }
    ensures { result ≡ slice_index (message_front head.now) 18 }
{
    let octets = head.octets();
    octets[octets.len() - 1]
}

/// Whether a message of this type tells something of the session with the peer.
fn is_told(peer: Addr, sender: &Sender, kind: u8) -> bool
    ensures { result ≡ events.is_told peer sender.now kind }
{
    same_addr(sender.addr, peer) && kind != OPEN && kind != KEEPALIVE
}

fn same_addr(a: Addr, b: Addr) -> bool
    ensures { result ≡ events.same_addr a b }
{
    match (a, b) {
        (Addr::V4(a), Addr::V4(b)) => a == b,
        (Addr::V4(_), Addr::V6(_)) => false,
        (Addr::V6(_), Addr::V4(_)) => false,
        (Addr::V6(a), Addr::V6(b)) => a == b,
    }
}

/// The transport comes up, and then the made opening; the record is read again after them.
fn bring_up(place: &mut Progress, sender: &Sender) -> Due
    ensures due { result ≡ Due.Up }
    ensures place { place.new ≡ record place.old {
      unsent = session_opening sender.now;
      link = Some sender.now.width;
    } }
{
    place.unsent = Unsent::new(session_opening(sender));
    place.link = Some(sender.width);
    Due::Up
}

/// While the transport is up with an OPEN of this width: the octets of a message of the same width,
/// and else it goes down, and the record is read again after that.
fn go_on(place: &mut Progress, made: Width, sender: &Sender, count: u32) -> Due
    requires { 19 ≤ length place.old.head }
    ensures same { events.same_width made sender.now.width ≡ true → (result ≡ Due.Octets)
        × (place.new ≡ record place.old { head = []; unsent = message_front place.old.head; owed = count }) }
    ensures other { events.same_width made sender.now.width ≡ false → (result ≡ Due.Down)
        × (place.new ≡ record place.old { link = None }) }
{
    if !same_width(made, sender.width) {
        place.link = None;
        return Due::Down;
    }
    hand_over(place, count);
    Due::Octets
}

fn same_width(a: Width, b: Width) -> bool
    ensures { result ≡ events.same_width a b }
{
    match (a, b) {
        (Width::Two, Width::Two) => true,
        (Width::Two, Width::Four) => false,
        (Width::Four, Width::Two) => false,
        (Width::Four, Width::Four) => true,
    }
}

/// The header of a message, and so many octets behind it, come next.
fn hand_over(place: &mut Progress, count: u32)
    requires { 19 ≤ length place.old.head }
    ensures { place.new ≡ record place.old { head = []; unsent = message_front place.old.head; owed = count } }
{
    let mut front = FewOctets::new();
    let octets = place.head.octets();
    front.append(&octets[octets.len() - MESSAGE_HEADER..]);
    place.unsent = Unsent::new(front);
    place.owed = count;
    place.head.clear();
}

/// What a state change makes due.
fn take_change(place: &mut Progress, peer: Addr, from: Addr, state: u16) -> Option<Due>
    requires whole { length place.old.head ≡ head_length place.old.head }
    requires start { IsAtRecord place.old }
    requires says { head_says place.old.head ≡ RecordHead.Change from state }
    ensures goes { Goes peer place.old [] place.new (due_events result) }
    ensures between { IsBetween place.new }
    ensures empty { place.new.head ≡ [] }
    ensures octets { result ≡ Some Due.Octets → ⊥ }
{
    place.head.clear();
    if !is_lost(peer, from, state) {
        return None;
    }
    match place.link {
        None => None,
        Some(_) => {
            place.link = None;
            Some(Due::Down)
        }
    }
}

/// Whether a change of this peer to this state ends the session with the other.
fn is_lost(peer: Addr, from: Addr, state: u16) -> bool
    ensures { result ≡ events.tells peer (change from state) }
{
    same_addr(from, peer) && state != ESTABLISHED
}
