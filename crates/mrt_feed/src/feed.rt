//! A feed over an MRT recording: the octets of its source come in, and the events of the session with
//! one peer go out.
//!
//! | Record of the peer | While the transport is down | While it is up |
//! |---|---|---|
//! | an OPEN or a KEEPALIVE | nothing | nothing |
//! | another message, of the width of the made OPEN | up, a made OPEN and KEEPALIVE, the message | the message |
//! | another message, of another width | the same | down, up, a made OPEN and KEEPALIVE, the message |
//! | a state change to another state than Established | nothing | down |
//! | a state change to Established | nothing | nothing |
//!
//! Where a recording ends within a message, its octets that are there come first, and then the feed
//! fails. After one failure every later call fails.
ghost use Rattle.std.specs.Prelude.{◌≡◌, ◌⊎◌, ◌+◌, ◌-◌, ◌<◌, ◌≤◌, [], length, take, option_map, IfSome};
ghost use Rattle.std.specs.Prelude.{IsErr, IfOk, OnErr, OnOk, Ok, true, false, None, Some};
ghost use Rattle.std.specs.Io.KnownBytes.{Consumes, IsAtEnd, Keeps};
ghost use Rattle.urpf_base.specs.Faults.{HasCause, Rose};
ghost use Rattle.urpf_base.specs.declared.address.Addr.{Addr};
ghost use Rattle.feed_io.specs.Events.{GivesAtMost, GivesNext};
ghost use Rattle.feed_io.specs.Memory.{counted_up};
ghost use Rattle.feed_io.specs.TraceFeeds.{KeepsCount};
ghost use Rattle.mrt_feed.specs.MrtEvents.{mrt_events};
ghost use Rattle.mrt_feed.specs.MrtFeeds.{events_left};
ghost use Rattle.mrt_feed.specs.Places.{Halts, IsAtRecord, IsBetween, IsEnded, Ran, Stops, due_given};
ghost use Rattle.mrt_feed.specs.Records.{head_length};
ghost use Rattle.feed_io.specs.declared.limited.TheConstants as limit;

use crate::progress::{Due, Progress, take_head};
use feed_io::{Feed, FeedEvent, Limited};
use std::marker::Model;
use urpf_base::{Addr, Failed, Source};

/// The octets of the longest head.
const HEAD_OCTETS: usize = 79;

/// How many octets are passed over at once.
const SKIP_OCTETS: usize = 512;

/// A recording, of which at most 4,398,046,511,104 octets are read. Contracts see it as its source,
/// how many octets were read, the peer, the place where it stands, whether a call failed, and how
/// many did.
#[derive(Drop)]
pub struct MrtFeed<S: Source + Drop> {
    input: Limited<S>,
    peer: Addr,
    place: Progress,
    failed: bool,
    faults: u64,
}

impl<S: Source + Drop> Model for MrtFeed<S> {
    ghost use Rattle.std.specs.Coded.{codes};
    ghost use Rattle.mrt_feed.specs.MrtFeeds.{MrtState};

    ghost Value = { MrtState S };

    ghost coded = { Prim.hlevel (codes, S.code) };

    ghost view = { λ f. record {
      source = f.input.source;
      taken = f.input.taken;
      peer = f.peer;
      place = f.place;
      failed = f.failed;
      faults = f.faults;
    } };
}

impl<S: Source + Drop> MrtFeed<S> {
    /// A feed of the session with this peer. Takes no memory, and reads nothing yet.
    pub fn new(source: S, peer: Addr) -> MrtFeed<S>
        ensures left { events_left peer result.place (S.left result.source)
            ≡ option_map (mrt_events peer) (S.left source) }
        ensures source { result.source ≡ source }
        ensures taken { result.taken ≡ 0 }
        ensures peer { result.peer ≡ peer }
        ensures failed { result.failed ≡ false }
        ensures faults { result.faults ≡ 0 }
    {
        MrtFeed {
            input: Limited::new(source),
            peer,
            place: Progress::new(),
            failed: false,
            faults: 0,
        }
    }

    /// One more call failed, and each later one does.
    fn fail(&mut self)
        ensures is { self.new ≡ record self.old { failed = true; faults = counted_up self.old.faults } }
        ensures later { self.old.faults ≤ self.new.faults }
    {
        self.failed = true;
        self.faults = self.faults.saturating_add(1);
    }
}

impl<S: Source + Drop> Feed for MrtFeed<S> {
    ghost left = { λ f. events_left f.peer f.place (S.left f.source) };

    ghost faults = { λ f. f.faults };

    fn next(&mut self, buf: &mut [u8]) -> Result<FeedEvent, Failed>
        requires { 0 < length buf.old }
        ensures bound { GivesAtMost result buf.new }
        ensures events { GivesNext (events_left self.old.peer self.old.place (S.left self.old.source))
            (events_left self.new.peer self.new.place (S.left self.new.source)) result buf.new }
        ensures cause { HasCause self.old.faults self.new.faults result }
        ensures err { OnErr result (self.new.faults ≡ counted_up self.old.faults) }
        ensures peer { self.new.peer ≡ self.old.peer }
        // Once it failed, it fails in every later call, and leaves the source alone.
        ensures again { self.old.failed ≡ true → IsErr result }
        ensures alone { self.old.failed ≡ true → (self.new.source ≡ self.old.source)
            × (self.new.taken ≡ self.old.taken) × (self.new.place ≡ self.old.place) }
        ensures fails { OnErr result (self.new.failed ≡ true) }
        ensures goes_on { OnOk result (self.new.failed ≡ false) }
        // It fails only by the source, by the format or the limit, or since it failed before.
        ensures failed { OnErr result (Rose (S.faults self.old.source) (S.faults self.new.source)
            ⊎ (IfSome (S.left self.old.source) (Stops self.old.peer self.old.place self.old.taken)
            ⊎ (self.old.failed ≡ true))) }
        // A failed read is not asked again: it ends the call.
        ensures later { S.faults self.old.source ≤ S.faults self.new.source }
        ensures once { S.faults self.new.source ≤ S.faults self.old.source + 1 }
        ensures kept { OnOk result (S.faults self.new.source ≡ S.faults self.old.source) }
        // All octets that it reads count towards the limit.
        ensures counted { OnOk result (KeepsCount (S.left self.old.source) self.old.taken
            (S.left self.new.source) self.new.taken) }
        ensures grows { self.old.taken ≤ self.new.taken }
        // Where the format or the limit stops it, it fails.
        ensures stops { IfSome (S.left self.old.source) (λ text.
            Stops self.old.peer self.old.place self.old.taken text → IsErr result) }
    {
        if self.failed {
            self.fail();
            return Err(Failed);
        }
        match next_event(&mut self.input, &mut self.place, self.peer, buf) {
            Ok(event) => Ok(event),
            Err(_) => {
                self.fail();
                Err(Failed)
            }
        }
    }
}

/// The first event that is left, or a first part of its octets.
fn next_event<S: Source + Drop>(
    input: &mut Limited<S>,
    place: &mut Progress,
    peer: Addr,
    buf: &mut [u8],
) -> Result<FeedEvent, Failed>
    requires { 0 < length buf.old }
    ensures bound { GivesAtMost result buf.new }
    ensures events { GivesNext (events_left peer place.old (S.left input.old.source))
        (events_left peer place.new (S.left input.new.source)) result buf.new }
    ensures later { S.faults input.old.source ≤ S.faults input.new.source }
    ensures once { S.faults input.new.source ≤ S.faults input.old.source + 1 }
    ensures kept { OnOk result (S.faults input.new.source ≡ S.faults input.old.source) }
    ensures failed { OnErr result (Rose (S.faults input.old.source) (S.faults input.new.source)
        ⊎ IfSome (S.left input.old.source) (Stops peer place.old input.old.taken)) }
    ensures counted { OnOk result (KeepsCount (S.left input.old.source) input.old.taken
        (S.left input.new.source) input.new.taken) }
    ensures grows { input.old.taken ≤ input.new.taken }
    ensures stops { IfSome (S.left input.old.source) (λ text.
        Stops peer place.old input.old.taken text → IsErr result) }
{
    if place.unsent.is_empty() && place.owed > 0 {
        return give_owed(input, place, peer, buf);
    }
    match due(input, place, peer) {
        Err(_) => Err(Failed),
        Ok(None) => Ok(FeedEvent::End),
        Ok(Some(Due::Up)) => Ok(FeedEvent::Up),
        Ok(Some(Due::Down)) => Ok(FeedEvent::Down),
        Ok(Some(Due::Octets)) => Ok(FeedEvent::Octets(place.unsent.give(buf))),
    }
}

/// A first part of the octets of a message that are still in the source.
fn give_owed<S: Source + Drop>(
    input: &mut Limited<S>,
    place: &mut Progress,
    peer: Addr,
    buf: &mut [u8],
) -> Result<FeedEvent, Failed>
    requires room { 0 < length buf.old }
    requires unsent { place.old.unsent ≡ [] }
    requires some { 0 < place.old.owed }
    ensures bound { GivesAtMost result buf.new }
    ensures events { GivesNext (events_left peer place.old (S.left input.old.source))
        (events_left peer place.new (S.left input.new.source)) result buf.new }
    ensures later { S.faults input.old.source ≤ S.faults input.new.source }
    ensures once { S.faults input.new.source ≤ S.faults input.old.source + 1 }
    ensures kept { OnOk result (S.faults input.new.source ≡ S.faults input.old.source) }
    ensures failed { OnErr result (Rose (S.faults input.old.source) (S.faults input.new.source)
        ⊎ IfSome (S.left input.old.source) (Stops peer place.old input.old.taken)) }
    ensures counted { OnOk result (KeepsCount (S.left input.old.source) input.old.taken
        (S.left input.new.source) input.new.taken) }
    ensures grows { input.old.taken ≤ input.new.taken }
    ensures stops { IfSome (S.left input.old.source) (λ text.
        Stops peer place.old input.old.taken text → IsErr result) }
{
    match read_piece(input, place.owed as usize, buf) {
        Err(_) => Err(Failed),
        Ok(given) => {
            place.owed -= given as u32;
            Ok(FeedEvent::Octets(given))
        }
    }
}

/// At least one and at most so many of the octets that come next.
fn read_piece<S: Source + Drop>(
    input: &mut Limited<S>,
    count: usize,
    buf: &mut [u8],
) -> Result<usize, Failed>
    requires room { 0 < length buf.old }
    requires some { 0 < count }
    ensures bound { IfOk result (λ n. (1 ≤ n) × (n ≤ length buf.new) × (n ≤ count)) }
    ensures octets { IfOk result (λ n. Consumes (S.left input.old.source) (S.left input.new.source) (take n buf.new)) }
    ensures more { OnOk result (input.old.taken < limit.FILE_OCTETS) }
    ensures taken { IfOk result (λ n. input.new.taken ≡ input.old.taken + n) }
    ensures within { OnOk result (input.new.taken ≤ limit.FILE_OCTETS) }
    ensures unread { OnErr result (input.new.taken ≡ input.old.taken) }
    ensures rest { OnErr result (Keeps (S.left input.old.source) (S.left input.new.source)) }
    ensures grows { input.old.taken ≤ input.new.taken }
    ensures later { S.faults input.old.source ≤ S.faults input.new.source }
    ensures once { S.faults input.new.source ≤ S.faults input.old.source + 1 }
    ensures kept { OnOk result (S.faults input.new.source ≡ S.faults input.old.source) }
    ensures failed { OnErr result (Rose (S.faults input.old.source) (S.faults input.new.source)
        ⊎ ((limit.FILE_OCTETS ≤ input.old.taken) ⊎ IsAtEnd (S.left input.new.source))) }
{
    let want = count.min(buf.len());
    let given = input.read(&mut buf[..want])?;
    if given == 0 {
        return Err(Failed);
    }
    Ok(given)
}

/// What is due: octets in memory, or what the next record that tells something makes due. None at the
/// end of the recording.
fn due<S: Source + Drop>(
    input: &mut Limited<S>,
    place: &mut Progress,
    peer: Addr,
) -> Result<Option<Due>, Failed>
    requires { place.old.unsent ≡ [] → place.old.owed ≡ 0 }
    ensures ran { Ran peer (S.left input.old.source) input.old.taken place.old
        (S.left input.new.source) input.new.taken place.new (due_given result) }
    ensures octets { result ≡ Ok (Some Due.Octets) → 0 < length place.new.unsent }
    ensures ended { result ≡ Ok None → IsEnded place.new input.new.taken (S.left input.new.source) }
    ensures failed { OnErr result (Rose (S.faults input.old.source) (S.faults input.new.source)
        ⊎ IfSome (S.left input.new.source) (Halts peer place.new input.new.taken)) }
    ensures later { S.faults input.old.source ≤ S.faults input.new.source }
    ensures once { S.faults input.new.source ≤ S.faults input.old.source + 1 }
    ensures kept { OnOk result (S.faults input.new.source ≡ S.faults input.old.source) }
    ensures grows { input.old.taken ≤ input.new.taken }
{
    if !place.unsent.is_empty() {
        return Ok(Some(Due::Octets));
    }
    find(input, place, peer)
}

/// What the next record that tells something makes due. None at the end of the recording.
fn find<S: Source + Drop>(
    input: &mut Limited<S>,
    place: &mut Progress,
    peer: Addr,
) -> Result<Option<Due>, Failed>
    requires { IsBetween place.old }
    ensures ran { Ran peer (S.left input.old.source) input.old.taken place.old
        (S.left input.new.source) input.new.taken place.new (due_given result) }
    ensures octets { result ≡ Ok (Some Due.Octets) → 0 < length place.new.unsent }
    ensures ended { result ≡ Ok None → IsEnded place.new input.new.taken (S.left input.new.source) }
    ensures failed { OnErr result (Rose (S.faults input.old.source) (S.faults input.new.source)
        ⊎ IfSome (S.left input.new.source) (Halts peer place.new input.new.taken)) }
    ensures later { S.faults input.old.source ≤ S.faults input.new.source }
    ensures once { S.faults input.new.source ≤ S.faults input.old.source + 1 }
    ensures kept { OnOk result (S.faults input.new.source ≡ S.faults input.old.source) }
    ensures grows { input.old.taken ≤ input.new.taken }
{
    loop {
        let whole = next_head(input, place)?;
        if !whole {
            return Ok(None);
        }
        let due = take_head(place, peer)?;
        match due {
            Some(found) => return Ok(Some(found)),
            None => {}
        }
    }
}

/// Reads up to the end of the next head. False at the end of the recording.
fn next_head<S: Source + Drop>(input: &mut Limited<S>, place: &mut Progress) -> Result<bool, Failed>
    requires { IsBetween place.old }
    ensures ran { (peer : Addr) → Ran peer (S.left input.old.source) input.old.taken place.old
        (S.left input.new.source) input.new.taken place.new [] }
    ensures whole { result ≡ Ok true → length place.new.head ≡ head_length place.new.head }
    ensures start { result ≡ Ok true → IsAtRecord place.new }
    ensures ended { result ≡ Ok false → IsEnded place.new input.new.taken (S.left input.new.source) }
    ensures failed { OnErr result (Rose (S.faults input.old.source) (S.faults input.new.source)
        ⊎ ((peer : Addr) → IfSome (S.left input.new.source) (Halts peer place.new input.new.taken))) }
    ensures room { limit.FILE_OCTETS - input.new.taken + length place.new.head
        ≤ limit.FILE_OCTETS - input.old.taken + length place.old.head }
    ensures later { S.faults input.old.source ≤ S.faults input.new.source }
    ensures once { S.faults input.new.source ≤ S.faults input.old.source + 1 }
    ensures kept { OnOk result (S.faults input.new.source ≡ S.faults input.old.source) }
    ensures grows { input.old.taken ≤ input.new.taken }
{
    pass_over(input, place)?;
    fill_whole(input, place)
}

/// Takes what is passed over out of the source.
fn pass_over<S: Source + Drop>(input: &mut Limited<S>, place: &mut Progress) -> Result<(), Failed>
    requires { IsBetween place.old }
    ensures ran { (peer : Addr) → Ran peer (S.left input.old.source) input.old.taken place.old
        (S.left input.new.source) input.new.taken place.new [] }
    ensures start { OnOk result (IsAtRecord place.new) }
    ensures head { place.new.head ≡ place.old.head }
    ensures failed { OnErr result (Rose (S.faults input.old.source) (S.faults input.new.source)
        ⊎ ((peer : Addr) → IfSome (S.left input.new.source) (Halts peer place.new input.new.taken))) }
    ensures later { S.faults input.old.source ≤ S.faults input.new.source }
    ensures once { S.faults input.new.source ≤ S.faults input.old.source + 1 }
    ensures kept { OnOk result (S.faults input.new.source ≡ S.faults input.old.source) }
    ensures grows { input.old.taken ≤ input.new.taken }
{
    while place.skip > 0 {
        skip_piece(input, place)?;
    }
    Ok(())
}

/// Takes a piece of what is passed over out of the source.
fn skip_piece<S: Source + Drop>(input: &mut Limited<S>, place: &mut Progress) -> Result<(), Failed>
    requires between { IsBetween place.old }
    requires some { 0 < place.old.skip }
    ensures ran { (peer : Addr) → Ran peer (S.left input.old.source) input.old.taken place.old
        (S.left input.new.source) input.new.taken place.new [] }
    ensures between { IsBetween place.new }
    ensures head { place.new.head ≡ place.old.head }
    ensures less { OnOk result (place.new.skip < place.old.skip) }
    ensures failed { OnErr result (Rose (S.faults input.old.source) (S.faults input.new.source)
        ⊎ ((peer : Addr) → IfSome (S.left input.new.source) (Halts peer place.new input.new.taken))) }
    ensures later { S.faults input.old.source ≤ S.faults input.new.source }
    ensures once { S.faults input.new.source ≤ S.faults input.old.source + 1 }
    ensures kept { OnOk result (S.faults input.new.source ≡ S.faults input.old.source) }
    ensures grows { input.old.taken ≤ input.new.taken }
{
    let mut piece = [0u8; SKIP_OCTETS];
    match read_piece(input, place.skip as usize, &mut piece) {
        Err(_) => Err(Failed),
        Ok(count) => {
            place.skip -= count as u32;
            Ok(())
        }
    }
}

/// Reads until the head of the next record is whole. False where the source ends before the first
/// octet of it, and a failure where it ends within it.
fn fill_whole<S: Source + Drop>(
    input: &mut Limited<S>,
    place: &mut Progress,
) -> Result<bool, Failed>
    requires { IsAtRecord place.old }
    ensures ran { (peer : Addr) → Ran peer (S.left input.old.source) input.old.taken place.old
        (S.left input.new.source) input.new.taken place.new [] }
    ensures whole { result ≡ Ok true → length place.new.head ≡ head_length place.new.head }
    ensures start { result ≡ Ok true → IsAtRecord place.new }
    ensures ended { result ≡ Ok false → IsEnded place.new input.new.taken (S.left input.new.source) }
    ensures failed { OnErr result (Rose (S.faults input.old.source) (S.faults input.new.source)
        ⊎ ((peer : Addr) → IfSome (S.left input.new.source) (Halts peer place.new input.new.taken))) }
    ensures room { limit.FILE_OCTETS - input.new.taken + length place.new.head
        ≤ limit.FILE_OCTETS - input.old.taken + length place.old.head }
    ensures later { S.faults input.old.source ≤ S.faults input.new.source }
    ensures once { S.faults input.new.source ≤ S.faults input.old.source + 1 }
    ensures kept { OnOk result (S.faults input.new.source ≡ S.faults input.old.source) }
    ensures grows { input.old.taken ≤ input.new.taken }
{
    let whole = fill(input, place)?;
    if whole {
        return Ok(true);
    }
    if place.head.octets().is_empty() {
        return Ok(false);
    }
    Err(Failed)
}

/// Reads until the head of the next record is whole. False where the source ends before.
fn fill<S: Source + Drop>(input: &mut Limited<S>, place: &mut Progress) -> Result<bool, Failed>
    requires { IsAtRecord place.old }
    ensures ran { (peer : Addr) → Ran peer (S.left input.old.source) input.old.taken place.old
        (S.left input.new.source) input.new.taken place.new [] }
    ensures start { IsAtRecord place.new }
    ensures whole { result ≡ Ok true → length place.new.head ≡ head_length place.new.head }
    ensures short { result ≡ Ok false → length place.new.head < head_length place.new.head }
    ensures ended { result ≡ Ok false → IsAtEnd (S.left input.new.source) }
    ensures within { result ≡ Ok false → input.new.taken < limit.FILE_OCTETS }
    ensures failed { OnErr result (Rose (S.faults input.old.source) (S.faults input.new.source)
        ⊎ ((peer : Addr) → IfSome (S.left input.new.source) (Halts peer place.new input.new.taken))) }
    ensures room { limit.FILE_OCTETS - input.new.taken + length place.new.head
        ≤ limit.FILE_OCTETS - input.old.taken + length place.old.head }
    ensures later { S.faults input.old.source ≤ S.faults input.new.source }
    ensures once { S.faults input.new.source ≤ S.faults input.old.source + 1 }
    ensures kept { OnOk result (S.faults input.new.source ≡ S.faults input.old.source) }
    ensures grows { input.old.taken ≤ input.new.taken }
{
    while place.head.missing() > 0 {
        let more = fill_piece(input, place)?;
        if !more {
            return Ok(false);
        }
    }
    Ok(true)
}

/// Reads a piece of the head of the next record. False at the end of the source.
fn fill_piece<S: Source + Drop>(
    input: &mut Limited<S>,
    place: &mut Progress,
) -> Result<bool, Failed>
    requires start { IsAtRecord place.old }
    requires short { length place.old.head < head_length place.old.head }
    ensures ran { (peer : Addr) → Ran peer (S.left input.old.source) input.old.taken place.old
        (S.left input.new.source) input.new.taken place.new [] }
    ensures start { IsAtRecord place.new }
    ensures longer { result ≡ Ok true → length place.old.head < length place.new.head }
    ensures same { result ≡ Ok false → place.new.head ≡ place.old.head }
    ensures ended { result ≡ Ok false → IsAtEnd (S.left input.new.source) }
    ensures within { result ≡ Ok false → input.new.taken < limit.FILE_OCTETS }
    ensures failed { OnErr result (Rose (S.faults input.old.source) (S.faults input.new.source)
        ⊎ ((peer : Addr) → IfSome (S.left input.new.source) (Halts peer place.new input.new.taken))) }
    ensures room { limit.FILE_OCTETS - input.new.taken + length place.new.head
        ≤ limit.FILE_OCTETS - input.old.taken + length place.old.head }
    ensures later { S.faults input.old.source ≤ S.faults input.new.source }
    ensures once { S.faults input.new.source ≤ S.faults input.old.source + 1 }
    ensures kept { OnOk result (S.faults input.new.source ≡ S.faults input.old.source) }
    ensures grows { input.old.taken ≤ input.new.taken }
{
    let mut piece = [0u8; HEAD_OCTETS];
    let missing = place.head.missing();
    match input.read(&mut piece[..missing]) {
        Err(_) => Err(Failed),
        Ok(count) => {
            place.head.append(&piece[..count]);
            Ok(count > 0)
        }
    }
}
