//! One session with its feed: events come in, items are taken of them one by one, and the routes of
//! the session and their rows in the engine are changed by each (RFC 4271, sections 3.2 and 8).
ghost use Rattle.std.specs.Prelude.{◌≡◌, ◌<◌, ◌^◌, ◌≤◌, ◌+◌, List, [], ◌∷◌, ◌++◌};
ghost use Rattle.std.specs.Prelude.{Err, IfErr, IsOk, length, true, false};
ghost use Rattle.bgp_wire.specs.Frames.{IsMessage, IsShort, IsFaulty};
ghost use Rattle.bgp_wire.specs.Header.{type_field};
ghost use Rattle.bgp_wire.specs.States.{FitsKind, kind_of};
ghost use Rattle.feed_io.specs.Events.{Event, up, down, elapsed};
ghost use Rattle.urpf_base.specs.Faults.{CountsFault};
ghost use Rattle.session_fsm.specs.declared.items.Effect.{Effect};
ghost use Rattle.control_core.specs.EngineRows.{HasSession, RowsFollow};
ghost use Rattle.control_core.specs.History.{StandsFor};
ghost use Rattle.control_core.specs.Peers.{peer_of};
ghost use Rattle.control_core.specs.TurnParts.{TakesOne, answer_of};
ghost use Rattle.control_core.specs.Turns.{Counts, HadMemory, IsTurnFault, Turned};

use crate::counted_engine::CountedEngine;
use crate::item_step::take_item;
use crate::limits::{Limits, RunFault};
use crate::reassembly::Reassembly;
use adj_rib::AdjRib;
use bgp_wire::{FrameState, MsgKind};
use feed_io::{Feed, FeedEvent};
use rpf_plain::SetEngine;
use session_fsm::{Item, Session};
use std::alloc::Global;
use urpf_base::{Failed, OutOfMemory, ResetCause, SessionConfig};

/// A session, what it holds of its feed, and its routes.
#[derive(Drop)]
pub struct Peering {
    /// The number of the session, from 0.
    pub number: u32,
    pub session: Session,
    pub reassembly: Reassembly,
    pub rib: AdjRib,
    /// The octets that the feed gave.
    pub octets: u64,
    /// Whether the feed came to its end.
    pub ended: bool,
}

/// What one turn did.
#[derive(Clone, Copy, Debug, PartialEq, Eq)]
pub enum Turn {
    /// An item was taken. The cause is told where it ended the session.
    Took(Option<ResetCause>),
    /// Octets came, and no item was taken.
    Octets,
    /// The feed came to its end, and so many octets are left behind the last whole message.
    End(u64),
}

impl Peering {
    /// A session that took no item of its feed.
    pub fn new(alloc: Global, number: u32, config: SessionConfig) -> Peering
        ensures stands { StandsFor [] [] (peer_of result) }
        ensures number { result.number ≡ number }
        ensures config { result.session.config ≡ config }
        ensures items { result.session.items ≡ 0 }
        ensures ended { result.ended ≡ false }
    {
        Peering {
            number,
            session: Session::new(config),
            reassembly: Reassembly::new(),
            rib: AdjRib::new(alloc),
            octets: 0,
            ended: false,
        }
    }

    /// Takes the next item that the octets held have, or asks the feed for its next event.
    pub fn turn<E: SetEngine, F: Feed>(
        &mut self,
        alloc: Global,
        sets: &mut CountedEngine<E>,
        feed: &mut F,
        limits: &Limits,
    ) -> Result<Turn, RunFault>
        requires counted { self.old.session.items < 2 ^ 63 }
        requires ready { HasSession self.old.session.config.iface self.old.rib sets.old }
        ensures stands { (events : List Event) (effects : List Effect)
            → StandsFor events effects (peer_of self.old) → HadMemory result
            → Turned events effects (F.left feed.old) (F.left feed.new) result (peer_of self.new) }
        ensures counts { Counts result (peer_of self.old) (peer_of self.new) limits.now }
        ensures fault { IfErr result (IsTurnFault self.old.number) }
        ensures feed { CountsFault (result ≡ Err (RunFault.ReadFault self.old.number))
            (F.faults feed.old) (F.faults feed.new) }
        ensures number { self.new.number ≡ self.old.number }
        ensures config { self.new.session.config ≡ self.old.session.config }
        ensures rows { RowsFollow self.old.session.config.iface self.old.rib self.new.rib sets.old sets.new }
        // Where memory is refused nothing is changed.
        ensures memory { result ≡ Err RunFault.OutOfMemory → peer_of self.new ≡ peer_of self.old }
        ensures left { result ≡ Err RunFault.OutOfMemory → F.left feed.new ≡ F.left feed.old }
    {
        match self.reassembly.front() {
            FrameState::Whole(kind) => self.take_message(alloc, sets, kind),
            FrameState::Fault(subcode) => self.take_fault(alloc, sets, subcode),
            FrameState::Partial(part) => self.ask(alloc, sets, feed, limits, part),
        }
    }

    /// The message in the framer is taken. Where memory is refused it stays there.
    fn take_message<E: SetEngine>(
        &mut self,
        alloc: Global,
        sets: &mut CountedEngine<E>,
        kind: MsgKind,
    ) -> Result<Turn, RunFault>
        requires counted { self.old.session.items < 2 ^ 63 }
        requires ready { HasSession self.old.session.config.iface self.old.rib sets.old }
        requires message { IsMessage self.old.reassembly.framer }
        requires kind { kind ≡ kind_of (type_field self.old.reassembly.framer) }
        requires fits { FitsKind kind (length self.old.reassembly.framer) }
        ensures takes { TakesOne [] (peer_of self.old) (peer_of self.new) result }
        ensures rows { RowsFollow self.old.session.config.iface self.old.rib self.new.rib sets.old sets.new }
    {
        let item = Item::Message(kind, self.reassembly.framer.body());
        let taken = take_item(alloc, &mut self.session, &mut self.rib, sets, item);
        match taken {
            Ok(reset) => {
                self.reassembly.framer.next();
                Ok(Turn::Took(reset))
            }
            Err(OutOfMemory) => Err(RunFault::OutOfMemory),
        }
    }

    /// The fault of the header in the framer is taken. What comes behind it is dropped.
    fn take_fault<E: SetEngine>(
        &mut self,
        alloc: Global,
        sets: &mut CountedEngine<E>,
        subcode: u8,
    ) -> Result<Turn, RunFault>
        requires counted { self.old.session.items < 2 ^ 63 }
        requires ready { HasSession self.old.session.config.iface self.old.rib sets.old }
        requires faulty { IsFaulty self.old.reassembly.framer subcode }
        ensures takes { TakesOne [] (peer_of self.old) (peer_of self.new) result }
        ensures taken { IsOk result }
        ensures rows { RowsFollow self.old.session.config.iface self.old.rib self.new.rib sets.old sets.new }
    {
        let taken = take_item(
            alloc,
            &mut self.session,
            &mut self.rib,
            sets,
            Item::HeaderFault(subcode),
        );
        self.reassembly.stop();
        answer(taken)
    }

    /// Asks the feed for its next event. The octets held are a part of a message, of so many octets.
    fn ask<E: SetEngine, F: Feed>(
        &mut self,
        alloc: Global,
        sets: &mut CountedEngine<E>,
        feed: &mut F,
        limits: &Limits,
        part: u16,
    ) -> Result<Turn, RunFault>
        requires counted { self.old.session.items < 2 ^ 63 }
        requires ready { HasSession self.old.session.config.iface self.old.rib sets.old }
        requires short { IsShort self.old.reassembly.framer }
        requires part { part ≡ length self.old.reassembly.framer }
        requires none { self.old.reassembly.waiting ≡ [] }
        ensures stands { (events : List Event) (effects : List Effect)
            → StandsFor events effects (peer_of self.old) → HadMemory result
            → Turned events effects (F.left feed.old) (F.left feed.new) result (peer_of self.new) }
        ensures counts { Counts result (peer_of self.old) (peer_of self.new) limits.now }
        ensures fault { IfErr result (IsTurnFault self.old.number) }
        ensures feed { CountsFault (result ≡ Err (RunFault.ReadFault self.old.number))
            (F.faults feed.old) (F.faults feed.new) }
        ensures number { self.new.number ≡ self.old.number }
        ensures config { self.new.session.config ≡ self.old.session.config }
        ensures rows { RowsFollow self.old.session.config.iface self.old.rib self.new.rib sets.old sets.new }
        ensures memory { result ≡ Err RunFault.OutOfMemory → ⊥ }
    {
        let room = limits.octets.saturating_sub(self.octets);
        if room == 0 {
            return Err(RunFault::OctetLimit(self.number));
        }
        match self.reassembly.waiting.fill(feed, room) {
            Ok(FeedEvent::Up) => self.come_up(alloc, sets),
            Ok(FeedEvent::Octets(count)) => Ok(self.hold(count)),
            Ok(FeedEvent::Down) => self.go_down(alloc, sets),
            Ok(FeedEvent::Elapsed(seconds)) => self.pass(alloc, sets, seconds),
            Ok(FeedEvent::End) => {
                self.ended = true;
                Ok(Turn::End(u64::from(part)))
            }
            Err(Failed) => Err(RunFault::ReadFault(self.number)),
        }
    }

    /// The transport came up.
    fn come_up<E: SetEngine>(
        &mut self,
        alloc: Global,
        sets: &mut CountedEngine<E>,
    ) -> Result<Turn, RunFault>
        requires counted { self.old.session.items < 2 ^ 63 }
        requires ready { HasSession self.old.session.config.iface self.old.rib sets.old }
        requires short { IsShort self.old.reassembly.framer }
        requires none { self.old.reassembly.waiting ≡ [] }
        ensures takes { TakesOne (up ∷ []) (peer_of self.old) (peer_of self.new) result }
        ensures taken { IsOk result }
        ensures rows { RowsFollow self.old.session.config.iface self.old.rib self.new.rib sets.old sets.new }
    {
        self.reassembly.begin();
        answer(take_item(alloc, &mut self.session, &mut self.rib, sets, Item::Up))
    }

    /// The transport went down.
    fn go_down<E: SetEngine>(
        &mut self,
        alloc: Global,
        sets: &mut CountedEngine<E>,
    ) -> Result<Turn, RunFault>
        requires counted { self.old.session.items < 2 ^ 63 }
        requires ready { HasSession self.old.session.config.iface self.old.rib sets.old }
        requires short { IsShort self.old.reassembly.framer }
        requires none { self.old.reassembly.waiting ≡ [] }
        ensures takes { TakesOne (down ∷ []) (peer_of self.old) (peer_of self.new) result }
        ensures taken { IsOk result }
        ensures rows { RowsFollow self.old.session.config.iface self.old.rib self.new.rib sets.old sets.new }
    {
        self.reassembly.stop();
        answer(take_item(alloc, &mut self.session, &mut self.rib, sets, Item::Down))
    }

    /// So many seconds passed.
    fn pass<E: SetEngine>(
        &mut self,
        alloc: Global,
        sets: &mut CountedEngine<E>,
        seconds: u32,
    ) -> Result<Turn, RunFault>
        requires counted { self.old.session.items < 2 ^ 63 }
        requires ready { HasSession self.old.session.config.iface self.old.rib sets.old }
        requires short { IsShort self.old.reassembly.framer }
        requires none { self.old.reassembly.waiting ≡ [] }
        ensures takes { TakesOne (elapsed seconds ∷ []) (peer_of self.old) (peer_of self.new) result }
        ensures taken { IsOk result }
        ensures rows { RowsFollow self.old.session.config.iface self.old.rib self.new.rib sets.old sets.new }
    {
        answer(take_item(
            alloc,
            &mut self.session,
            &mut self.rib,
            sets,
            Item::Elapsed(seconds),
        ))
    }

    /// Counts so many octets that came, and drops them where they belong to no connection.
    fn hold(&mut self, count: usize) -> Turn
        requires { self.old.octets + count < 2 ^ 64 }
        ensures turn { result ≡ Turn.Octets }
        ensures octets { self.new.octets ≡ self.old.octets + count }
        ensures kept { self.old.reassembly.receiving ≡ true
            → self.new.reassembly.waiting ≡ self.old.reassembly.waiting }
        ensures dropped { self.old.reassembly.receiving ≡ false → self.new.reassembly.waiting ≡ [] }
        ensures framer { self.new.reassembly.framer ≡ self.old.reassembly.framer }
        ensures receiving { self.new.reassembly.receiving ≡ self.old.reassembly.receiving }
        ensures number { self.new.number ≡ self.old.number }
        ensures session { self.new.session ≡ self.old.session }
        ensures rib { self.new.rib ≡ self.old.rib }
        ensures ended { self.new.ended ≡ self.old.ended }
    {
        self.octets += count as u64;
        if !self.reassembly.receiving {
            self.reassembly.waiting.clear();
        }
        Turn::Octets
    }
}

/// What a turn answers that took an item.
fn answer(taken: Result<Option<ResetCause>, OutOfMemory>) -> Result<Turn, RunFault>
    ensures { result ≡ answer_of taken }
{
    match taken {
        Ok(reset) => Ok(Turn::Took(reset)),
        Err(OutOfMemory) => Err(RunFault::OutOfMemory),
    }
}
