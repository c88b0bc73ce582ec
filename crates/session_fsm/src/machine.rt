//! A session: items come in one by one, and what each of them does goes out (RFC 4271, section 8).
ghost use Rattle.std.specs.Prelude.{◌≡◌, ◌↔◌, ◌+◌, ◌^◌, ◌<◌, IsTrue};
ghost use Rattle.urpf_base.specs.declared.sessions.ResetCause.{ResetCause};
ghost use Rattle.session_fsm.specs.declared.items.Effect.TheVariants.{Reset};
ghost use Rattle.session_fsm.specs.declared.states.State.{State};
ghost use Rattle.session_fsm.specs.declared.states.State.TheVariants.{Idle};
ghost use Rattle.session_fsm.specs.Items.{IsWhole};
ghost use Rattle.session_fsm.specs.Table.{Step, Resets, Outcome, is_established};

use crate::codes::{CEASE, MAXIMUM_PREFIXES_REACHED};
use crate::items::{Effect, Item};
use crate::rows::row;
use crate::states::State;
use std::marker::Model;
use urpf_base::{ResetCause, SessionConfig};

/// A session with one peer. Contracts see its configuration, its state and how many items it took.
#[derive(Drop)]
pub struct Session {
    config: SessionConfig,
    state: State,
    items: u64,
}

impl Model for Session {
    ghost use Rattle.session_fsm.specs.Table.{SessionState};

    ghost Value = { SessionState };

    ghost view = { λ s. record { config = s.config; state = s.state; items = s.items } };
}

impl Session {
    /// A session in Idle that took no item.
    pub fn new(config: SessionConfig) -> Session
        ensures { result ≡ record { config = config; state = Idle; items = 0 } }
    {
        Session {
            config,
            state: State::Idle,
            items: 0,
        }
    }

    /// Takes one item, by the row of the table for the state and the item. No row asks for memory.
    pub fn step<'a>(&mut self, item: Item<'a>) -> Effect<'a>
        requires counted { self.old.items < 2 ^ 63 }
        requires whole { IsWhole item }
        // The next state and the effect are those of the row, and no others are.
        ensures row { Step self.old.config self.old.state item.entry (self.new.state, result) }
        ensures only { (outcome : Outcome)
            → Step self.old.config self.old.state item.entry outcome
            → (self.new.state, result) ≡ outcome }
        // A session is reset exactly where the table says so, and for that cause.
        ensures resets { (cause : ResetCause) → (result ≡ Effect.Reset cause)
            ↔ Resets self.old.config self.old.state item.entry cause }
        ensures items { self.new.items ≡ self.old.items + 1 }
        ensures config { self.new.config ≡ self.old.config }
    {
        let (next, effect) = row(&self.config, self.state, item);
        self.state = next;
        self.items += 1;
        effect
    }

    /// Ends an established session whose peer announced too many prefixes (RFC 4271, section 6.7;
    /// RFC 4486, section 4), and answers the cause. It takes no item.
    pub fn cease(&mut self) -> ResetCause
        requires { IsTrue (is_established self.old.state) }
        ensures cause { result ≡ ResetCause.Fault CEASE MAXIMUM_PREFIXES_REACHED }
        ensures ended { self.new ≡ record self.old { state = Idle } }
    {
        self.state = State::Idle;
        ResetCause::Fault(CEASE, MAXIMUM_PREFIXES_REACHED)
    }

    /// The same session once more.
    pub fn copied(&self) -> Session
        ensures { result ≡ self.now }
    {
        Session {
            config: self.config,
            state: self.state,
            items: self.items,
        }
    }

    /// How many items the session took.
    pub fn items(&self) -> u64
        ensures { result ≡ self.now.items }
    {
        self.items
    }

    /// Whether routes are exchanged.
    pub fn established(&self) -> bool
        ensures { result ≡ is_established self.now.state }
    {
        match self.state {
            State::Idle => false,
            State::OpenSent(_) => false,
            State::OpenConfirm(_, _) => false,
            State::Established(_, _) => true,
        }
    }

    /// What the session is configured with.
    pub fn config(&self) -> &SessionConfig
        ensures { result.now ≡ self.now.config }
    {
        &self.config
    }
}
