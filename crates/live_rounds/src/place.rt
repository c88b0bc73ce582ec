//! Who checks the packets of a worker in a live run.
ghost use Rattle.std.specs.Prelude.{◌≡◌, ◌⊎◌, None, Some, IsFalse, IsTrue};
ghost use mathlib.Core.List.{IsPrefix};
ghost use Rattle.urpf_base.specs.Faults.{Rose};
ghost use Rattle.live_rounds.specs.Seats.{count_of, identity_of, list_of, opening_of};

use epoch_publish::{Checker, Naming, NoPass, Note, Pass};
use urpf_base::{Addr, Verdict};

/// The place of a worker: its pass, where it was given one.
#[derive(Drop)]
pub enum Seat<J: Naming> {
    /// With a pass.
    Seated(Pass<J>),
    /// Without one.
    Standing(NoPass),
}

impl<J: Naming> Checker for Seat<J> {
    ghost use Rattle.live_rounds.specs.Seats.{count_of, identity_of, list_of, opening_of};

    ghost identity = { identity_of };

    ghost opening = { opening_of };

    ghost list = { list_of };

    ghost count = { count_of };

    fn check(&mut self, iface: u16, source: Option<Addr>) -> Option<(u64, Verdict)> {
        match self {
            Seat::Seated(pass) => pass.check(iface, source),
            Seat::Standing(none) => none.check(iface, source),
        }
    }

    fn number(&self) -> u64 {
        match self {
            Seat::Seated(pass) => pass.number(),
            Seat::Standing(none) => Checker::number(none),
        }
    }
}

impl<J: Naming> Seat<J> {
    /// Takes a note in, and is asked one check more, of which no line tells. Answers whether that check
    /// was answered.
    pub fn settle(&mut self, note: Note<J>) -> bool
        ensures kept { (identity_of self.new ≡ identity_of self.old) × (opening_of self.new ≡ opening_of self.old) }
        ensures grows { IsPrefix (list_of self.old) (list_of self.new) }
        ensures follows { (identity_of self.new ≡ None) ⊎ IsPrefix note.list (list_of self.new) }
        ensures known { IsTrue result → ¬ (identity_of self.new ≡ None) }
        ensures unknown { IsFalse result → (identity_of self.new ≡ None) ⊎ Rose (count_of self.old) (count_of self.new) }
    {
        match self {
            Seat::Seated(pass) => {
                pass.learn(note);
                pass.check(0, None).is_some()
            }
            Seat::Standing(_) => false,
        }
    }
}
