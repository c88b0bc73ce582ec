//! The list of all batches that were handed over. The program keeps its length alone, in a word
//! that threads share; the list is there for contracts, which so can say that what one thread saw
//! begins what another one saw later.
ghost use Rattle.std.specs.Prelude.{◌≡◌, ◌+◌, ◌≤◌, ◌++◌, ◌∷◌, ◌⊎◌, [], length, MatchBool};
ghost use mathlib.Core.List.{IsPrefix};
ghost use Rattle.epoch_publish.specs.History.{AreNumbered, head_of};

use cover_table::Batch;
use logbook::{Gain, Offer, Plain, Play, Rule, Seen, Start, Word};
use router_config::Kinds;
use std::marker::{Brand, Model, PhantomData};

/// What holds of the word and of the list at all times.
pub struct Law;

impl Rule<Batch, u64> for Law {
    ghost use Rattle.std.specs.Prelude.{[]};
    ghost use base.Fml.{ftrue};
    ghost use Rattle.epoch_publish.specs.History.{IsKept};

    ghost holds = { λ cells history. IsKept cells history };

    ghost first = { [] };

    ghost hinted = { λ n history. Unit {0} };

    ghost shows = { λ history. [] };

    ghost keeps = { λ names history. ftrue };

    ghost moves = { λ ask earlier later answer. Unit {0} };
}

/// Who adds a batch gains nothing by it.
pub struct Nothing;

impl Gain<Batch, u64> for Nothing {
    ghost use base.Fml.{ftrue};

    ghost after = { λ names about answer. ftrue };
}

/// The step that adds a batch.
pub struct Add;

impl Play<Batch, u64> for Add {
    ghost use Rattle.epoch_publish.specs.History.{Adds};

    ghost then = { Adds };
}

impl Plain<Batch, Batch, u64> for Add {
    ghost use Rattle.std.specs.Prelude.{None};

    ghost ask = { λ batch. batch };

    ghost state = { λ batch. None };
}

/// Whose publications these are, and the interfaces before the first one. It has no value: each
/// call of a program names one by the history that it opened.
pub trait Naming {
    ghost use Rattle.std.specs.Prelude.{ℕ, List};
    ghost use Rattle.logbook.specs.Pages.{Book};
    ghost use Rattle.urpf_base.specs.declared.kinds.Kind.{Kind};

    ghost book: { Book };

    ghost opening: { List (ℕ × Kind) };
}

impl Naming for Brand {
    ghost use Rattle.std.specs.Prelude.{[]};

    ghost book = { record { number = 0; log_name = 0; cells_name = 0 } };

    ghost opening = { [] };
}

/// A history in which nothing was handed over yet, and which has no name, with the interfaces before
/// its first batch. Contracts see who it is and these interfaces.
#[derive(Drop)]
pub struct Opened {
    head: Word<Batch, u64, Law>,
    seen: Seen<Batch, u64, Law>,
    kinds: Kinds,
}

impl Model for Opened {
    ghost use Rattle.std.specs.Prelude.{◌≡◌, []};
    ghost use Rattle.epoch_publish.specs.History.{head_of};
    ghost use Rattle.epoch_publish.specs.Publications.{Beginning};

    ghost Value = { Beginning };

    ghost view = { λ o. record { identity = o.seen.book; opening = o.kinds } };

    ghost invariant = { λ o. (o.seen.log ≡ []) × (o.head ≡ head_of o.seen.book) };
}

impl Opened {
    /// A new history that begins with these interfaces. It takes no memory.
    pub fn new(kinds: Kinds) -> Opened
        ensures opening { result.opening ≡ kinds }
    {
        let (seen, mut first, _second) = Seen::open(Start::alone(), 0, 0);
        Opened {
            head: Word::tracked(0, &mut first),
            seen,
            kinds,
        }
    }

    /// The word of the history, the beginning of it that has no batch, and the interfaces.
    pub(crate) fn named<J: Naming>(self) -> (Book<J>, Front<J>, Kinds)
        requires { self.identity ≡ J.book }
        ensures empty { result.1 ≡ [] }
        ensures kinds { result.2 ≡ self.opening }
    {
        let Opened { head, seen, kinds } = self;
        (
            Book {
                head,
                of: PhantomData,
            },
            Front {
                number: 0,
                seen,
                of: PhantomData,
            },
            kinds,
        )
    }
}

/// The word that threads share: the length of the history.
#[derive(Drop)]
pub struct Book<J: Naming> {
    head: Word<Batch, u64, Law>,
    of: PhantomData<J>,
    ghost head_is: { head ≡ head_of J.book },
}

/// A beginning of the history that was seen. Contracts see it as its batches.
#[derive(Drop)]
pub struct Front<J: Naming> {
    number: u64,
    seen: Seen<Batch, u64, Law>,
    of: PhantomData<J>,
}

impl<J: Naming> Model for Front<J> {
    ghost use Rattle.std.specs.Prelude.{◌≡◌, List, length};
    ghost use Rattle.cover_table.specs.declared.batch.Batch.{Batch};
    ghost use Rattle.epoch_publish.specs.History.{AreNumbered};

    ghost Value = { List Batch };

    ghost view = { λ f. f.seen.log };

    ghost invariant = { λ f. (f.number ≡ length f.seen.log) × (f.seen.book ≡ J.book) × AreNumbered f.seen.log };
}

impl<J: Naming> Front<J> {
    /// How many batches it has, which is the number of the last one.
    pub fn len(&self) -> u64
        ensures length { result ≡ length self.now }
        ensures numbered { AreNumbered self.now }
    {
        self.number
    }

    /// A copy. It takes no memory.
    pub fn again(&self) -> Front<J>
        ensures { result ≡ self.now }
    {
        Front {
            number: self.number,
            seen: self.seen.again(),
            of: PhantomData,
        }
    }

    /// That the shorter of two begins the longer one. Nothing is done.
    pub fn after(&self, shorter: &Front<J>)
        requires { length shorter.now ≤ length self.now }
        ensures { IsPrefix shorter.now self.now }
    {
        let mut both = self.seen.again();
        both.learn(&shorter.seen);
    }

    /// The longer of two, which both begin.
    pub fn longer(&self, other: &Front<J>) -> Front<J>
        ensures one { (result ≡ self.now) ⊎ (result ≡ other.now) }
        ensures this { IsPrefix self.now result }
        ensures that { IsPrefix other.now result }
    {
        if self.len() < other.len() {
            other.after(self);
            other.after(other);
            return other.again();
        }
        self.after(other);
        self.after(self);
        self.again()
    }

    /// Adds the next batch, and answers whether it did. It did not where the history is longer than
    /// what was seen.
    pub(crate) fn add(&mut self, book: &Book<J>, batch: &Batch) -> bool
        requires next { batch.now.number ≡ length self.old + 1 }
        ensures { MatchBool result (self.new ≡ self.old ++ batch.now ∷ []) (IsPrefix self.old self.new) }
    {
        let mut offer: Offer<Batch, u64, Law, Nothing> = self
            .seen
            .plain::<Nothing, Batch, Add>(batch);
        let mut pen = self.seen.no_pen();
        let number = self.number;
        let next = batch.number;
        let found = book
            .head
            .compare_exchange::<Add, Nothing>(number, next, &mut self.seen, &mut offer, &mut pen);
        self.number = if found == number { next } else { found };
        found == number
    }
}
