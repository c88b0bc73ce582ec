//! `offline CONFIG BOOK PAIRS S...`: runs a runbook over a table of pairs and the feeds of the sessions
//! of a configuration.
ghost use Rattle.std.specs.Prelude.{◌≡◌, ◌↔◌, ◌⊎◌, ◌<◌, ℕ, IfSome, List, Result, length, map, string_bytes};
ghost use Rattle.urpf_base.specs.Faults.{CountsFault, Rose};
ghost use Rattle.feed_io.specs.Events.{Event};
ghost use Rattle.router_config.specs.Settings.{Settings};
ghost use Rattle.router_config.specs.declared.faults.ConfigFault.{ConfigFault};
ghost use Rattle.runbook.specs.declared.book.BookFault.{BookFault};
ghost use Rattle.runbook.specs.declared.lines.BookLine.{BookLine};
ghost use Rattle.control_core.specs.declared.limits.RunFault.{RunFault};
ghost use Rattle.control_core.specs.Turns.{HadMemory};
ghost use Rattle.urpf_cli.specs.declared.refusals.Refusal.{Refusal};
ghost use Rattle.urpf_cli.specs.declared.refusals.TextRefusal.{TextRefusal};
ghost use Rattle.urpf_cli.specs.Offline.{IsBelowLimits, RanText, TookRunFront};
ghost use Rattle.urpf_cli.specs.Openings.{AreTold, Configures, IsBeforePairs, IsDecided, IsRefused, IsRunbook, Texts};
ghost use Rattle.run_lines.specs.Runs.{CountEach, NoneRose};
ghost use Rattle.run_lines.specs.Slots.{filled, slots_of};
ghost use Rattle.urpf_cli.specs.Statuses.{IsRunStatus, status_of_book, status_of_config, status_of_refusal, status_of_run};
ghost use Rattle.urpf_cli.specs.Words.{AreOfflineWords, nowhere};

use crate::opening::{Opening, open_run};
use crate::refusals::status_of_refusal;
use crate::status::{Object, Status};
use control_core::RunFault;
use feed_io::{BoxedFeed, Feed};
use run_lines::run_book;
use std::alloc::Global;
use urpf_base::{Sink, Source};

/// Runs the book over the feeds of the configured sessions, one slot for each session word, and writes
/// the text of the run. The words are those after the program's name. A feed of any type stands in a
/// slot, and no slot is empty at first. At its end a feed goes out of its slot and is dropped; the others
/// are in their slots at the return.
///
/// The answers come in this order: the words; the read of the configuration or its length, and its
/// first rule that is broken; the same of the book, and its first line that is refused; the same of the
/// table of pairs, and how many pairs it has; the number of sessions; and then the faults of the feeds
/// and of the sink as the run meets them. Before the run begins no feed is asked and nothing is written.
/// The table of pairs is not read before the book is, and not at all where the word of the pairs is
/// `none`.
pub fn offline<S: Source, K: Sink>(
    alloc: Global,
    words: &[String],
    config: &mut S,
    book: &mut S,
    pairs: &mut S,
    feeds: &mut Vec<Option<Box<dyn Feed + Send>>>,
    out: &mut K,
) -> Status
    requires { (are : AreOfflineWords (map string_bytes words.now))
        → length feeds.old.items ≡ length are.sessions }
    // When each answer comes.
    ensures usage { result ≡ Status.Usage ↔ ¬ (AreOfflineWords (map string_bytes words.now)) }
    ensures config { CountsFault (result ≡ Status.ReadFault Object.Config)
        (S.faults config.old) (S.faults config.new) }
    ensures book { CountsFault (result ≡ Status.ReadFault Object.Book)
        (S.faults book.old) (S.faults book.new) }
    ensures pairs { CountsFault (result ≡ Status.ReadFault Object.Pairs)
        (S.faults pairs.old) (S.faults pairs.new) }
    ensures feeds { CountEach ⟦<BoxedFeed as Feed>⟧.faults (λ s. result ≡ Status.ReadFault (Object.Session s))
        feeds.old.items feeds.new.items }
    ensures sink { CountsFault (result ≡ Status.WriteFault) (K.faults out.old) (K.faults out.new) }
    ensures known { IsRunStatus (length feeds.old.items) result }

    // Before the run.
    ensures refused { (r : Refusal) (t : Texts) → IsDecided r → result ≡ status_of_refusal r
        → AreTold (S.left config.old) (S.left book.old) (S.left pairs.old) t
        → IsRefused (map string_bytes words.now) t (length feeds.old.items) r }
    ensures refused_only { (r : Refusal) (t : Texts)
        → AreTold (S.left config.old) (S.left book.old) (S.left pairs.old) t
        → IsRefused (map string_bytes words.now) t (length feeds.old.items) r
        → ¬ Rose (S.faults config.old) (S.faults config.new)
        → ¬ Rose (S.faults book.old) (S.faults book.new)
        → ¬ Rose (S.faults pairs.old) (S.faults pairs.new)
        → (result ≡ status_of_refusal r) ⊎ (result ≡ Status.OutOfMemory) }
    ensures untouched { (r : Refusal) → (status_of_refusal r ≡ Status.OutOfMemory → ⊥)
        → result ≡ status_of_refusal r → (feeds.new ≡ feeds.old) × (out.new ≡ out.old) }
    ensures unread { (r : Refusal) → (status_of_refusal r ≡ Status.OutOfMemory → ⊥)
        → result ≡ status_of_refusal r → IsBeforePairs r → pairs.new ≡ pairs.old }
    ensures misused { result ≡ Status.Usage → (config.new ≡ config.old) × (book.new ≡ book.old)
        × (pairs.new ≡ pairs.old) × (feeds.new ≡ feeds.old) × (out.new ≡ out.old) }
    ensures unasked { (r : Refusal) (t : Texts)
        → AreTold (S.left config.old) (S.left book.old) (S.left pairs.old) t
        → IsRefused (map string_bytes words.now) t (length feeds.old.items) r
        → (feeds.new ≡ feeds.old) × (out.new ≡ out.old) }
    // A text is read only where those before it are good.
    ensures book_after { (r : TextRefusal ConfigFault) → (status_of_config r ≡ Status.OutOfMemory → ⊥)
        → result ≡ status_of_config r → book.new ≡ book.old }
    ensures pairs_after { (r : TextRefusal BookFault) → (status_of_book r ≡ Status.OutOfMemory → ⊥)
        → result ≡ status_of_book r → pairs.new ≡ pairs.old }
    ensures config_before { result ≡ Status.ReadFault Object.Book → IfSome (S.left config.old)
        (λ text. (settings : Settings) × Configures text settings) }
    ensures texts_before { (t : Texts) → result ≡ Status.ReadFault Object.Pairs
        → AreTold (S.left config.old) (S.left book.old) (S.left pairs.old) t
        → (settings : Settings) × (rows : List (ℕ × BookLine)) × Configures t.config settings
        × IsRunbook settings t.book rows }
    // An empty configuration is refused without memory.
    ensures memory_after { result ≡ Status.OutOfMemory
        → IfSome (S.left config.old) (λ text. 0 < length text) }
    ensures nowhere { (are : AreOfflineWords (map string_bytes words.now)) → are.pairs ≡ nowhere
        → pairs.new ≡ pairs.old }

    // What a run comes to, and what the sink took of it.
    ensures ran { (end : Result (Unit {0}) RunFault) (t : Texts) (events : List (List Event))
        → HadMemory end → result ≡ status_of_run end
        → AreTold (S.left config.old) (S.left book.old) (S.left pairs.old) t
        → slots_of ⟦<BoxedFeed as Feed>⟧.left feeds.old.items ≡ map filled events
        → RanText (map string_bytes words.now) t events end (slots_of ⟦<BoxedFeed as Feed>⟧.left feeds.new.items)
        (K.held out.old) (K.held out.new) }
    ensures memory { (t : Texts) (events : List (List Event)) → result ≡ Status.OutOfMemory
        → AreTold (S.left config.old) (S.left book.old) (S.left pairs.old) t
        → slots_of ⟦<BoxedFeed as Feed>⟧.left feeds.old.items ≡ map filled events
        → ((feeds.new ≡ feeds.old) × (out.new ≡ out.old))
        ⊎ TookRunFront (map string_bytes words.now) t events
        (slots_of ⟦<BoxedFeed as Feed>⟧.left feeds.new.items) (K.held out.old) (K.held out.new) }
    // Where nothing fails and no limit is asked past, the run is done.
    ensures done_only { (t : Texts) (events : List (List Event))
        → AreTold (S.left config.old) (S.left book.old) (S.left pairs.old) t
        → slots_of ⟦<BoxedFeed as Feed>⟧.left feeds.old.items ≡ map filled events
        → IsBelowLimits (map string_bytes words.now) t events
        → ¬ Rose (S.faults config.old) (S.faults config.new)
        → ¬ Rose (S.faults book.old) (S.faults book.new)
        → ¬ Rose (S.faults pairs.old) (S.faults pairs.new)
        → NoneRose ⟦<BoxedFeed as Feed>⟧.faults feeds.old.items feeds.new.items
        → ¬ Rose (K.faults out.old) (K.faults out.new)
        → (result ≡ Status.Done) ⊎ (result ≡ Status.OutOfMemory) }
{
    let opening = match open_run(alloc, words, config, book, pairs, feeds.len()) {
        Ok(opening) => opening,
        Err(refusal) => return status_of_refusal(refusal),
    };
    let Opening {
        config,
        book,
        pairs,
    } = opening;
    status_of_end(run_book(alloc, config, &book, &pairs, feeds, out))
}

/// The status of a run.
fn status_of_end(end: Result<(), RunFault>) -> Status
    ensures { result ≡ status_of_run end }
{
    match end {
        Ok(()) => Status::Done,
        Err(RunFault::ReadFault(session)) => Status::ReadFault(Object::Session(session)),
        Err(RunFault::WriteFault) => Status::WriteFault,
        Err(RunFault::ItemLimit(session)) => Status::ItemLimit { session },
        Err(RunFault::OctetLimit(session)) => Status::OctetLimit { session },
        Err(RunFault::OutOfMemory) => Status::OutOfMemory,
    }
}
