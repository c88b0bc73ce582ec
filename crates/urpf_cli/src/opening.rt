//! What comes before a run: words, the sources of a configuration, a runbook and a table of pairs, and
//! a number of sessions come in, and what was read goes out, or why no run begins.
ghost use Rattle.std.specs.Prelude.{◌≡◌, ◌⊎◌, ◌↔◌, ℕ, Err, IfErr, IfOk, IfSome, List, Ok};
ghost use Rattle.std.specs.Prelude.{◌≤◌, ◌<◌, Option, Some, length, map, string_bytes};
ghost use Rattle.std.specs.Result.{IsErrAnd};
ghost use Rattle.urpf_base.specs.Faults.{CountsFault};
ghost use Rattle.router_config.specs.declared.faults.ConfigFault.{ConfigFault};
ghost use Rattle.router_config.specs.Settings.{Settings};
ghost use Rattle.roa_irr.specs.Tables.{Table};
ghost use Rattle.runbook.specs.Book.{AreConfiguredFor};
ghost use Rattle.runbook.specs.declared.book.BookFault.{BookFault};
ghost use Rattle.runbook.specs.declared.lines.BookLine.{BookLine};
ghost use Rattle.urpf_cli.specs.declared.refusals.Refusal.{Refusal};
ghost use Rattle.urpf_cli.specs.declared.refusals.TextRefusal.{TextRefusal};
ghost use Rattle.urpf_cli.specs.declared.refusals.TooManyPairs.{TooManyPairs};
ghost use Rattle.urpf_cli.specs.Openings.{AreTold, Configures, IsBookRefused, IsConfigRefused, IsDecided, IsFailure};
ghost use Rattle.urpf_cli.specs.Openings.{IsReady, IsRefused, IsRunbook, Opens, Texts};
ghost use Rattle.urpf_cli.specs.Statuses.{status_of_refusal};
ghost use Rattle.urpf_cli.specs.TextRefusals.{IsTextFailure};
ghost use Rattle.urpf_cli.specs.declared.status.Status.{Status};
ghost use Rattle.urpf_cli.specs.Words.{AreOfflineWords, nowhere};

use crate::pair_table::open_pairs;
use crate::refusals::{Refusal, TextRefusal};
use crate::words::asked_pairs;
use roa_irr::Pairs;
use router_config::{Config, ConfigFault, ReadConfig, read_config};
use runbook::{Book, BookFault, ReadBook, read_book};
use std::alloc::Global;
use urpf_base::{Source, TextFault, read_text};

/// The most octets of a configuration.
pub const CONFIG_OCTETS: usize = 1_048_576;

/// The most octets of a runbook.
pub const BOOK_OCTETS: usize = 1_048_576;

/// What a run begins with.
#[derive(Drop)]
pub struct Opening {
    /// The configuration, which has as many sessions as were given.
    pub config: Config,
    /// The runbook, over that configuration.
    pub book: Book,
    /// The table of pairs. None where the pairs come from nowhere.
    pub pairs: Option<Pairs>,
}

/// What `offline` begins with, where so many sessions are given. What is refused is told in this
/// order: the words; the read of the configuration or its length, and its first rule that is broken;
/// the read of the runbook or its length, and its first line that is refused; the read of the table of
/// pairs or its length, and how many pairs it has; the number of sessions.
pub fn open_run<S: Source>(
    alloc: Global,
    words: &[String],
    config: &mut S,
    book: &mut S,
    pairs: &mut S,
    given: usize,
) -> Result<Opening, Refusal>
    ensures found { IfOk result (λ o. AreOfflineWords (map string_bytes words.now)
        × ((t : Texts) → AreTold (S.left config.old) (S.left book.old) (S.left pairs.old) t
        → Opens (map string_bytes words.now) t given o.config o.book o.pairs)) }
    ensures only { (t : Texts) (settings : Settings) (rows : List (ℕ × BookLine)) (table : Option Table)
        → AreTold (S.left config.old) (S.left book.old) (S.left pairs.old) t
        → Opens (map string_bytes words.now) t given settings rows table
        → (result ≡ Ok (record { config = settings; book = rows; pairs = table })) ⊎ IsErrAnd result IsFailure }
    ensures refused { IfErr result (λ r. IsDecided r → (t : Texts)
        → AreTold (S.left config.old) (S.left book.old) (S.left pairs.old) t
        → IsRefused (map string_bytes words.now) t given r) }
    ensures refused_only { (r : Refusal) (t : Texts)
        → AreTold (S.left config.old) (S.left book.old) (S.left pairs.old) t
        → IsRefused (map string_bytes words.now) t given r
        → (result ≡ Err r) ⊎ IsErrAnd result IsFailure }
    ensures misused { result ≡ Err Refusal.Misused ↔ ¬ (AreOfflineWords (map string_bytes words.now)) }

    ensures ready { IfOk result (λ o. IsReady given o.config o.book) }

    // Which sources are asked.
    ensures config { CountsFault (result ≡ Err (Refusal.Config TextRefusal.ReadFault))
        (S.faults config.old) (S.faults config.new) }
    ensures book { CountsFault (result ≡ Err (Refusal.Book TextRefusal.ReadFault))
        (S.faults book.old) (S.faults book.new) }
    ensures pairs { CountsFault (result ≡ Err (Refusal.Pairs TextRefusal.ReadFault))
        (S.faults pairs.old) (S.faults pairs.new) }
    ensures untouched { result ≡ Err Refusal.Misused
        → (config.new ≡ config.old) × (book.new ≡ book.old) × (pairs.new ≡ pairs.old) }
    ensures unasked { (r : TextRefusal ConfigFault) → result ≡ Err (Refusal.Config r)
        → (book.new ≡ book.old) × (pairs.new ≡ pairs.old) }
    ensures unread { (r : TextRefusal BookFault) → result ≡ Err (Refusal.Book r)
        → pairs.new ≡ pairs.old }
    // An empty configuration is refused without memory.
    ensures some { IfOk result (λ o. IfSome (S.left config.old) (λ text. 0 < length text)) }
    ensures memory { IfErr result (λ r. status_of_refusal r ≡ Status.OutOfMemory
        → IfSome (S.left config.old) (λ text. 0 < length text)) }
    // A text is read only where those before it are good.
    ensures config_before { (r : TextRefusal BookFault) → result ≡ Err (Refusal.Book r)
        → IfSome (S.left config.old) (λ text. (settings : Settings) × Configures text settings) }
    ensures texts_before { (r : TextRefusal TooManyPairs) (t : Texts) → result ≡ Err (Refusal.Pairs r)
        → AreTold (S.left config.old) (S.left book.old) (S.left pairs.old) t
        → (settings : Settings) × (rows : List (ℕ × BookLine)) × Configures t.config settings
        × IsRunbook settings t.book rows }
    ensures nowhere { (are : AreOfflineWords (map string_bytes words.now)) → are.pairs ≡ nowhere
        → pairs.new ≡ pairs.old }
{
    let Some(word) = asked_pairs(words) else {
        return Err(Refusal::Misused);
    };
    let config = match open_config(alloc, config) {
        Ok(config) => config,
        Err(refusal) => return Err(Refusal::Config(refusal)),
    };
    let book = match open_book(alloc, &config, book) {
        Ok(book) => book,
        Err(refusal) => return Err(Refusal::Book(refusal)),
    };
    let pairs = match open_pairs(alloc, &word, pairs) {
        Ok(pairs) => pairs,
        Err(refusal) => return Err(Refusal::Pairs(refusal)),
    };
    let wanted = config.sessions();
    if given != wanted {
        return Err(Refusal::SessionCount {
            given: given.min(u32::MAX as usize) as u32,
            wanted: wanted as u32,
        });
    }
    Ok(Opening {
        config,
        book,
        pairs,
    })
}

/// Reads a configuration out of its source.
fn open_config<S: Source>(alloc: Global, source: &mut S) -> Result<Config, TextRefusal<ConfigFault>>
    ensures found { IfOk result (λ config. IfSome (S.left source.old)
        (λ text. Configures text config)) }
    ensures refused { IfErr result (λ r. ¬ (IsTextFailure r) → IfSome (S.left source.old)
        (λ text. IsConfigRefused text r)) }
    ensures some { IfOk result (λ config. IfSome (S.left source.old) (λ text. 0 < length text)) }
    ensures memory { result ≡ Err TextRefusal.OutOfMemory
        → IfSome (S.left source.old) (λ text. 0 < length text) }
    ensures cause { CountsFault (result ≡ Err TextRefusal.ReadFault)
        (S.faults source.old) (S.faults source.new) }
{
    let text = match read_text(alloc, source, CONFIG_OCTETS) {
        Ok(text) => text,
        Err(TextFault::Failed) => return Err(TextRefusal::ReadFault),
        Err(TextFault::TooLong) => return Err(TextRefusal::TooLong),
        Err(TextFault::OutOfMemory) => return Err(TextRefusal::OutOfMemory),
    };
    match read_config(alloc, &text) {
        Ok(config) => Ok(config),
        Err(ReadConfig::Bad(fault)) => Err(TextRefusal::Bad(fault)),
        Err(ReadConfig::OutOfMemory) => Err(TextRefusal::OutOfMemory),
    }
}

/// Reads a runbook over the configuration out of its source.
fn open_book<S: Source>(
    alloc: Global,
    config: &Config,
    source: &mut S,
) -> Result<Book, TextRefusal<BookFault>>
    ensures found { IfOk result (λ rows. IfSome (S.left source.old)
        (λ text. IsRunbook config.now text rows)) }
    ensures short { IfOk result (λ rows. length rows ≤ BOOK_OCTETS) }
    ensures configured { IfOk result (AreConfiguredFor config.now) }
    ensures refused { IfErr result (λ r. ¬ (IsTextFailure r) → IfSome (S.left source.old)
        (λ text. IsBookRefused config.now text r)) }
    ensures cause { CountsFault (result ≡ Err TextRefusal.ReadFault)
        (S.faults source.old) (S.faults source.new) }
{
    let text = match read_text(alloc, source, BOOK_OCTETS) {
        Ok(text) => text,
        Err(TextFault::Failed) => return Err(TextRefusal::ReadFault),
        Err(TextFault::TooLong) => return Err(TextRefusal::TooLong),
        Err(TextFault::OutOfMemory) => return Err(TextRefusal::OutOfMemory),
    };
    match read_book(alloc, &text, config) {
        Ok(book) => Ok(book),
        Err(ReadBook::Bad(fault)) => Err(TextRefusal::Bad(fault)),
        Err(ReadBook::OutOfMemory) => Err(TextRefusal::OutOfMemory),
    }
}
