//! The words of a command line, after the program's name: they come in, and the command that they
//! ask for goes out, if they fit a form.
//!
//! ```text
//! check SESSION SOURCE            offline CONFIG BOOK PAIRS S...
//! ```
//!
//! SESSION, CONFIG and BOOK name files, and are neither empty nor `:`. SOURCE is an address. PAIRS is
//! `none`, or `vrp:` or `irr:` and behind it the name of a file, which is not empty. Each S names a file
//! in the same way, or is `gen:SEED:N` for a generator, or `mrt:FILE@PEER` for the session with the
//! peer of this address in a recording; a word that begins with `gen:` or `mrt:` is of that form. There
//! may be no S.
ghost use Rattle.std.specs.Prelude.{◌≡◌, ◌↔◌, ◌++◌, ℕ, List, [], IfNone, IfSome, IsSomeAnd, IsTrue, None, Some, map};
ghost use Rattle.std.specs.Prelude.{string_bytes};
ghost use Rattle.std.specs.List.{All};
ghost use Rattle.urpf_base.specs.declared.address.Addr.{Addr};
ghost use Rattle.urpf_cli.specs.Words.{AreCheckWords, AreOfflineWords, AskFor, IsName, IsSessionWord};
ghost use Rattle.urpf_cli.specs.Words.{PairsFrom, Request, SaysPairs, pairs_from, request_of};

use feed_io::read_gen;
use ip_text::read_addr;
use mrt_feed::read_mrt_word;
use urpf_base::Addr;

/// What the words of a command line ask for, with the names that they lend.
#[derive(Clone, Copy)]
pub enum Command<'a> {
    /// Judges this source over the session in this file.
    Check {
        session: &'a str,
        source: Addr,
    },
    /// Runs the runbook in this file, over the configuration in this file, these pairs, and the traces,
    /// generators and recordings that these words name.
    Offline {
        config: &'a str,
        book: &'a str,
        pairs: PairsWord<'a>,
        sessions: &'a [String],
    },
}

/// Where the pairs of a run come from.
#[derive(Clone, Copy)]
pub enum PairsWord<'a> {
    /// There are none.
    None,
    /// They are in the table in this file.
    Table { form: TableForm, name: &'a str },
}

/// How a table of pairs is written.
#[derive(Clone, Copy)]
pub enum TableForm {
    /// As validators write the payloads of ROAs, in CSV.
    Vrp,
    /// As registries write the objects of routes.
    Irr,
}

/// The words of a command line that name feeds.
#[derive(Clone, Copy)]
pub struct Names<'a> {
    /// One word for each feed of a session.
    pub sessions: &'a [String],
    /// One word for each stream of packets: no command has any so far.
    pub packets: &'a [String],
}

/// The command that the words ask for. None where they fit no form.
pub fn read_command(words: &[String]) -> Option<Command<'_>>
    ensures found { IfSome result (λ c. AskFor (map string_bytes words.now) (request_of c)) }
    ensures only { (r : Request) → AskFor (map string_bytes words.now) r
        → IsSomeAnd result (λ c. request_of c ≡ r) }
{
    if let Some(command) = offline_words(words) {
        return Some(command);
    }
    check_words(words)
}

/// The words that name the feeds of sessions, and those that name streams of packets. Both are empty
/// where the words fit no form, and for `check`.
pub fn feed_names(words: &[String]) -> Names<'_>
    ensures sessions { (are : AreOfflineWords (map string_bytes words.now))
        → map string_bytes result.sessions.now ≡ are.sessions }
    ensures none { ¬ (AreOfflineWords (map string_bytes words.now)) → result.sessions.now ≡ [] }
    ensures packets { result.packets.now ≡ [] }
{
    Names {
        sessions: session_words(words),
        packets: &[],
    }
}

/// The words that name the feeds of sessions: none where the words fit no form, and for `check`.
fn session_words(words: &[String]) -> &[String]
    ensures sessions { (are : AreOfflineWords (map string_bytes words.now))
        → map string_bytes result.now ≡ are.sessions }
    ensures none { ¬ (AreOfflineWords (map string_bytes words.now)) → result.now ≡ [] }
{
    match read_command(words) {
        Some(Command::Offline { sessions, .. }) => sessions,
        Some(Command::Check { .. }) => &[],
        None => &[],
    }
}

/// The source of `check SESSION SOURCE`. None where the words are not of this form.
pub(crate) fn check_source(words: &[String]) -> Option<Addr>
    ensures found { IfSome result (λ a. AreCheckWords (map string_bytes words.now) a) }
    ensures only { (a : Addr) → AreCheckWords (map string_bytes words.now) a → result ≡ Some a }
{
    match read_command(words) {
        Some(Command::Check { source, .. }) => Some(source),
        Some(Command::Offline { .. }) => None,
        None => None,
    }
}

/// Where the pairs come from that the words of `offline` ask for. None where the words are not of
/// this form.
pub(crate) fn asked_pairs(words: &[String]) -> Option<PairsWord<'_>>
    ensures found { IfSome result (λ word. (are : AreOfflineWords (map string_bytes words.now))
        × (are.pairs ≡ pairs_from word)) }
    ensures none { result ≡ None ↔ ¬ (AreOfflineWords (map string_bytes words.now)) }
{
    match read_command(words) {
        Some(Command::Offline { pairs, .. }) => Some(pairs),
        Some(Command::Check { .. }) => None,
        None => None,
    }
}

/// `check SESSION SOURCE`. None where the words are not of this form.
fn check_words(words: &[String]) -> Option<Command<'_>>
    ensures found { IfSome result (λ c. (source : Addr)
        × (are : AreCheckWords (map string_bytes words.now) source)
        × (request_of c ≡ Request.check are.session source)) }
    ensures only { (source : Addr) (are : AreCheckWords (map string_bytes words.now) source)
        → IsSomeAnd result (λ c. request_of c ≡ Request.check are.session source) }
{
    let [command, session, source] = words else {
        return None;
    };
    if command.as_str() != "check" || !is_name(session.as_str()) {
        return None;
    }
    let Some(source) = read_addr(source.as_bytes()) else {
        return None;
    };
    Some(Command::Check {
        session: session.as_str(),
        source,
    })
}

/// `offline CONFIG BOOK PAIRS S...`. None where the words are not of this form.
fn offline_words(words: &[String]) -> Option<Command<'_>>
    ensures found { IfSome result (λ c. (are : AreOfflineWords (map string_bytes words.now))
        × (request_of c ≡ Request.offline are.config are.book are.pairs are.sessions)) }
    ensures only { (are : AreOfflineWords (map string_bytes words.now))
        → IsSomeAnd result (λ c. request_of c ≡ Request.offline are.config are.book are.pairs are.sessions) }
{
    let [command, config, book, pairs, sessions @ ..] = words else {
        return None;
    };
    if command.as_str() != "offline" {
        return None;
    }
    if !is_name(config.as_str()) || !is_name(book.as_str()) {
        return None;
    }
    if !are_session_words(sessions) {
        return None;
    }
    let Some(pairs) = read_pairs_word(pairs.as_str()) else {
        return None;
    };
    Some(Command::Offline {
        config: config.as_str(),
        book: book.as_str(),
        pairs,
        sessions,
    })
}

/// Where the word says that the pairs come from. None where it says nothing.
fn read_pairs_word(word: &str) -> Option<PairsWord<'_>>
    ensures found { IfSome result (λ w. SaysPairs word.now (pairs_from w)) }
    ensures only { (from : PairsFrom) → SaysPairs word.now from → IsSomeAnd result (λ w. pairs_from w ≡ from) }
{
    if word == "none" {
        return Some(PairsWord::None);
    }
    if let Some(name) = name_behind(word, "vrp:") {
        let form = TableForm::Vrp;
        return Some(PairsWord::Table { form, name });
    }
    if let Some(name) = name_behind(word, "irr:") {
        let form = TableForm::Irr;
        return Some(PairsWord::Table { form, name });
    }
    None
}

/// What stands behind the front of a word. None where the word does not begin so, and where nothing
/// stands there.
fn name_behind<'a>(word: &'a str, front: &str) -> Option<&'a str>
    ensures found { IfSome result (λ name. (word.now ≡ front.now ++ name.now) × ¬ (name.now ≡ [])) }
    ensures only { (name : List ℕ) → word.now ≡ front.now ++ name → ¬ (name ≡ [])
        → IsSomeAnd result (λ n. n.now ≡ name) }
{
    let Some(name) = word.strip_prefix(front) else {
        return None;
    };
    if name.is_empty() {
        return None;
    }
    Some(name)
}

/// Whether each word is that of a session.
fn are_session_words(words: &[String]) -> bool
    ensures { IsTrue result ↔ All IsSessionWord (map string_bytes words.now) }
{
    for word in words {
        if !is_session_word(word.as_str()) {
            return false;
        }
    }
    true
}

/// Whether the word is that of a session: it names a generator where it begins with `gen:`, a
/// recording and a peer where it begins with `mrt:`, and otherwise a file.
fn is_session_word(word: &str) -> bool
    ensures { IsTrue result ↔ IsSessionWord word.now }
{
    let octets = word.as_bytes();
    if octets.starts_with(b"gen:") {
        return read_gen(octets).is_some();
    }
    if octets.starts_with(b"mrt:") {
        return read_mrt_word(octets).is_some();
    }
    is_name(word)
}

/// Whether the word can name a file: it is neither empty nor `:`.
fn is_name(word: &str) -> bool
    ensures { IsTrue result ↔ IsName word.now }
{
    !word.is_empty() && word != ":"
}
