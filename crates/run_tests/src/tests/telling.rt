//! What command lines ask for, and what statuses say and end the program with.
use crate::tests::inputs::words;
use runbook::BookKind;
use std::process::Abort;
use urpf_base::{Addr, Line};
use urpf_cli::{
    Command, Object, PairsWord, Status, TableForm, exit_code, feed_names, one_opening, one_output,
    one_refusal_status, one_run_text, put_status, read_command, text_limits,
};

/// Statuses that no file brings about, the line of each on standard error, and the number that the
/// program ends with.
const STATUSES: &[(Status, &str, u8)] = &[
    (
        Status::BadBook {
            line: 4_294_967_295,
            kind: BookKind::Session,
        },
        "urpf: book line 4294967295 Session\n",
        4,
    ),
    (
        Status::SessionCount {
            given: 4_294_967_295,
            wanted: 128,
        },
        "urpf: 4294967295 sessions given, 128 wanted\n",
        5,
    ),
    (Status::TooManyPairs, "urpf: too many pairs\n", 6),
    (Status::TooLong(Object::Pairs), "urpf: pairs too long\n", 7),
    (
        Status::ReadFault(Object::Pairs),
        "urpf: read fault on pairs\n",
        8,
    ),
    (
        Status::ItemLimit { session: 0 },
        "urpf: session 0 at item limit\n",
        11,
    ),
    (
        Status::OctetLimit { session: 127 },
        "urpf: session 127 at octet limit\n",
        11,
    ),
    (Status::OutOfMemory, "urpf: out of memory\n", 16),
];

/// That each status is told so, and ends the program so.
fn are_told(rt: &impl Abort, rows: &[(Status, &str, u8)]) {
    for row in rows {
        let (status, text, exit) = *row;
        let mut line = Line::new();
        put_status(&status, &mut line);
        assert_eq!(rt; line.bytes(), text.as_bytes());
        assert_eq!(rt; exit_code(&status), exit, "with {text}");
    }
}

#[test]
fn a_status_has_its_text_and_its_number(rt: HostRuntime) {
    text_limits();
    one_opening();
    one_refusal_status();
    one_run_text();
    one_output();
    are_told(&rt, STATUSES);
}

/// The names and the source that the words ask for, and nothing where they fit no form.
fn asked(words: &[String]) -> (&str, &str, Option<Addr>) {
    match read_command(words) {
        Some(Command::Check { session, source }) => (session, "", Some(source)),
        Some(Command::Offline { config, book, .. }) => (config, book, None),
        None => ("", "", None),
    }
}

/// What a word of the pairs has read, and nothing where it is no such word.
fn table_of(rt: &(impl Abort + AllocGlobal), word: &str) -> String {
    let line = words(rt, &["offline", "a", "b", word]);
    let told = match read_command(&line) {
        Some(Command::Offline { pairs, .. }) => match pairs {
            PairsWord::None => format!(in rt.alloc(); "no table"),
            PairsWord::Table {
                form: TableForm::Vrp,
                name,
            } => format!(in rt.alloc(); "payloads in {name}"),
            PairsWord::Table {
                form: TableForm::Irr,
                name,
            } => format!(in rt.alloc(); "objects in {name}"),
        },
        Some(Command::Check { .. }) => format!(in rt.alloc(); "a check"),
        None => format!(in rt.alloc(); ""),
    };
    told.expect(rt, "memory")
}

#[test]
fn the_word_of_the_pairs_names_a_table_or_none(rt: HostRuntime) {
    for (word, told) in [
        ("none", "no table"),
        ("vrp:c", "payloads in c"),
        ("irr:c", "objects in c"),
        ("vrp:irr:c", "payloads in irr:c"),
        ("irr::", "objects in :"),
        ("irr: ", "objects in  "),
        ("", ""),
        (":", ""),
        ("none:", ""),
        ("NONE", ""),
        ("vrp", ""),
        ("vrp:", ""),
        ("irr:", ""),
        ("Vrp:c", ""),
        ("csv:c", ""),
        (" vrp:c", ""),
    ] {
        assert_eq!(rt; table_of(&rt, word).as_str(), told, "of {word}");
    }
}

#[test]
fn words_ask_for_a_command_or_fit_none(rt: HostRuntime) {
    let line = words(&rt, &["check", "a", "198.51.100.9"]);
    assert_eq!(rt; asked(&line), ("a", "", Some(Addr::V4(0xC633_6409))));
    assert_eq!(rt; feed_names(&line).sessions.len(), 0);
    let line = words(&rt, &["offline", "a", "b", "none", "c", "d"]);
    assert_eq!(rt; asked(&line), ("a", "b", None));
    assert_eq!(rt; feed_names(&line).sessions.len(), 2);
    assert_eq!(rt; feed_names(&line).packets.len(), 0);
    let line = words(&rt, &["offline", "a", "b", "vrp:c", "d"]);
    assert_eq!(rt; asked(&line), ("a", "b", None));
    assert_eq!(rt; feed_names(&line).sessions.len(), 1);
    let line = words(&rt, &["offline", "a", "b", "vrp:", "d"]);
    assert_eq!(rt; asked(&line), ("", "", None));
    assert_eq!(rt; feed_names(&line).sessions.len(), 0);
}
