//! The words that name a recording and a peer.
use mrt_feed::{MrtSpec, read_mrt_word};
use std::process::Abort;
use urpf_base::Addr;

/// A word, the peer, and where the name of the file ends.
const WORDS: [(&str, Addr, usize); 3] = [
    ("mrt:rec@192.0.2.1", Addr::V4(0xC000_0201), 7),
    ("mrt:a@b@192.0.2.1", Addr::V4(0xC000_0201), 7),
    (
        "mrt:r@2001:db8::1",
        Addr::V6(0x2001_0DB8_0000_0000_0000_0000_0000_0001),
        5,
    ),
];

/// Words that are no such word: no file, no peer, no `@`, and another beginning.
const OTHERS: [&str; 5] = [
    "mrt:@192.0.2.1",
    "mrt:rec@",
    "mrt:rec@192.0.2.256",
    "mrt:rec",
    "mrs:rec@192.0.2.1",
];

/// That each word says this.
fn are_read(rt: &impl Abort, rows: &[(&str, Addr, usize)]) {
    for row in rows {
        let (word, peer, to) = *row;
        let spec = MrtSpec { peer, from: 4, to };
        assert_eq!(rt; read_mrt_word(word.as_bytes()), Some(spec), "{word}");
    }
}

/// That none of the words is one.
fn are_none(rt: &impl Abort, words: &[&str]) {
    for word in words {
        assert_eq!(rt; read_mrt_word(word.as_bytes()), None, "{word}");
    }
}

#[test]
fn a_word_is_cut_at_its_last_at(rt: HostRuntime) {
    are_read(&rt, &WORDS);
    are_none(&rt, &OTHERS);
}
