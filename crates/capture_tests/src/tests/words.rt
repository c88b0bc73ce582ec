//! The words that name captures.
use pcap_packets::read_pcap_word;
use std::process::Abort;

/// Words, and the interface and the place of the file's name.
const WORDS: [(&str, Option<(u16, usize)>); 14] = [
    ("pcap:0:a", Some((0, 7))),
    ("pcap:65535:captures/of:a", Some((65_535, 11))),
    ("pcap:7::", Some((7, 7))),
    ("pcap:65536:a", None),
    ("pcap:00:a", None),
    ("pcap:07:a", None),
    ("pcap::a", None),
    ("pcap:7:", None),
    ("pcap:7", None),
    ("pcap:+7:a", None),
    ("pcap:7 :a", None),
    ("Pcap:7:a", None),
    ("pcap", None),
    ("", None),
];

/// That each word is read so.
fn are_read(rt: &impl Abort, rows: &[(&str, Option<(u16, usize)>)]) {
    for row in rows {
        let (word, wanted) = *row;
        let read = match read_pcap_word(word.as_bytes()) {
            None => None,
            Some(spec) => Some((spec.iface, spec.from)),
        };
        assert_eq!(rt; read, wanted, "{word}");
    }
}

#[test]
fn a_word_names_an_interface_and_a_file(rt: HostRuntime) {
    are_read(&rt, &WORDS);
}
