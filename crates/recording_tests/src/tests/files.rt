//! Recordings in files.
use super::recorded::{PEER, is_told, recording};
use super::recordings::{MADE_WIDE, NOTIFIED};
use feed_io::{FileSource, OutSink};
use message_octets::{KEEPALIVE, NOTIFICATION};
use mrt_feed::MrtFeed;
use std::fs;
use std::process::Abort;
use std::rt::Files;
use urpf_base::write_all;

/// The file at this path.
fn file_at<'a, R: Abort + AllocGlobal + Files>(rt: &'a R, path: &str) -> FileSource<&'a R> {
    FileSource::new(rt, String::from_str(rt.alloc(), path).expect(rt, "memory"))
}

#[test]
fn a_file_is_told_as_its_octets_are(rt: HostRuntime) {
    let mut sink = OutSink::new(fs::create(&rt, "recorded").expect(&rt, "a file"));
    let octets = recording(&rt, &[NOTIFIED]);
    assert_eq!(rt; write_all(&mut sink, octets.as_slice()), Ok(()));
    drop(sink);
    let mut feed = MrtFeed::new(file_at(&rt, "recorded"), PEER);
    let events = "Up Octets(62) Octets(19) Octets(2) End";
    is_told(
        &rt,
        &mut feed,
        64,
        events,
        &[MADE_WIDE, &KEEPALIVE, &NOTIFICATION],
    );
    let mut missing = MrtFeed::new(file_at(&rt, "missing"), PEER);
    is_told(&rt, &mut missing, 64, "Failed", &[]);
}
