//! Sources and sinks, in memory and over real files.
use feed_io::{FileSource, MemSink, MemSource, OutSink, SureSink, SureSource};
use std::io::{ErrorKind, Write};
use std::process::Abort;
use std::rt::Files;
use std::{fs, io};
use urpf_base::{Failed, Sink, TextFault, read_text, write_all};

/// A source in memory of these octets. `fails` holds the numbers of the calls that fail.
fn source(rt: &(impl Abort + AllocGlobal), octets: &[u8], fails: &[u64]) -> MemSource {
    let octets = Vec::from_slice(rt.alloc(), octets).expect(rt, "memory");
    MemSource::new(
        octets,
        Vec::from_slice(rt.alloc(), fails).expect(rt, "memory"),
    )
}

/// A text, the calls that fail, the limit, and what is read.
type Text = (
    &'static [u8],
    &'static [u64],
    usize,
    Result<&'static [u8], TextFault>,
);

const TEXTS: [Text; 4] = [
    (b"abcdef", &[], 6, Ok(b"abcdef")),
    (b"", &[], 0, Ok(b"")),
    (b"abcdef", &[], 5, Err(TextFault::TooLong)),
    (b"abcdef", &[2], 9, Err(TextFault::Failed)),
];

/// That this is read of the octets.
fn is_read(rt: &(impl Abort + AllocGlobal), row: &Text) {
    let (octets, fails, limit, wanted) = *row;
    let read = read_text(rt.alloc(), &mut source(rt, octets, fails), limit);
    match (read, wanted) {
        (Ok(text), Ok(wanted)) => assert_eq!(rt; text.as_slice(), wanted),
        (Err(fault), wanted) => assert_eq!(rt; Some(fault), wanted.err()),
        (Ok(text), Err(fault)) => assert!(rt; false, "{text:?} {fault:?}"),
    }
}

/// That this is read of each text.
fn are_read(rt: &(impl Abort + AllocGlobal), rows: &[Text]) {
    for row in rows {
        is_read(rt, row);
    }
}

#[test]
fn a_text_is_read_whole_or_refused_by_its_cause(rt: HostRuntime) {
    are_read(&rt, &TEXTS);
    let octets = Vec::from_slice(rt.alloc(), b"abc").expect(&rt, "memory");
    let text = read_text(rt.alloc(), &mut SureSource::new(octets), 6).expect(&rt, "a text");
    assert_eq!(rt; text.as_slice(), b"abc".as_slice());
}

#[test]
fn a_sink_with_little_room_takes_a_front(rt: HostRuntime) {
    let room = Vec::with_capacity(rt.alloc(), 4).expect(&rt, "memory");
    let mut sink = MemSink::new(room, Vec::new(rt.alloc()));
    assert_eq!(rt; write_all(&mut sink, b"abc"), Ok(()));
    assert_eq!(rt; write_all(&mut sink, b"def"), Err(Failed));
    assert_eq!(rt; sink.held(), b"abcd".as_slice());
    assert_eq!(rt; SureSink::new().write(b"abc"), Ok(3));
}

/// The file at this path.
fn file_at<'a, R: Abort + AllocGlobal + Files>(rt: &'a R, path: &str) -> FileSource<&'a R> {
    FileSource::new(rt, String::from_str(rt.alloc(), path).expect(rt, "memory"))
}

#[test]
fn the_adapters_read_and_write_a_file(rt: HostRuntime) {
    let mut sink = OutSink::new(fs::create(&rt, "written").expect(&rt, "a file"));
    assert_eq!(rt; write_all(&mut sink, b"some octets"), Ok(()));
    drop(sink);
    let mut file = file_at(&rt, "written");
    let text = read_text(rt.alloc(), &mut file, 100).expect(&rt, "a text");
    assert_eq!(rt; text.as_slice(), b"some octets".as_slice());
    let missing = read_text(rt.alloc(), &mut file_at(&rt, "missing"), 100);
    assert_eq!(rt; missing.err(), Some(TextFault::Failed));
}

/// A writer whose first write fails, and each later one takes one octet.
#[derive(Drop)]
struct Balky {
    calls: u64,
}

impl Write for Balky {
    fn write(&mut self, buf: &[u8]) -> io::Result<usize> {
        self.calls = self.calls.saturating_add(1);
        if self.calls == 1 {
            return Err(io::Error::from(ErrorKind::Interrupted));
        }
        Ok(buf.len().min(1))
    }

    fn flush(&mut self) -> io::Result<()> {
        Ok(())
    }
}

#[test]
fn a_call_of_a_sink_is_one_call_of_its_writer(rt: HostRuntime) {
    let mut sink = OutSink::new(Balky { calls: 0 });
    assert_eq!(rt; sink.write(b"abc"), Err(Failed));
    assert_eq!(rt; sink.write(b"abc"), Ok(1));
    assert_eq!(rt; sink.write(b""), Ok(0));
}
