//! A real file as a source, and a real writer as a sink.
//!
//! They are opened at the first call and tell nothing of their contents, which no proof knows. Each
//! call asks the outside once: an error raises the count of faults by one, and a success leaves it.
ghost use Rattle.std.specs.Prelude.{◌≡◌, None, string_bytes};
ghost use Rattle.std.specs.Io.{ReadsAtMost};

use crate::fault_count::FaultCount;
use std::io::{Read, Write};
use std::marker::Model;
use std::rt::Files;
use std::{fs, io};
use urpf_base::{Failed, Sink, Source};

/// The file at a path. It owns the path and the runtime value, so that a feed over it can go into a
/// box. Contracts see it as its path and its count of faults.
#[derive(Drop)]
pub struct FileSource<R: Files> {
    rt: R,
    path: String,
    file: Option<R::File>,
    faults: FaultCount,
}

impl<R: Files> Model for FileSource<R> {
    ghost use Rattle.std.specs.Prelude.{string_bytes};
    ghost use Rattle.feed_io.specs.Memory.{NamedFile};

    ghost Value = { NamedFile };

    ghost view = { λ s. record { path = string_bytes s.path; faults = s.faults } };
}

impl<R: Files> FileSource<R> {
    /// Nothing is opened yet.
    pub fn new(rt: R, path: String) -> FileSource<R>
        ensures path { result.path ≡ string_bytes path }
        ensures faults { result.faults ≡ 0 }
    {
        FileSource {
            rt,
            path,
            file: None,
            faults: FaultCount::new(),
        }
    }
}

/// Reads from the file, which is opened first where it is not open yet.
fn read_opened<R: Files>(
    rt: &R,
    path: &str,
    file: &mut Option<R::File>,
    buf: &mut [u8],
) -> io::Result<usize>
    ensures { ReadsAtMost result buf.new }
{
    match file {
        Some(file) => file.read(buf),
        None => {
            let mut opened = fs::open(rt, path)?;
            let count = opened.read(buf);
            *file = Some(opened);
            count
        }
    }
}

impl<R: Files + Drop> Source for FileSource<R> {
    ghost left = { λ _. None };

    ghost faults = { λ s. s.faults };

    fn read(&mut self, buf: &mut [u8]) -> Result<usize, Failed> {
        let answer = read_opened(&self.rt, self.path.as_str(), &mut self.file, buf);
        self.faults.counted(answer)
    }
}

/// A writer, such as standard output.
#[derive(Drop)]
pub struct OutSink<W: Write + Drop> {
    writer: W,
    faults: FaultCount,
}

impl<W: Write + Drop> OutSink<W> {
    /// No write has failed yet.
    pub fn new(writer: W) -> OutSink<W>
        ensures held { ⟦<OutSink<W> as Sink>⟧.held result ≡ W.contents writer }
        ensures faults { ⟦<OutSink<W> as Sink>⟧.faults result ≡ 0 }
    {
        OutSink {
            writer,
            faults: FaultCount::new(),
        }
    }
}

impl<W: Write + Drop> Sink for OutSink<W> {
    ghost held = { λ s. W.contents s.writer };

    ghost faults = { λ s. s.faults };

    /// A write of a piece that takes nothing counts as a fault, as an error does.
    fn write(&mut self, piece: &[u8]) -> Result<usize, Failed> {
        let answer = self.writer.write(piece);
        match self.faults.counted(answer) {
            Ok(count) if count == 0 && !piece.is_empty() => Err(self.faults.fail()),
            Ok(count) => Ok(count),
            Err(Failed) => Err(Failed),
        }
    }
}
