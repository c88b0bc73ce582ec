//! The program: makes the adapters over files and standard output, and the traces, generators and
//! recordings that the words name, calls the command, and ends with its status.
#![tactic(auto)]

ghost use Rattle.std.specs.Prelude.{◌≡◌, IfOk};

use feed_io::{BoxedFeed, FileSource, GenFeed, OutSink, TraceFeed, read_gen};
use mrt_feed::{MrtFeed, read_mrt_word};
use std::alloc::AllocError;
use std::io::Write;
use std::process::ExitCode;
use std::rt::{Env, Files};
use std::{env, io};
use urpf_base::{Line, write_all};
use urpf_cli::{
    Command, PairsWord, Status, check_one, exit_code, feed_names, offline, put_status, read_command,
};

fn main(rt: HostRuntime) -> ExitCode {
    let status = match run(rt) {
        Ok(status) => status,
        Err(AllocError) => Status::OutOfMemory,
    };
    tell(rt.stderr(), &status);
    ExitCode::from(exit_code(&status))
}

/// Runs the command that the words ask for.
fn run(rt: HostRuntime) -> Result<Status, AllocError> {
    let Some(words) = words(&rt)? else {
        return Ok(Status::Usage);
    };
    match read_command(&words) {
        Some(Command::Check { session, .. }) => check(rt, &words, session),
        Some(
            Command::Offline {
                config,
                book,
                pairs,
                ..
            },
        ) => run_book(rt, &words, config, book, table_name(pairs)),
        // No file is named then, and `check_one` refuses the words.
        None => check(rt, &words, ""),
    }
}

/// `check` over the file of this name.
fn check(rt: HostRuntime, words: &[String], session: &str) -> Result<Status, AllocError> {
    let mut session = file(rt, session)?;
    let mut out = OutSink::new(io::writer(&rt));
    Ok(check_one(rt.alloc(), words, &mut session, &mut out))
}

/// The name of the table of pairs. It is empty where there is none: then `offline` does not read
/// it, and so no file is opened.
fn table_name(pairs: PairsWord<'_>) -> &str {
    match pairs {
        PairsWord::Table { name, .. } => name,
        PairsWord::None => "",
    }
}

/// `offline` over the files of these names, and a feed for each session that the words name. The
/// feeds go into their boxes here, since a function that handed a box out would hide what is in it.
fn run_book(
    rt: HostRuntime,
    words: &[String],
    config: &str,
    book: &str,
    pairs: &str,
) -> Result<Status, AllocError> {
    let mut feeds: Vec<Option<BoxedFeed>> = Vec::new(rt.alloc());
    for word in feed_names(words).sessions {
        let feed: BoxedFeed = if let Some(spec) = read_gen(word.as_bytes()) {
            Box::new(rt.alloc(), GenFeed::new(spec.seed, spec.count))?
        } else if let Some(spec) = read_mrt_word(word.as_bytes()) {
            // The word is cut behind a colon and before an at sign, so the name is there.
            let name = word.as_str().get(spec.from..spec.to).unwrap_or("");
            Box::new(rt.alloc(), MrtFeed::new(file(rt, name)?, spec.peer))?
        } else {
            Box::new(rt.alloc(), TraceFeed::new(file(rt, word.as_str())?))?
        };
        feeds.push(Some(feed))?;
    }
    let mut config = file(rt, config)?;
    let mut book = file(rt, book)?;
    let mut pairs = file(rt, pairs)?;
    let mut out = OutSink::new(io::writer(&rt));
    Ok(offline(
        rt.alloc(),
        words,
        &mut config,
        &mut book,
        &mut pairs,
        &mut feeds,
        &mut out,
    ))
}

/// The file of this name.
fn file(rt: HostRuntime, name: &str) -> Result<FileSource<HostRuntime>, AllocError>
    ensures { IfOk result (λ file. file.path ≡ name.now) }
{
    let name = String::from_str(rt.alloc(), name)?;
    Ok(FileSource::new(rt, name))
}

/// The words after the program's name. None where one is no UTF-8: such words fit no form of a
/// command.
fn words<R: AllocGlobal + Env>(rt: &R) -> Result<Option<Vec<String>>, AllocError> {
    let mut words = Vec::new(rt.alloc());
    match env::args(rt) {
        Ok(args) => {
            for word in args.skip(1) {
                words.push(word)?;
            }
            Ok(Some(words))
        }
        Err(error) if error.kind() == io::ErrorKind::OutOfMemory => Err(AllocError),
        Err(_) => Ok(None),
    }
}

/// Writes what the status says to standard error. Nobody is left to tell where that fails.
fn tell<W: Write + Drop>(errors: W, status: &Status) {
    let mut line = Line::new();
    put_status(status, &mut line);
    let _ = write_all(&mut OutSink::new(errors), line.bytes());
}
