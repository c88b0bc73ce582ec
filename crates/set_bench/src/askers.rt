//! Passes that check drawn sources, each in a thread of its own where there are several.
ghost use Rattle.std.specs.Prelude.{◌≡◌, ◌≤◌, ◌+◌, length};

use crate::checked::{Places, drawn};
use crate::tell;
use epoch_publish::{Naming, Pass, Passes};
use std::alloc::Global;
use std::thread;
use std::thread::Threads;
use urpf_base::{Addr, OutOfMemory, Verdict};

/// The most threads that check at a time.
const THREADS: usize = 32;

/// A pass, how many of the sources that it was asked for passed on interface 0, and for how many it
/// had no answer.
#[derive(Drop)]
pub struct Asker<J: Naming> {
    pass: Pass<J>,
    passed: u64,
    refused: u64,
}

/// So many of these passes, as askers that were asked for nothing.
pub fn askers<J: Naming>(
    alloc: Global,
    passes: &mut Passes<J>,
    count: u32,
) -> Result<Vec<Asker<J>>, OutOfMemory> {
    let mut askers = Vec::new(alloc);
    for _ in 0..count {
        if let Some(pass) = passes.pop() {
            let asker = Asker {
                pass,
                passed: 0,
                refused: 0,
            };
            let Ok(()) = askers.push(asker) else {
                return Err(OutOfMemory);
            };
        }
    }
    Ok(askers)
}

impl<J: Naming> Asker<J> {
    /// Asks the pass for each of the sources.
    fn ask(&mut self, sources: &[u32]) {
        for source in sources {
            match self.pass.check(0, Some(Addr::V4(*source))) {
                Some((_, Verdict::Pass)) => self.passed = self.passed.wrapping_add(1),
                Some(_) => {}
                None => self.refused = self.refused.wrapping_add(1),
            }
        }
    }
}

/// Asks all passes for each of the sources at the same time.
pub fn ask_all<J: Naming + Send + Sync, R: Threads + Sync>(
    rt: &R,
    askers: &mut [Asker<J>],
    sources: &[u32],
) {
    thread::for_each_mut(rt, askers, THREADS, &|_, asker| { asker.ask(sources) });
}

/// Asks the first pass for so many sources in prefixes at these places, and tells how many passed.
pub fn ask_first<J: Naming, R: AllocGlobal + Print>(
    rt: &R,
    askers: &mut [Asker<J>],
    name: &[u8],
    places: Places,
    count: u32,
) -> Result<(), OutOfMemory> {
    let Some((asker, _)) = askers.split_first_mut() else {
        return Ok(());
    };
    let sources = drawn(rt.alloc(), places, count)?;
    tell(rt, b"drawn", u64::from(count));
    asker.passed = 0;
    asker.ask(&sources);
    tell(rt, name, asker.passed);
    Ok(())
}

/// How many sources had no answer.
pub fn refused<J: Naming>(askers: &[Asker<J>]) -> u64 {
    let mut count = 0u64;
    for asker in askers {
        count = count.wrapping_add(asker.refused);
    }
    count
}
