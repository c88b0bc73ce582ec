//! The program: `rows COUNT INTERFACES ORIGINS ascending|none` fills an engine of the source sets and
//! drains it; `routes` with the same words fills Adj-RIBs-In, one an interface; `cells COUNT CHECKS`
//! has a snapshot take over the cells of so many prefixes, and check so many sources three times;
//! `passes COUNT CHECKS PASSES idle|busy` publishes these cells to so many passes, which check sources
//! meanwhile, or the first one afterwards. A line is written after each step, so that who reads the
//! lines can tell how long a step took and what memory it left.
#![tactic(auto)]

mod askers;
mod checked;
mod filled;
mod published;
mod rows;
mod sizes;

use crate::checked::{Checks, Places, drawn, passed};
use crate::filled::Filled;
use crate::published::{Publications, publish_and_check};
use crate::rows::{prefix, row};
use crate::sizes::Sizes;
use adj_rib::AdjRib;
use cover_table::{Batch, Snapshot};
use ip_text::put_number;
use router_config::{Kinds, read_config};
use std::alloc::Global;
use std::io::Write;
use std::process::ExitCode;
use std::rt::Env;
use std::sync::Wait;
use std::thread::Threads;
use std::{env, io};
use urpf_base::{IfaceId, Line, OutOfMemory, Role};

/// Interfaces 0 and 1 of customers, 2 of a peer and 3 of a provider.
const FOUR: &str = r#"
interface = [
  {number = 0, role = "customer", mode = "efp-a"},
  {number = 1, role = "customer", mode = "efp-a"},
  {number = 2, role = "peer", mode = "loose"},
  {number = 3, role = "provider", mode = "loose"},
]
session = [{interface = 0, peer_as = 64501}]
"#;

fn main(rt: HostRuntime) -> ExitCode {
    match run(&rt) {
        Ok(()) => ExitCode::SUCCESS,
        Err(OutOfMemory) => ExitCode::FAILURE,
    }
}

/// Measures what the words say. Nothing where they say nothing.
fn run<R: AllocGlobal + Env + Print + Threads + Wait + Sync>(rt: &R) -> Result<(), OutOfMemory> {
    let words = words(rt)?;
    measure(rt, &words)
}

/// The words, the program's name first.
fn words<R: AllocGlobal + Env>(rt: &R) -> Result<Vec<String>, OutOfMemory> {
    let mut words = Vec::new(rt.alloc());
    let Ok(args) = env::args(rt) else {
        return Ok(words);
    };
    for word in args {
        let Ok(()) = words.push(word) else {
            return Err(OutOfMemory);
        };
    }
    Ok(words)
}

/// Measures what these words say, the first of which is the program's name.
fn measure<R: AllocGlobal + Print + Threads + Wait + Sync>(
    rt: &R,
    words: &[String],
) -> Result<(), OutOfMemory> {
    let [_, name, sizes @ ..] = words else {
        return Ok(());
    };
    match name.as_str() {
        "rows" => measure_rows(rt, sizes),
        "routes" => measure_routes(rt, sizes),
        "cells" => measure_checks(rt, sizes),
        "passes" => measure_passes(rt, sizes),
        _ => Ok(()),
    }
}

/// The four interfaces.
fn four(alloc: Global) -> Result<Kinds, OutOfMemory> {
    let Ok(config) = read_config(alloc, FOUR.as_bytes()) else {
        return Err(OutOfMemory);
    };
    config.kinds()
}

/// Fills an engine, and drains it.
fn measure_rows<R: AllocGlobal + Print>(rt: &R, words: &[String]) -> Result<(), OutOfMemory> {
    let Some(sizes) = Sizes::read(words) else {
        return Ok(());
    };
    let mut filled = begun(rt.alloc())?;
    fill_and_drain(rt, &mut filled, &sizes)
}

/// The same with the engine that is lent.
fn fill_and_drain<R: Print>(rt: &R, filled: &mut Filled, sizes: &Sizes) -> Result<(), OutOfMemory> {
    tell(rt, b"begun", 0);
    fill(filled, sizes)?;
    tell(rt, b"added", filled.rows());
    drain_all(rt, filled, sizes)
}

/// An engine of the four interfaces without rows.
fn begun(alloc: Global) -> Result<Filled, OutOfMemory> {
    Filled::new(alloc, four(alloc)?)
}

/// Drains the engine: first, unchanged, after one more row, and after another role.
fn drain_all<R: Print>(rt: &R, filled: &mut Filled, sizes: &Sizes) -> Result<(), OutOfMemory> {
    drain(rt, b"drained", filled)?;
    drain(rt, b"unchanged", filled)?;
    add_row(filled, sizes, sizes.count)?;
    drain(rt, b"one-more", filled)?;
    set_first_role(filled, Role::Peer)?;
    drain(rt, b"role", filled)
}

/// Drains the engine, and tells how many cells changed.
fn drain<R: Print>(rt: &R, name: &[u8], filled: &mut Filled) -> Result<(), OutOfMemory> {
    tell(rt, name, filled.drain()?);
    Ok(())
}

/// Adds the rows.
fn fill(filled: &mut Filled, sizes: &Sizes) -> Result<(), OutOfMemory> {
    for k in 0..sizes.count {
        add_row(filled, sizes, k)?;
    }
    Ok(())
}

/// Adds row `k`.
fn add_row(filled: &mut Filled, sizes: &Sizes, k: u32) -> Result<(), OutOfMemory> {
    match row(sizes, k) {
        Some(row) => filled.add(&row),
        None => Ok(()),
    }
}

/// Gives interface 0 this role.
fn set_first_role(filled: &mut Filled, role: Role) -> Result<(), OutOfMemory> {
    match IfaceId::new(0) {
        Some(iface) => filled.set_role(iface, role),
        None => Ok(()),
    }
}

/// Has a snapshot take over the cells of the prefixes, checks sources, and takes over one cell more.
fn measure_checks<R: AllocGlobal + Print>(rt: &R, words: &[String]) -> Result<(), OutOfMemory> {
    let Some(checks) = Checks::read(words) else {
        return Ok(());
    };
    let mut filled = begun(rt.alloc())?;
    let mut snapshot = Snapshot::new(rt.alloc(), four(rt.alloc())?);
    check_cells(rt, &checks, &mut filled, &mut snapshot)
}

/// The same with the engine and the snapshot that are lent.
fn check_cells<R: AllocGlobal + Print>(
    rt: &R,
    checks: &Checks,
    filled: &mut Filled,
    snapshot: &mut Snapshot,
) -> Result<(), OutOfMemory> {
    add_cells(filled, checks.count)?;
    take_over(rt, filled, snapshot)?;
    check_all(rt, snapshot, checks)?;
    add_cell(filled, checks.count)?;
    take_over(rt, filled, snapshot)
}

/// Adds so many rows of interface 0.
fn add_cells(filled: &mut Filled, count: u32) -> Result<(), OutOfMemory> {
    for place in 0..count {
        add_cell(filled, place)?;
    }
    Ok(())
}

/// Adds a row of interface 0, which makes one cell.
fn add_cell(filled: &mut Filled, place: u32) -> Result<(), OutOfMemory> {
    match checked::row(place) {
        Some(row) => filled.add(&row),
        None => Ok(()),
    }
}

/// Has the snapshot take over the cells that changed.
fn take_over<R: AllocGlobal + Print>(
    rt: &R,
    filled: &mut Filled,
    snapshot: &mut Snapshot,
) -> Result<(), OutOfMemory> {
    let batch = next_batch(rt.alloc(), filled, snapshot.number())?;
    let count = batch.changes.items().len() as u64;
    tell(rt, b"listed", count);
    snapshot.absorb(&batch)?;
    tell(rt, b"absorbed", count);
    Ok(())
}

/// The batch of the cells that changed, which comes after the one of this number.
fn next_batch(alloc: Global, filled: &mut Filled, last: u64) -> Result<Batch, OutOfMemory> {
    let kinds = four(alloc)?;
    let changes = filled.changes()?;
    Ok(Batch {
        number: last.saturating_add(1),
        kinds,
        changes,
    })
}

/// Checks sources half of which are there, all, and none.
fn check_all<R: AllocGlobal + Print>(
    rt: &R,
    snapshot: &Snapshot,
    checks: &Checks,
) -> Result<(), OutOfMemory> {
    let both = Places::new(0, checks.count.saturating_mul(2));
    let there = Places::new(0, checks.count);
    let behind = Places::new(checks.count, checks.count);
    check(rt, snapshot, b"mixed", both, checks.asked)?;
    check(rt, snapshot, b"hits", there, checks.asked)?;
    check(rt, snapshot, b"misses", behind, checks.asked)
}

/// Checks so many drawn sources in prefixes at these places.
fn check<R: AllocGlobal + Print>(
    rt: &R,
    snapshot: &Snapshot,
    name: &[u8],
    places: Places,
    count: u32,
) -> Result<(), OutOfMemory> {
    let sources = drawn(rt.alloc(), places, count)?;
    tell(rt, b"drawn", u64::from(count));
    tell(rt, name, passed(snapshot, &sources) as u64);
    Ok(())
}

/// Publishes the cells of the prefixes to passes, which check sources.
fn measure_passes<R: AllocGlobal + Print + Threads + Wait + Sync>(
    rt: &R,
    words: &[String],
) -> Result<(), OutOfMemory> {
    let Some(sizes) = Publications::read(words) else {
        return Ok(());
    };
    let mut filled = begun(rt.alloc())?;
    add_cells(&mut filled, sizes.count())?;
    publish_and_check(rt, four(rt.alloc())?, &mut filled, &sizes)
}

/// Fills an Adj-RIB-In with the prefixes of the rows of one interface.
fn measure_routes<R: AllocGlobal + Print>(rt: &R, words: &[String]) -> Result<(), OutOfMemory> {
    let Some(sizes) = Sizes::read(words) else {
        return Ok(());
    };
    let mut routes = AdjRib::new(rt.alloc());
    tell(rt, b"begun", 0);
    announce(&mut routes, &sizes)?;
    tell(rt, b"added", routes.len() as u64);
    Ok(())
}

/// Announces the prefixes.
fn announce(routes: &mut AdjRib, sizes: &Sizes) -> Result<(), OutOfMemory> {
    for place in 0..sizes.count {
        if let Some(prefix) = prefix(sizes, place) {
            routes.set(prefix, Some(rows::origin(sizes, place)))?;
        }
    }
    Ok(())
}

/// Writes a line of a name and a number.
fn tell<R: Print>(rt: &R, name: &[u8], count: u64) {
    let mut line = Line::new();
    if name.len() > 20 {
        return;
    }
    line.push(name);
    line.push(b" ");
    put_number(count, &mut line);
    line.push(b"\n");
    let _ = io::writer(rt).write_all(line.bytes());
}
