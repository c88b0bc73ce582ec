//! The interfaces, batches and checks that tests are made of.
ghost use Rattle.std.specs.Prelude.{◌≡◌, IfOk};

use cover_table::Batch;
use epoch_publish::{Checker, Event, Naming, Published, Publisher};
use left_right::Absorb;
use router_config::{Kinds, read_config};
use std::alloc::Global;
use std::process::Abort;
use std::sync::Wait;
use urpf_base::{Addr, Cell, CellChange, Changes, IfaceId, Mask, OutOfMemory, Prefix, Verdict};

/// 198.51.100.0, of the addresses for documentation (RFC 5737).
const TEST_NET_2: u32 = 0xC633_6400;

/// One interface, of a customer.
const ONE: &str = r#"
interface = [{number = 0, role = "customer", mode = "feasible"}]
session = [{interface = 0, peer_as = 64501}]
"#;

/// The one interface.
pub fn one(rt: &(impl Abort + AllocGlobal)) -> Kinds {
    let config = read_config(rt.alloc(), ONE.as_bytes()).expect(rt, "a configuration");
    config.kinds().expect(rt, "memory")
}

/// The batch of this number: with an odd one 198.51.100.0/24 is heard on interface 0, and with an
/// even one nowhere.
pub fn batch(alloc: Global, number: u64, kinds: &Kinds) -> Result<Batch, OutOfMemory>
    ensures { IfOk result (λ b. (b.number ≡ number) × (b.kinds ≡ kinds.now)) }
{
    let kinds = kinds.copied()?;
    let mut changes = Changes::new(alloc);
    if let Some(change) = change(number % 2 == 1) {
        changes.push(change)?;
    }
    Ok(Batch {
        number,
        kinds,
        changes,
    })
}

/// That 198.51.100.0/24 is heard on interface 0, or nowhere.
fn change(heard: bool) -> Option<CellChange> {
    let prefix = Prefix::new(Addr::V4(TEST_NET_2), 24)?;
    let mut f = Mask::empty();
    if heard {
        f = f.with(IfaceId::new(0)?);
    }
    let cell = Cell {
        f,
        a: Mask::empty(),
        z: false,
    };
    Some(CellChange { prefix, cell })
}

/// Publishes the next batch.
pub fn publish<J: Naming, R: Wait>(
    rt: &R,
    alloc: Global,
    publisher: &mut Publisher<J>,
    kinds: &Kinds,
) -> Result<u64, OutOfMemory>
where
    Published<J>: Absorb<Event<J>, State = [Batch; 0]>,
    requires { kinds.now ≡ publisher.old.opening }
    ensures { publisher.new.opening ≡ publisher.old.opening }
{
    let Some(number) = publisher.number().checked_add(1) else {
        return Err(OutOfMemory);
    };
    let next = batch(alloc, number, kinds)?;
    publisher.publish(rt, next)
}

/// Asks for 198.51.100.9 on interface 0.
pub fn ask<C: Checker>(checker: &mut C) -> Option<(u64, Verdict)> {
    checker.check(0, Some(Addr::V4(TEST_NET_2 + 9)))
}

/// What is to be answered by the publication of this number.
pub fn wanted(number: u64) -> Verdict {
    if number % 2 == 1 {
        Verdict::Pass
    } else {
        Verdict::Drop
    }
}
