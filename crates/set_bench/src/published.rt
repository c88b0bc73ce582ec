//! Publications of cells by a publisher, with passes that check beside it or afterwards.
//!
//! The cells are of the IPv4 routes of 24 bits from 1.0.0.0/24 on, one after the other.
ghost use Rattle.std.specs.Prelude.{◌≡◌, ◌≤◌, IfOk, IfSome};

use crate::askers::{Asker, ask_all, ask_first, askers, refused};
use crate::checked::{self, Checks, Places, drawn};
use crate::filled::Filled;
use crate::tell;
use cover_table::Batch;
use epoch_publish::{Event, Naming, Opened, Passes, Published, Publisher};
use ip_text::read_number;
use left_right::Absorb;
use router_config::Kinds;
use std::alloc::Global;
use std::marker::Brand;
use std::sync::Wait;
use std::thread::{Threads, join_mut};
use urpf_base::{Cell, CellChange, Changes, IfaceId, Mask, OutOfMemory};

/// How many publications of one change are made one after the other.
const SINGLES: u32 = 100_000;

/// How many prefixes there are and how many sources a pass checks, how many passes there are, and
/// whether they check while batches are published.
#[derive(Clone, Copy)]
pub struct Publications {
    checks: Checks,
    passes: u32,
    busy: bool,
}

impl Publications {
    /// How many prefixes there are.
    pub fn count(&self) -> u32
        ensures { result ≡ self.now.checks.count }
    {
        self.checks.count
    }

    /// What these words say: the two of `Checks`, from 0 to 32 passes, and `idle` or `busy`. None where
    /// they say nothing.
    pub fn read(words: &[String]) -> Option<Publications>
        ensures { IfSome result (λ sizes. sizes.passes ≤ 32) }
    {
        let [checks @ .., passes, manner] = words else {
            return None;
        };
        let checks = Checks::read(checks)?;
        let passes = read_number(passes.as_bytes(), 32)?;
        let busy = manner.as_str() == "busy";
        if !busy && manner.as_str() != "idle" {
            return None;
        }
        Some(Publications {
            checks,
            passes,
            busy,
        })
    }
}

/// Publishes the cells that the engine has, which is one of these interfaces, and has passes check.
pub fn publish_and_check<R: AllocGlobal + Print + Threads + Wait + Sync>(
    rt: &R,
    kinds: Kinds,
    filled: &mut Filled,
    sizes: &Publications,
) -> Result<(), OutOfMemory> {
    let copy = kinds.copied()?;
    named::<Brand, R>(rt, Opened::new(kinds), &copy, filled, sizes)
}

/// The same under the name of the history.
fn named<J: Naming + Send + Sync, R: AllocGlobal + Print + Threads + Wait + Sync>(
    rt: &R,
    opened: Opened,
    kinds: &Kinds,
    filled: &mut Filled,
    sizes: &Publications,
) -> Result<(), OutOfMemory>
    requires { (opened.identity ≡ J.book) × (opened.opening ≡ J.opening) × (kinds.now ≡ J.opening) }
{
    started::<J, R>(rt, opened, kinds, filled, sizes)
}

/// Starts a publisher and gives it up at the end. One pass is the fewest that it hands out.
fn started<J: Naming + Send + Sync, R: AllocGlobal + Print + Threads + Wait + Sync>(
    rt: &R,
    opened: Opened,
    kinds: &Kinds,
    filled: &mut Filled,
    sizes: &Publications,
) -> Result<(), OutOfMemory>
where
    Published<J>: Absorb<Event<J>, State = [Batch; 0]>,
    requires { (opened.identity ≡ J.book) × (opened.opening ≡ J.opening) × (kinds.now ≡ J.opening) }
{
    let (mut publisher, passes) = Publisher::start(rt.alloc(), opened, sizes.passes.max(1))?;
    let done = measure(rt, &mut publisher, passes, kinds, filled, sizes);
    publisher.end(rt);
    done
}

/// Who publishes, beside threads that check.
trait Publishes<J: Naming> {
    ghost use Rattle.std.specs.Prelude.{ℕ, List};
    ghost use Rattle.urpf_base.specs.declared.kinds.Kind.{Kind};

    /// The interfaces before the first publication.
    ghost opening: { Self → List (ℕ × Kind) };

    /// Publishes the cells that changed, then the cell at this place, and then this one again and again.
    fn publish_all<R: Print + Wait>(
        &mut self,
        rt: &R,
        alloc: Global,
        kinds: &Kinds,
        filled: &mut Filled,
        place: u32,
    ) -> Result<(), OutOfMemory>
        requires { kinds.now ≡ opening self.old };
}

impl<J: Naming> Publishes<J> for Publisher<J>
where
    Published<J>: Absorb<Event<J>, State = [Batch; 0]>,
{
    ghost opening = { λ p. p.opening };

    fn publish_all<R: Print + Wait>(
        &mut self,
        rt: &R,
        alloc: Global,
        kinds: &Kinds,
        filled: &mut Filled,
        place: u32,
    ) -> Result<(), OutOfMemory> {
        publish(rt, self, kinds, filled.changes()?, b"published")?;
        publish(rt, self, kinds, single(alloc, place, true)?, b"next")?;
        publish_singles(rt, self, alloc, kinds, place)?;
        tell(rt, b"singles", u64::from(SINGLES));
        Ok(())
    }
}

/// Publishes, with so many of the passes as there should be; the others are dropped before.
fn measure<
    J: Naming + Send + Sync,
    P: Publishes<J>,
    R: AllocGlobal + Print + Threads + Wait + Sync,
>(
    rt: &R,
    publisher: &mut P,
    mut passes: Passes<J>,
    kinds: &Kinds,
    filled: &mut Filled,
    sizes: &Publications,
) -> Result<(), OutOfMemory>
    requires { kinds.now ≡ P.opening publisher.old }
{
    let mut askers = askers(rt.alloc(), &mut passes, sizes.passes)?;
    drop(passes);
    tell(rt, b"passes", askers.len() as u64);
    if sizes.busy {
        publish_beside(rt, rt.alloc(), publisher, &mut askers, kinds, filled, sizes)?;
    } else {
        publish_and_ask(rt, publisher, &mut askers, kinds, filled, sizes)?;
    }
    tell(rt, b"refused", refused(&askers));
    Ok(())
}

/// Publishes, and then has the first pass check sources half of which are there, all, and none.
fn publish_and_ask<J: Naming, P: Publishes<J>, R: AllocGlobal + Print + Wait>(
    rt: &R,
    publisher: &mut P,
    askers: &mut [Asker<J>],
    kinds: &Kinds,
    filled: &mut Filled,
    sizes: &Publications,
) -> Result<(), OutOfMemory>
    requires { kinds.now ≡ P.opening publisher.old }
{
    let (count, asked) = (sizes.checks.count, sizes.checks.asked);
    publisher.publish_all(rt, rt.alloc(), kinds, filled, count)?;
    let both = Places::new(0, count.saturating_mul(2));
    ask_first(rt, askers, b"mixed", both, asked)?;
    ask_first(rt, askers, b"hits", Places::new(0, count), asked)?;
    ask_first(rt, askers, b"misses", Places::new(count, count), asked)
}

/// Publishes while all passes check sources half of which will be there.
fn publish_beside<J: Naming + Send + Sync, P: Publishes<J>, R: Print + Threads + Wait + Sync>(
    rt: &R,
    alloc: Global,
    publisher: &mut P,
    askers: &mut [Asker<J>],
    kinds: &Kinds,
    filled: &mut Filled,
    sizes: &Publications,
) -> Result<(), OutOfMemory>
    requires { kinds.now ≡ P.opening publisher.old }
{
    let (count, asked) = (sizes.checks.count, sizes.checks.asked);
    let sources = drawn(alloc, Places::new(0, count.saturating_mul(2)), asked)?;
    let sources = sources.as_slice();
    let (_, done) = join_mut(
        rt,
        &mut || ask_all(rt, askers, sources),
        &mut || publisher.publish_all(rt, alloc, kinds, filled, count),
    );
    tell(rt, b"asked", u64::from(asked));
    done
}

/// The change of the cell at this place, which is heard on interface 0, or nowhere.
fn single(alloc: Global, place: u32, heard: bool) -> Result<Changes, OutOfMemory> {
    let mut changes = Changes::new(alloc);
    if let Some(change) = change(place, heard) {
        changes.push(change)?;
    }
    Ok(changes)
}

/// The same, where there is such a cell.
fn change(place: u32, heard: bool) -> Option<CellChange> {
    let row = checked::row(place)?;
    let mut mask = Mask::empty();
    if heard {
        mask = mask.with(IfaceId::new(0)?);
    }
    let cell = Cell {
        f: mask,
        a: mask,
        z: false,
    };
    Some(CellChange {
        prefix: row.prefix,
        cell,
    })
}

/// Publishes these changes, and tells by this name when they were published.
fn publish<J: Naming, R: Print + Wait>(
    rt: &R,
    publisher: &mut Publisher<J>,
    kinds: &Kinds,
    changes: Changes,
    name: &[u8],
) -> Result<(), OutOfMemory>
where
    Published<J>: Absorb<Event<J>, State = [Batch; 0]>,
    requires { kinds.now ≡ publisher.old.opening }
    ensures { publisher.new.opening ≡ publisher.old.opening }
{
    let count = changes.items().len() as u64;
    tell(rt, b"listed", count);
    hand_over(rt, publisher, kinds, changes)?;
    tell(rt, name, count);
    Ok(())
}

/// Publishes the cell at this place again and again: heard, then nowhere, and so on.
fn publish_singles<J: Naming, R: Wait>(
    rt: &R,
    publisher: &mut Publisher<J>,
    alloc: Global,
    kinds: &Kinds,
    place: u32,
) -> Result<(), OutOfMemory>
where
    Published<J>: Absorb<Event<J>, State = [Batch; 0]>,
    requires { kinds.now ≡ publisher.old.opening }
    ensures { publisher.new.opening ≡ publisher.old.opening }
{
    for k in 0..SINGLES {
        hand_over(rt, publisher, kinds, single(alloc, place, k % 2 == 0)?)?;
    }
    Ok(())
}

/// Publishes the next batch, of these changes.
fn hand_over<J: Naming, R: Wait>(
    rt: &R,
    publisher: &mut Publisher<J>,
    kinds: &Kinds,
    changes: Changes,
) -> Result<(), OutOfMemory>
where
    Published<J>: Absorb<Event<J>, State = [Batch; 0]>,
    requires { kinds.now ≡ publisher.old.opening }
    ensures { publisher.new.opening ≡ publisher.old.opening }
{
    let Some(number) = publisher.number().checked_add(1) else {
        return Err(OutOfMemory);
    };
    let kinds = kinds.copied()?;
    publisher.publish(
        rt,
        Batch {
            number,
            kinds,
            changes,
        },
    )?;
    Ok(())
}
