//! Rounds over a pass of a publisher, and a publisher that may be refused memory.
ghost use Rattle.std.specs.Prelude.{◌≡◌, IfOk};

use crate::tests::made::{WORKER, one, row, source, work};
use cover_table::Batch;
use epoch_publish::{Checker, Event, Naming, Opened, Pass, Passes, Published, Publisher};
use feed_io::NoGate;
use forward_worker::{CheckRow, Desk, Stop, WorkerEnd, WorkerRound};
use left_right::Absorb;
use router_config::Kinds;
use std::alloc::Global;
use std::marker::Brand;
use std::process::Abort;
use std::sync::Wait;
use urpf_base::{Addr, Cell, CellChange, Changes, IfaceId, Mask, OutOfMemory, Prefix, Verdict};

/// 198.51.100.0, of the addresses for documentation (RFC 5737).
const TEST_NET_2: u32 = 0xC633_6400;

/// What is done with the publisher and its passes.
#[derive(Clone, Copy)]
pub enum Story {
    /// Its rounds go by what is published.
    Worked,
    /// Each of its calls may be refused memory.
    Refused,
}

/// Starts a publisher with two passes, and tells the story. False where it is not started.
pub fn tell<R: Wait + Abort + AllocGlobal>(rt: &R, story: Story) -> bool {
    let kinds = one(rt);
    let copy = kinds.copied().expect(rt, "memory");
    named::<Brand, R>(rt, Opened::new(kinds), copy, story)
}

/// The same under the name of the history.
fn named<J: Naming, R: Wait + Abort + AllocGlobal>(
    rt: &R,
    opened: Opened,
    kinds: Kinds,
    story: Story,
) -> bool
    requires { (opened.identity ≡ J.book) × (opened.opening ≡ J.opening) × (kinds ≡ J.opening) }
{
    started::<J, R>(rt, opened, kinds, story)
}

fn started<J: Naming, R: Wait + Abort + AllocGlobal>(
    rt: &R,
    opened: Opened,
    kinds: Kinds,
    story: Story,
) -> bool
where
    Published<J>: Absorb<Event<J>, State = [Batch; 0]>,
    requires { (opened.identity ≡ J.book) × (opened.opening ≡ J.opening) × (kinds ≡ J.opening) }
{
    let Ok((mut publisher, mut passes)) = Publisher::start(rt.alloc(), opened, 2) else {
        return false;
    };
    match story {
        Story::Worked => worked(rt, &mut publisher, &mut passes, &kinds),
        Story::Refused => refused(rt, &mut publisher, &mut passes, &kinds),
    }
    publisher.end(rt);
    match story {
        Story::Worked => is_gone(rt, &mut passes),
        Story::Refused => {}
    }
    true
}

/// The round has this row and no other.
fn has_row(rt: &impl Abort, round: &WorkerRound, wanted: CheckRow) {
    assert_eq!(rt; round.rows.items().len(), 1);
    assert_eq!(rt; round.rows.items().first().copied(), Some(wanted));
}

/// A packet is judged by what is there before the first publication.
pub fn works_by_the_opening<C: Checker>(rt: &(impl Abort + AllocGlobal), pass: &mut C) {
    let mut desk = Desk::new(WORKER, 9);
    let round = work(
        rt,
        pass,
        &mut desk,
        &mut source(rt, "P", 0),
        Stop::End,
        &NoGate,
    );
    assert_eq!(rt; round.outcome, WorkerEnd::End);
    has_row(rt, &round, row(1, Some((0, Verdict::Drop))));
}

/// One pass works before and after a publication.
fn worked<J: Naming, R: Wait + Abort + AllocGlobal>(
    rt: &R,
    publisher: &mut Publisher<J>,
    passes: &mut Passes<J>,
    kinds: &Kinds,
)
where
    Published<J>: Absorb<Event<J>, State = [Batch; 0]>,
    requires { kinds.now ≡ publisher.old.opening }
{
    let mut pass = passes.pop().expect(rt, "a pass");
    works_by_the_opening(rt, &mut pass);
    let mut packets = source(rt, "PMP", 0);
    let mut desk = Desk::new(WORKER, 9);
    let first = work(
        rt,
        &mut pass,
        &mut desk,
        &mut packets,
        Stop::Marker,
        &NoGate,
    );
    has_row(rt, &first, row(1, Some((0, Verdict::Drop))));
    assert_eq!(rt; publish(rt, publisher, kinds), Ok(1));
    let second = work(
        rt,
        &mut pass,
        &mut desk,
        &mut packets,
        Stop::Marker,
        &NoGate,
    );
    has_row(rt, &second, row(2, Some((1, Verdict::Pass))));
}

/// Each pass that is left has no publisher any more, and so its rows have no answer.
fn is_gone<J: Naming>(rt: &(impl Abort + AllocGlobal), passes: &mut Passes<J>) {
    for pass in passes.items_mut() {
        works_no_more(rt, pass);
    }
}

fn works_no_more<J: Naming>(rt: &(impl Abort + AllocGlobal), pass: &mut Pass<J>) {
    let mut desk = Desk::new(WORKER, 9);
    let round = work(
        rt,
        pass,
        &mut desk,
        &mut source(rt, "P", 0),
        Stop::End,
        &NoGate,
    );
    has_row(rt, &round, row(1, None));
}

/// Publishes again and again. After a publication that is refused each one is, and in every case the
/// passes check by the last one that was not.
fn refused<J: Naming, R: Wait + Abort + AllocGlobal>(
    rt: &R,
    publisher: &mut Publisher<J>,
    passes: &mut Passes<J>,
    kinds: &Kinds,
)
where
    Published<J>: Absorb<Event<J>, State = [Batch; 0]>,
    requires { kinds.now ≡ publisher.old.opening }
{
    assert_eq!(rt; passes.items().len(), 2);
    let mut was_refused = false;
    for _ in 0..4 {
        let number = publisher.number();
        let answer = publish(rt, publisher, kinds);
        let now = publisher.number();
        assert!(rt;
            if answer.is_ok() {
                now > number && !was_refused
            } else {
                now == number
            }
        );
        was_refused = answer.is_err();
        check_by(rt, passes, now);
    }
}

/// Each pass checks 198.51.100.9 by the publication of this number.
fn check_by<J: Naming>(rt: &impl Abort, passes: &mut Passes<J>, number: u64) {
    let verdict = if number % 2 == 1 {
        Verdict::Pass
    } else {
        Verdict::Drop
    };
    for pass in passes.items_mut() {
        let answer = pass.check(0, Some(Addr::V4(TEST_NET_2 + 9)));
        assert_eq!(rt; answer, Some((number, verdict)));
    }
}

/// Publishes the next batch.
fn publish<J: Naming, R: Wait + Abort + AllocGlobal>(
    rt: &R,
    publisher: &mut Publisher<J>,
    kinds: &Kinds,
) -> Result<u64, OutOfMemory>
where
    Published<J>: Absorb<Event<J>, State = [Batch; 0]>,
    requires { kinds.now ≡ publisher.old.opening }
    ensures { publisher.new.opening ≡ publisher.old.opening }
{
    let Some(number) = publisher.number().checked_add(1) else {
        return Err(OutOfMemory);
    };
    let next = made(rt, number, kinds);
    publisher.publish(rt, next)
}

/// The batch of this number. Where memory for it is refused, it is there again.
fn made(rt: &(impl Abort + AllocGlobal), number: u64, kinds: &Kinds) -> Batch
    ensures { (result.number ≡ number) × (result.kinds ≡ kinds.now) }
{
    match batch(rt.alloc(), number, kinds) {
        Ok(batch) => batch,
        Err(OutOfMemory) => batch(rt.alloc(), number, kinds).expect(rt, "memory is there again"),
    }
}

/// The batch of this number: with an odd one 198.51.100.0/24 is heard on interface 0, and with an
/// even one nowhere.
fn batch(alloc: Global, number: u64, kinds: &Kinds) -> Result<Batch, OutOfMemory>
    ensures { IfOk result (λ b. (b.number ≡ number) × (b.kinds ≡ kinds.now)) }
{
    let kinds = kinds.copied()?;
    let mut changes = Changes::new(alloc);
    if let Some(change) = change(number % 2 == 1) {
        changes.push(change)?;
    }
    Ok(Batch {
        number,
        kinds,
        changes,
    })
}

/// That 198.51.100.0/24 is heard on interface 0, or nowhere.
fn change(heard: bool) -> Option<CellChange> {
    let prefix = Prefix::new(Addr::V4(TEST_NET_2), 24)?;
    let mut f = Mask::empty();
    if heard {
        f = f.with(IfaceId::new(0)?);
    }
    let cell = Cell {
        f,
        a: Mask::empty(),
        z: false,
    };
    Some(CellChange { prefix, cell })
}
