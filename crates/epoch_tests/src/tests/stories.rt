//! A publisher on one thread: what it hands out, and what is seen of its publications.
ghost use Rattle.std.specs.Prelude.{◌≡◌, ◌≢◌};

use crate::tests::made::{ask, one, publish, wanted};
use cover_table::Batch;
use epoch_publish::{
    Checker, Event, Naming, NoPass, Opened, Passes, Published, Publisher, SurePass,
};
use left_right::Absorb;
use router_config::Kinds;
use std::marker::Brand;
use std::process::Abort;
use std::sync::Wait;
use urpf_base::Verdict;

/// What is done with the publisher and the passes that were handed out.
#[derive(Clone, Copy)]
enum Story {
    HandedOut,
    Published,
}

#[test]
fn thirty_two_passes_are_handed_out_and_each_checks(rt: HostRuntime) {
    let kinds = one(&rt);
    let copy = kinds.copied().expect(&rt, "memory");
    named::<Brand, _>(&rt, Opened::new(kinds), copy, 32, Story::HandedOut);
}

#[test]
fn what_is_published_is_seen_and_told(rt: HostRuntime) {
    let kinds = one(&rt);
    let copy = kinds.copied().expect(&rt, "memory");
    named::<Brand, _>(&rt, Opened::new(kinds), copy, 2, Story::Published);
}

/// The same under the name of the history.
fn named<J: Naming, R: Wait + Abort + AllocGlobal>(
    rt: &R,
    opened: Opened,
    kinds: Kinds,
    passes: u32,
    story: Story,
)
    requires { (opened.identity ≡ J.book) × (opened.opening ≡ J.opening) × (kinds ≡ J.opening) × (passes ≢ 0) }
{
    started::<J, R>(rt, opened, kinds, passes, story)
}

/// Starts a publisher, tells the story, and gives the publisher up.
fn started<J: Naming, R: Wait + Abort + AllocGlobal>(
    rt: &R,
    opened: Opened,
    kinds: Kinds,
    passes: u32,
    story: Story,
)
where
    Published<J>: Absorb<Event<J>, State = [Batch; 0]>,
    requires { (opened.identity ≡ J.book) × (opened.opening ≡ J.opening) × (kinds ≡ J.opening) × (passes ≢ 0) }
{
    let Ok((mut publisher, passes)) = Publisher::start(rt.alloc(), opened, passes) else {
        assert!(rt; false, "a publisher is started");
        return;
    };
    match story {
        Story::HandedOut => handed_out(rt, passes),
        Story::Published => seen_and_told(rt, &mut publisher, passes, &kinds),
    }
    publisher.end(rt);
}

fn handed_out<J: Naming, R: Abort + AllocGlobal>(rt: &R, mut passes: Passes<J>) {
    assert_eq!(rt; passes.items().len(), 32);
    for pass in passes.items_mut() {
        assert_eq!(rt; ask(pass), Some((0, Verdict::Drop)));
        assert_eq!(rt; pass.number(), 0);
    }
}

/// One pass checks after each publication, and another one learns of them.
fn seen_and_told<J: Naming, R: Wait + Abort + AllocGlobal>(
    rt: &R,
    publisher: &mut Publisher<J>,
    mut passes: Passes<J>,
    kinds: &Kinds,
)
where
    Published<J>: Absorb<Event<J>, State = [Batch; 0]>,
    requires { kinds.now ≡ publisher.old.opening }
{
    let mut other = passes.pop().expect(rt, "a second pass");
    let mut pass = passes.pop().expect(rt, "a pass");
    for number in 1..6 {
        assert_eq!(rt; publish(rt, rt.alloc(), publisher, kinds), Ok(number));
        assert_eq!(rt; publisher.number(), number);
        assert_eq!(rt; ask(&mut pass), Some((number, wanted(number))));
    }
    assert_eq!(rt; other.number(), 0);
    other.learn(publisher.tell());
    assert_eq!(rt; other.number(), 5);
    assert_eq!(rt; ask(&mut other), Some((5, Verdict::Pass)));
    let mut list = Passes::new(rt.alloc());
    list.push(pass).expect(rt, "memory");
    assert_eq!(rt; list.items().len(), 1);
}

#[test]
fn stand_ins_answer_by_the_opening_or_not_at_all(rt: HostRuntime) {
    let mut sure = SurePass::new(rt.alloc(), one(&rt));
    assert_eq!(rt; ask(&mut sure), Some((0, Verdict::Drop)));
    assert_eq!(rt; sure.number(), 0);
    let mut none = NoPass::new();
    assert_eq!(rt; ask(&mut none), None);
    assert_eq!(rt; none.number(), 0);
}
