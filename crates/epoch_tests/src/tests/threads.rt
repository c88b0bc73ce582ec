//! A thread that publishes, and one that follows it with a pass.
ghost use Rattle.std.specs.Prelude.{◌≡◌};

use crate::tests::made::{ask, one, publish, wanted};
use cover_table::Batch;
use epoch_publish::{Event, Naming, Opened, Pass, Published, Publisher};
use left_right::Absorb;
use router_config::Kinds;
use std::alloc::Global;
use std::marker::Brand;
use std::process::Abort;
use std::sync::Wait;
use std::thread::{Threads, join_mut};

/// How many batches are published.
const ROUNDS: u64 = 4_000;

/// How many checks are made beside them.
const CHECKS: u64 = 40_000;

#[test]
fn a_thread_follows_what_another_one_publishes(rt: HostRuntime) {
    let kinds = one(&rt);
    let copy = kinds.copied().expect(&rt, "memory");
    named::<Brand, _>(&rt, Opened::new(kinds), copy);
}

/// The same under the name of the history.
fn named<J: Naming + Send + Sync, R: Threads + Wait + Abort + AllocGlobal + Sync>(
    rt: &R,
    opened: Opened,
    kinds: Kinds,
)
    requires { (opened.identity ≡ J.book) × (opened.opening ≡ J.opening) × (kinds ≡ J.opening) }
{
    started::<J, R>(rt, opened, kinds)
}

fn started<J: Naming + Send + Sync, R: Threads + Wait + Abort + AllocGlobal + Sync>(
    rt: &R,
    opened: Opened,
    kinds: Kinds,
)
where
    Published<J>: Absorb<Event<J>, State = [Batch; 0]>,
    requires { (opened.identity ≡ J.book) × (opened.opening ≡ J.opening) × (kinds ≡ J.opening) }
{
    let Ok((mut publisher, mut passes)) = Publisher::start(rt.alloc(), opened, 1) else {
        assert!(rt; false, "a publisher is started");
        return;
    };
    let mut pass = passes.pop().expect(rt, "a pass");
    let (wrong, refused) = race(rt, rt.alloc(), &mut publisher, &mut pass, &kinds);
    assert_eq!(rt; (wrong, refused), (0, 0));
    pass.learn(publisher.tell());
    assert_eq!(rt; pass.number(), ROUNDS);
    assert_eq!(rt; ask(&mut pass), Some((ROUNDS, wanted(ROUNDS))));
    publisher.end(rt);
    assert_eq!(rt; ask(&mut pass), None);
    assert_eq!(rt; pass.number(), ROUNDS);
}

/// Who publishes beside a thread that follows.
trait Publishes<J: Naming> {
    ghost use Rattle.std.specs.Prelude.{ℕ, List};
    ghost use Rattle.urpf_base.specs.declared.kinds.Kind.{Kind};

    /// The interfaces before the first publication.
    ghost opening: { Self → List (ℕ × Kind) };

    /// Publishes all batches, and answers how many were refused.
    fn publish_all<R: Wait>(&mut self, rt: &R, alloc: Global, kinds: &Kinds) -> u64
        requires { kinds.now ≡ opening self.old };
}

impl<J: Naming> Publishes<J> for Publisher<J>
where
    Published<J>: Absorb<Event<J>, State = [Batch; 0]>,
{
    ghost opening = { λ p. p.opening };

    fn publish_all<R: Wait>(&mut self, rt: &R, alloc: Global, kinds: &Kinds) -> u64 {
        let mut refused = 0u64;
        for _ in 0..ROUNDS {
            if publish(rt, alloc, self, kinds).is_err() {
                refused = refused.wrapping_add(1);
            }
        }
        refused
    }
}

/// Publishes on this thread and follows on another one. How many checks were wrong, and how many
/// publications were refused.
fn race<J: Naming + Send + Sync, P: Publishes<J>, R: Threads + Wait + Sync>(
    rt: &R,
    alloc: Global,
    publisher: &mut P,
    pass: &mut Pass<J>,
    kinds: &Kinds,
) -> (u64, u64)
    requires { kinds.now ≡ P.opening publisher.old }
{
    join_mut(
        rt,
        &mut || follow(pass),
        &mut || publisher.publish_all(rt, alloc, kinds),
    )
}

/// Checks again and again, and answers how often the number fell, the verdict was that of another
/// publication, or there was none.
fn follow<J: Naming>(pass: &mut Pass<J>) -> u64 {
    let (mut last, mut wrong) = (0, 0u64);
    for _ in 0..CHECKS {
        match ask(pass) {
            Some((number, verdict)) if number >= last && verdict == wanted(number) => last = number,
            _ => wrong = wrong.wrapping_add(1),
        }
    }
    wrong
}
