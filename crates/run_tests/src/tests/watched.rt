//! How often a feed is asked, and when it is dropped.
ghost use Rattle.std.specs.Prelude.{◌≡◌, Some, length};

use crate::tests::calling::{DONE, Run, ends, status_over};
use crate::tests::control::{ASSIGNED, configured, opened};
use crate::tests::inputs::{FULL, feed, sink};
use crate::tests::offline::OF_A_FAILED_FEED;
use control_core::{Control, RunFault};
use feed_io::{BoxedFeed, Feed, FeedEvent, MemFeed};
use rpf_plain::SetEngine;
use std::alloc::Global;
use std::process::Abort;
use std::sync::Arc;
use std::sync::atomic::{AtomicU64, Ordering};
use urpf_base::Failed;
use urpf_cli::Status;

/// A number that a feed and its test share.
type Tally = Arc<AtomicU64, Global>;

/// A feed in memory that counts its calls, and its own drop.
struct WatchedFeed {
    feed: MemFeed,
    asked: Tally,
    dropped: Tally,
}

impl Feed for WatchedFeed {
    ghost left = { λ f. Some f.feed.left };

    ghost faults = { λ f. f.feed.schedule.faults };

    fn next(&mut self, buf: &mut [u8]) -> Result<FeedEvent, Failed> {
        self.asked.fetch_add(1, Ordering::SeqCst);
        self.feed.next(buf)
    }
}

impl Drop for WatchedFeed {
    fn drop(self) {
        let WatchedFeed {
            feed,
            asked,
            dropped,
        } = self;
        dropped.fetch_add(1, Ordering::SeqCst);
        drop(feed);
        drop(asked);
        drop(dropped);
    }
}

/// A number that is 0.
fn tally(rt: &(impl Abort + AllocGlobal)) -> Tally {
    Arc::new(rt.alloc(), AtomicU64::new(0)).expect(rt, "memory")
}

/// A full session. These calls of it fail, by their numbers from 1.
fn watched(
    rt: &(impl Abort + AllocGlobal),
    fails: &[u64],
    asked: &Tally,
    dropped: &Tally,
) -> WatchedFeed {
    WatchedFeed {
        feed: feed(rt, FULL, fails),
        asked: Arc::try_clone(asked).expect(rt, "memory"),
        dropped: Arc::try_clone(dropped).expect(rt, "memory"),
    }
}

/// That the only feed of the call is asked so often.
fn is_asked(rt: &(impl Abort + AllocGlobal), run: &Run<'_>, calls: u64) {
    let asked = tally(rt);
    let feed = watched(rt, run.feed_fails, &asked, &tally(rt));
    let feed: BoxedFeed = Box::new(rt.alloc(), feed).expect(rt, "memory");
    let mut feeds = Vec::from_array(rt.alloc(), [Some(feed)]).expect(rt, "memory");
    let status = status_over(rt, run, &mut feeds, &mut sink(rt, &[]));
    assert_eq!(rt; status, run.status);
    assert_eq!(rt; asked.load(Ordering::SeqCst), calls);
}

#[test]
fn a_feed_is_asked_no_more_after_its_end_or_a_fault(rt: HostRuntime) {
    let run = Run {
        book: "pull 0 all\npull 0 all\npull 0 1\n",
        ..DONE
    };
    is_asked(&rt, &run, 5);
    is_asked(&rt, &OF_A_FAILED_FEED, 3);
}

/// That the feed in a slot is gone, or that it is there.
fn is_gone(rt: &impl Abort, slot: Option<&Option<BoxedFeed>>, dropped: &Tally, gone: bool) {
    assert_eq!(rt; matches!(slot, Some(None)), gone);
    assert_eq!(rt; dropped.load(Ordering::SeqCst), u64::from(gone));
}

/// That a pull of so many items, or of all, comes to this, and that the feed is gone then, or not.
fn pulls<E: SetEngine>(
    rt: &(impl Abort + AllocGlobal),
    control: &mut Control<E>,
    feeds: &mut Vec<Option<BoxedFeed>>,
    count: Option<u64>,
    wanted: Result<(), RunFault>,
)
    requires sessions { length control.old.peers ≡ 1 }
    requires slots { length feeds.old.items ≡ 1 }
    ensures sessions { length control.new.peers ≡ 1 }
    ensures slots { length feeds.new.items ≡ 1 }
{
    let pulled = control.pull(feeds, 0, count, &mut sink(rt, &[]));
    assert_eq!(rt; pulled, wanted);
}

#[test]
fn a_pull_that_meets_the_end_drops_the_feed(rt: HostRuntime) {
    let (config, engine) = configured(&rt);
    let mut control = opened(&rt, config, engine, ASSIGNED);
    let dropped = tally(&rt);
    let feed = watched(&rt, &[2], &tally(&rt), &dropped);
    let feed: BoxedFeed = Box::new(rt.alloc(), feed).expect(&rt, "memory");
    let mut feeds = Vec::from_array(rt.alloc(), [Some(feed)]).expect(&rt, "memory");
    is_gone(&rt, feeds.get(0), &dropped, false);
    pulls(
        &rt,
        &mut control,
        &mut feeds,
        None,
        Err(RunFault::ReadFault(0)),
    );
    is_gone(&rt, feeds.get(0), &dropped, false);
    // All items that are left.
    pulls(&rt, &mut control, &mut feeds, Some(3), Ok(()));
    is_gone(&rt, feeds.get(0), &dropped, false);
    pulls(&rt, &mut control, &mut feeds, Some(1), Ok(()));
    is_gone(&rt, feeds.get(0), &dropped, true);
    pulls(&rt, &mut control, &mut feeds, None, Ok(()));
    is_gone(&rt, feeds.get(0), &dropped, true);
}

/// Two sessions, the second of which is not pulled past its last item.
const ONE_END_OF_TWO: Run<'static> = Run {
    words: &["offline", "config", "book", "none", "first", "second"],
    config: "\
interface = [{number = 0, role = \"customer\", mode = \"feasible\"}]
session = [{interface = 0, peer_as = 64501}, {interface = 0, peer_as = 64501}]
",
    book: "pull 0 all\npull 1 4\n",
    text: "run interfaces 1 sessions 2 pairs 0 skipped 0\n\
        publish 0 edits 0 cells 0 items 0 0\n\
        end 0 items 4 rest 0\n\
        done publications 0 packets 0\n",
    ..DONE
};

#[test]
fn a_run_drops_only_the_feeds_whose_end_it_meets(rt: HostRuntime) {
    let ended = tally(&rt);
    let going = tally(&rt);
    let first = watched(&rt, &[], &tally(&rt), &ended);
    let second = watched(&rt, &[], &tally(&rt), &going);
    let first: BoxedFeed = Box::new(rt.alloc(), first).expect(&rt, "memory");
    let second: BoxedFeed = Box::new(rt.alloc(), second).expect(&rt, "memory");
    let feeds = Vec::from_array(rt.alloc(), [Some(first), Some(second)]);
    let mut feeds = feeds.expect(&rt, "memory");
    let status = status_over(&rt, &ONE_END_OF_TWO, &mut feeds, &mut sink(&rt, &[]));
    assert_eq!(rt; status, Status::Done);
    is_gone(&rt, feeds.get(0), &ended, true);
    is_gone(&rt, feeds.get(1), &going, false);
    ends(&rt, &ONE_END_OF_TWO);
}
