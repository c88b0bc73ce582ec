//! Sets of pairs: what each call answers where memory is ample, and the order of a walk.
ghost use Rattle.std.specs.Prelude.{◌<◌, ◌≤◌, ◌+◌, length};

use super::maps::{HOST, NET, long, short};
use origin_pairs::{PairSet, pair_laws};
use std::process::Abort;
use urpf_base::Prefix;

/// Adds a pair. Whether it is new.
fn adds(rt: &impl Abort, set: &mut PairSet, prefix: &Prefix, asn: u32) -> bool
    requires { length set.old < 100 }
    ensures { length set.new ≤ length set.old + 1 }
{
    set.add(prefix, asn).expect(rt, "memory")
}

#[test]
fn a_pair_is_there_once(rt: HostRuntime) {
    let net = short(&rt, NET, 24);
    let mut set = PairSet::new(rt.alloc());
    assert!(rt; adds(&rt, &mut set, &net, 64500), "it is new");
    assert!(rt; !adds(&rt, &mut set, &net, 64500), "it is there");
    assert!(rt;
        adds(&rt, &mut set, &net, 64501),
        "another AS is another pair"
    );
    assert!(rt; set.remove(&net, 64500), "it was there");
    assert!(rt; !set.remove(&net, 64500), "it is gone");
    let mut pairs = set.pairs();
    assert_eq!(rt; pairs.next(), Some((net, 64501)));
    assert_eq!(rt; pairs.next(), None);
    pair_laws();
}

#[test]
fn a_walk_is_by_prefix_and_then_by_as(rt: HostRuntime) {
    let mut set = PairSet::new(rt.alloc());
    adds(&rt, &mut set, &long(&rt, HOST, 32), 64496);
    adds(&rt, &mut set, &short(&rt, NET, 25), 64496);
    adds(&rt, &mut set, &short(&rt, NET, 24), 64511);
    adds(&rt, &mut set, &short(&rt, NET, 24), 64500);
    let mut pairs = set.pairs();
    assert_eq!(rt; pairs.next(), Some((short(&rt, NET, 24), 64500)));
    assert_eq!(rt; pairs.next(), Some((short(&rt, NET, 24), 64511)));
    assert_eq!(rt; pairs.next(), Some((short(&rt, NET, 25), 64496)));
    assert_eq!(rt; pairs.next(), Some((long(&rt, HOST, 32), 64496)));
    assert_eq!(rt; pairs.next(), None);
}
