//! The calls of a control of one session, over the plain engine and over one that wants memory.
ghost use Rattle.std.specs.Prelude.{◌≡◌, ◌≤◌, length};
ghost use Rattle.control_core.specs.declared.limits.TheConstants.{ITEM_LIMIT, OCTET_LIMIT};
ghost use Rattle.control_core.specs.Controls.{IsOpened, without_pairs};
ghost use Rattle.rpf_plain.specs.Engine.{new_engine};
ghost use Rattle.rpf_plain.specs.World.{roles_of};

use crate::tests::inputs::{Event, FULL, ONE_CUSTOMER, feed, sink};
use control_core::{
    Control, ITEM_LIMIT, Limits, OCTET_LIMIT, RunFault, assigned_limits, cuts_do_not_count,
    items_of_a_front, one_list_of_items, one_more_update, one_rest, one_run,
};
use cover_table::Snapshot;
use feed_io::BoxedFeed;
use message_octets::{KEEPALIVE, OPEN, TWO_PREFIXES};
use router_config::{Config, Edit, read_config};
use rpf_plain::{PlainEngine, SetEngine};
use std::process::Abort;
use urpf_base::{
    Addr, Cell, Changes, IfaceId, Line, Mode, Origin, OutOfMemory, Prefix, Role, Verdict,
};

/// A session that is pulled to its end within these limits, what comes of the pull, and a publication
/// behind it.
#[derive(Clone, Copy)]
struct Pulled {
    limits: Limits,
    events: &'static [Event<'static>],
    result: Result<(), RunFault>,
    text: &'static str,
    summary: &'static str,
    /// The number of the publication, and how many cells it changed.
    published: Result<(u64, u64), OutOfMemory>,
    /// The items that the session took at the last publication.
    items: u64,
    /// Whether a source of 198.51.100.0/24 passes then.
    verdict: Verdict,
}

/// The limits of a run.
pub const ASSIGNED: Limits = Limits {
    items: ITEM_LIMIT,
    octets: OCTET_LIMIT,
};

/// A full session, which has one route.
const ONE_ROUTE: Pulled = Pulled {
    limits: ASSIGNED,
    events: FULL,
    result: Ok(()),
    text: "end 0 items 4 rest 0\n",
    summary: "summary rows 1 pairs 0\n",
    published: Ok((1, 1)),
    items: 4,
    verdict: Verdict::Pass,
};

/// More items than the limit.
const FOUR_ITEMS_OF_THREE: Pulled = Pulled {
    limits: Limits {
        items: 3,
        octets: 1000,
    },
    result: Err(RunFault::ItemLimit(0)),
    text: "",
    summary: "summary rows 0 pairs 0\n",
    published: Ok((1, 0)),
    items: 3,
    verdict: Verdict::Drop,
    ..ONE_ROUTE
};

const PULLED: &[Pulled] = &[
    ONE_ROUTE,
    FOUR_ITEMS_OF_THREE,
    // The OPEN has 37 octets, and the KEEPALIVE 19.
    Pulled {
        limits: Limits {
            items: 1000,
            octets: 56,
        },
        result: Err(RunFault::OctetLimit(0)),
        ..FOUR_ITEMS_OF_THREE
    },
];

/// An UPDATE of two prefixes, over an engine that has room for one.
const TWO_ROUTES_IN_THE_ROOM_OF_ONE: Pulled = Pulled {
    events: &[
        Event::Up,
        Event::Octets(&OPEN),
        Event::Octets(&KEEPALIVE),
        Event::Octets(&TWO_PREFIXES),
    ],
    result: Err(RunFault::OutOfMemory),
    text: "",
    summary: "summary rows 0 pairs 0\n",
    published: Err(OutOfMemory),
    items: 0,
    verdict: Verdict::Drop,
    ..ONE_ROUTE
};

/// A configuration with one session, and an engine of its interfaces.
pub fn configured(rt: &(impl Abort + AllocGlobal)) -> (Config, PlainEngine)
    ensures engine { result.1 ≡ new_engine (roles_of result.0.interfaces) }
    ensures sessions { length result.0.sessions ≡ 1 }
{
    let Ok(config) = read_config(rt.alloc(), ONE_CUSTOMER.as_bytes()) else {
        panic!(rt; "no configuration");
    };
    assert_eq!(rt; config.sessions(), 1);
    let kinds = config.kinds().expect(rt, "memory");
    let engine = PlainEngine::new(rt.alloc(), &kinds).expect(rt, "memory");
    (config, engine)
}

/// A control of the sessions over the engine, within these limits.
pub fn opened<E: SetEngine>(
    rt: &(impl Abort + AllocGlobal),
    config: Config,
    engine: E,
    limits: Limits,
) -> Control<E>
    requires { E.state engine ≡ new_engine (roles_of config.interfaces) }
    ensures opened { IsOpened (without_pairs config) limits result }
    ensures sessions { length result.peers ≡ length config.sessions }
{
    assert!(rt; limits.items <= ITEM_LIMIT && limits.octets <= OCTET_LIMIT);
    Control::new(rt.alloc(), engine, config, limits).expect(rt, "memory")
}

/// That this comes of a control over the engine, once it took an edit that changes nothing.
fn comes<E: SetEngine>(rt: &(impl Abort + AllocGlobal), config: Config, engine: E, row: &Pulled)
    requires engine { E.state engine ≡ new_engine (roles_of config.interfaces) }
    requires sessions { length config.sessions ≡ 1 }
{
    let iface = IfaceId::new(0).expect(rt, "an interface");
    assert!(rt; config.kind(iface).is_some());
    let mut snapshot = Snapshot::new(rt.alloc(), config.kinds().expect(rt, "memory"));
    let mut control = opened(rt, config, engine, row.limits);
    let edit = Edit::Mode(iface, Mode::Feasible);
    control.edit(&edit).expect(rt, "memory");
    let mut out = sink(rt, &[]);
    let feed: BoxedFeed = Box::new(rt.alloc(), feed(rt, row.events, &[])).expect(rt, "memory");
    let mut feeds = Vec::from_array(rt.alloc(), [Some(feed)]).expect(rt, "memory");
    let result = control.pull(&mut feeds, 0, None, &mut out);
    assert_eq!(rt; result, row.result);
    assert_eq!(rt; out.held(), row.text.as_bytes());
    let mut line = Line::new();
    control.put_summary(&mut line);
    assert_eq!(rt; line.bytes(), row.summary.as_bytes());
    let published = match control.publish_batch() {
        Ok(batch) => {
            snapshot.absorb(&batch).expect(rt, "memory");
            Ok((batch.number, batch.changes.items().len() as u64))
        }
        Err(OutOfMemory) => Err(OutOfMemory),
    };
    assert_eq!(rt; published, row.published);
    let verdict = snapshot.check(iface.number(), Some(Addr::V4(0xC633_6409)));
    assert_eq!(rt; verdict, row.verdict);
    let number = control.number();
    for mark in control.marks().items() {
        if mark.number() == number && number > 0 {
            assert_eq!(rt; mark.edits(), 1);
            assert_eq!(rt; mark.items(), [row.items].as_slice());
        }
    }
}

/// That these come of a control over the plain engine.
fn come(rt: &(impl Abort + AllocGlobal), rows: &[Pulled]) {
    for row in rows {
        let (config, engine) = configured(rt);
        comes(rt, config, engine, row);
    }
}

#[test]
fn a_session_is_pulled_and_published(rt: HostRuntime) {
    assigned_limits();
    one_list_of_items();
    one_rest();
    cuts_do_not_count();
    items_of_a_front();
    one_run();
    one_more_update();
    come(&rt, PULLED);
}

/// An engine that has room for one prefix of an interface.
#[derive(Drop)]
struct SmallEngine {
    sets: PlainEngine,
    full: bool,
}

impl SetEngine for SmallEngine {
    ghost state = { λ e. e.sets };

    fn add_row(
        &mut self,
        iface: IfaceId,
        prefix: Prefix,
        origin: Origin,
    ) -> Result<(), OutOfMemory> {
        if self.full && !self.sets.cell(&prefix).f.has(iface) {
            return Err(OutOfMemory);
        }
        self.full = true;
        self.sets.add_row(iface, prefix, origin)
    }

    fn remove_row(&mut self, iface: IfaceId, prefix: &Prefix, origin: Origin) {
        self.full = false;
        self.sets.remove_row(iface, prefix, origin);
    }

    fn set_role(&mut self, iface: IfaceId, role: Role) -> Result<(), OutOfMemory> {
        self.sets.set_role(iface, role)
    }

    fn add_pair(&mut self, prefix: Prefix, asn: u32) -> Result<bool, OutOfMemory> {
        self.sets.add_pair(prefix, asn)
    }

    fn remove_pair(&mut self, prefix: &Prefix, asn: u32) -> bool {
        self.sets.remove_pair(prefix, asn)
    }

    fn cell(&self, prefix: &Prefix) -> Cell {
        self.sets.cell(prefix)
    }

    fn drain_changes(&mut self) -> Result<Changes, OutOfMemory> {
        self.sets.drain_changes()
    }
}

#[test]
fn an_update_whose_second_row_is_refused_leaves_none(rt: HostRuntime) {
    let (config, sets) = configured(&rt);
    let engine = SmallEngine { sets, full: false };
    comes(&rt, config, engine, &TWO_ROUTES_IN_THE_ROOM_OF_ONE);
}
