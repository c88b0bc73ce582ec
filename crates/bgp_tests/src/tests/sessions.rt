//! What no clause says: each state against each kind of item, with octets made by hand, and the
//! seconds that a session waits.
ghost use Rattle.std.specs.Prelude.{IsTrue};
ghost use Rattle.session_fsm.specs.Items.{IsWhole};

use bgp_wire::MsgKind;
use message_octets::{
    ANNOUNCE, KEEPALIVE, NOTIFICATION, OPEN, OPEN_OF_64502, OPEN_TWO_OCTET, body,
};
use session_fsm::{Effect, Item, Session};
use std::process::Abort;
use urpf_base::{IfaceId, Origin, ResetCause, SessionConfig};

/// What an effect is, without the octets that it borrows: of changed routes their origin.
#[derive(Clone, Copy, Debug, PartialEq, Eq)]
enum Seen {
    Nothing,
    Advanced,
    Reset(ResetCause),
    Changes(Origin),
}

/// The states, as a KEEPALIVE tells them apart.
#[derive(Clone, Copy, Debug, PartialEq, Eq)]
enum Stage {
    Idle,
    OpenSent,
    OpenConfirm,
    Established,
}

/// What comes to a session: a whole message with its octets, or an item of its own.
#[derive(Clone, Copy)]
enum Input {
    Whole(MsgKind, &'static [u8]),
    Bare(Item<'static>),
}

const AN_OPEN: Input = Input::Whole(MsgKind::Open, &OPEN);

const AN_UPDATE: Input = Input::Whole(MsgKind::Update, &ANNOUNCE);

const A_KEEPALIVE: Input = Input::Whole(MsgKind::Keepalive, &KEEPALIVE);

const UP: Input = Input::Bare(Item::Up);

/// So many seconds pass.
fn seconds(count: u32) -> Input {
    Input::Bare(Item::Elapsed(count))
}

/// 198.51.100.0/24 with ORIGIN, an AS_PATH of 64501 and a NEXT_HOP, and a prefix length of 33.
const BAD_UPDATE: Input = Input::Bare(Item::Message(
    MsgKind::Update,
    b"\x00\x00\
        \x00\x14\
        \x40\x01\x01\x00\
        \x40\x02\x06\x02\x01\x00\x00\xFB\xF5\
        \x40\x03\x04\xC0\x00\x02\x01\
        \x21\xC6\x33\x64",
));

/// The item of an input.
fn item_of(input: Input) -> Item<'static> {
    match input {
        Input::Whole(kind, message) if message.len() >= 19 => Item::Message(kind, body(message)),
        Input::Whole(kind, _) => Item::Message(kind, b""),
        Input::Bare(item) => item,
    }
}

/// A session with a peer in AS 64501, which is offered this hold time.
fn session(rt: &impl Abort, hold: u16) -> Session {
    let iface = IfaceId::new(1).expect(rt, "a number below 64");
    Session::new(SessionConfig {
        iface,
        peer_as: 64501,
        hold,
        max: 10,
    })
}

/// Whether the item is one that a session takes.
fn is_whole(item: Item) -> bool
    ensures { IsTrue result → IsWhole item.entry }
{
    match item {
        Item::Message(MsgKind::Open, body) => body.len() >= 10,
        Item::Message(MsgKind::Update, body) => body.len() >= 4,
        Item::Message(MsgKind::Notification, body) => body.len() >= 2,
        Item::Message(MsgKind::Keepalive, _) => true,
        Item::Up => true,
        Item::HeaderFault(_) => true,
        Item::Down => true,
        Item::Elapsed(_) => true,
    }
}

/// What an item does to a session.
fn take(rt: &impl Abort, session: &mut Session, input: Input) -> Seen {
    let item = item_of(input);
    let whole = is_whole(item);
    assert!(rt; whole);
    let items = session.items();
    assert!(rt; items < 1_000_000);
    let seen = shown(session.step(item));
    assert_eq!(rt; session.items(), items + 1);
    seen
}

fn shown(effect: Effect) -> Seen {
    match effect {
        Effect::Nothing => Seen::Nothing,
        Effect::Advanced => Seen::Advanced,
        Effect::Reset(cause) => Seen::Reset(cause),
        Effect::Changes(update) => Seen::Changes(update.origin()),
    }
}

/// The state that a session is in, told by what it does on a KEEPALIVE.
fn stage_of(rt: &impl Abort, session: &mut Session) -> Stage {
    let was_established = session.established();
    match take(rt, session, A_KEEPALIVE) {
        Seen::Reset(_) => Stage::OpenSent,
        Seen::Advanced => Stage::OpenConfirm,
        _ if was_established => Stage::Established,
        _ => Stage::Idle,
    }
}

/// A session in Idle, OpenSent, OpenConfirm or Established, by how many items lead there.
fn session_after(rt: &impl Abort, steps: usize, hold: u16) -> Session {
    let mut session = session(rt, hold);
    if steps > 0 {
        assert_eq!(rt; take(rt, &mut session, UP), Seen::Advanced);
    }
    if steps > 1 {
        assert_eq!(rt; take(rt, &mut session, AN_OPEN), Seen::Advanced);
    }
    if steps > 2 {
        assert_eq!(rt; take(rt, &mut session, A_KEEPALIVE), Seen::Advanced);
    }
    session
}

/// An item, and what it does in Idle, OpenSent, OpenConfirm and Established, with the next state.
#[derive(Clone, Copy)]
struct Row {
    name: &'static str,
    input: Input,
    outcomes: [(Seen, Stage); 4],
}

const CLOSED: Seen = Seen::Reset(ResetCause::Closed);

const UNEXPECTED: (Seen, Stage) = (Seen::Reset(ResetCause::Fault(5, 0)), Stage::Idle);

const EXPIRED: (Seen, Stage) = (Seen::Reset(ResetCause::Fault(4, 0)), Stage::Idle);

const STAYS_IDLE: (Seen, Stage) = (Seen::Nothing, Stage::Idle);

const STAYS_OPEN_SENT: (Seen, Stage) = (Seen::Nothing, Stage::OpenSent);

const STAYS_OPEN_CONFIRM: (Seen, Stage) = (Seen::Nothing, Stage::OpenConfirm);

const STAYS_ESTABLISHED: (Seen, Stage) = (Seen::Nothing, Stage::Established);

const ROWS: [Row; 13] = [
    Row {
        name: "the transport comes up",
        input: Input::Bare(Item::Up),
        outcomes: [
            (Seen::Advanced, Stage::OpenSent),
            (CLOSED, Stage::OpenSent),
            (CLOSED, Stage::OpenSent),
            (CLOSED, Stage::OpenSent),
        ],
    },
    Row {
        name: "the transport goes down",
        input: Input::Bare(Item::Down),
        outcomes: [
            STAYS_IDLE,
            (CLOSED, Stage::Idle),
            (CLOSED, Stage::Idle),
            (CLOSED, Stage::Idle),
        ],
    },
    Row {
        name: "a header with a bad length",
        input: Input::Bare(Item::HeaderFault(2)),
        outcomes: [
            STAYS_IDLE,
            (Seen::Reset(ResetCause::Fault(1, 2)), Stage::Idle),
            (Seen::Reset(ResetCause::Fault(1, 2)), Stage::Idle),
            (Seen::Reset(ResetCause::Fault(1, 2)), Stage::Idle),
        ],
    },
    Row {
        name: "a NOTIFICATION",
        input: Input::Whole(MsgKind::Notification, &NOTIFICATION),
        outcomes: [
            STAYS_IDLE,
            (Seen::Reset(ResetCause::Notified(6, 0)), Stage::Idle),
            (Seen::Reset(ResetCause::Notified(6, 0)), Stage::Idle),
            (Seen::Reset(ResetCause::Notified(6, 0)), Stage::Idle),
        ],
    },
    Row {
        name: "89 seconds",
        input: Input::Bare(Item::Elapsed(89)),
        outcomes: [
            STAYS_IDLE,
            STAYS_OPEN_SENT,
            STAYS_OPEN_CONFIRM,
            STAYS_ESTABLISHED,
        ],
    },
    Row {
        name: "90 seconds",
        input: Input::Bare(Item::Elapsed(90)),
        outcomes: [STAYS_IDLE, STAYS_OPEN_SENT, EXPIRED, EXPIRED],
    },
    Row {
        name: "239 seconds",
        input: Input::Bare(Item::Elapsed(239)),
        outcomes: [STAYS_IDLE, STAYS_OPEN_SENT, EXPIRED, EXPIRED],
    },
    Row {
        name: "240 seconds",
        input: Input::Bare(Item::Elapsed(240)),
        outcomes: [STAYS_IDLE, EXPIRED, EXPIRED, EXPIRED],
    },
    Row {
        name: "an OPEN",
        input: AN_OPEN,
        outcomes: [
            STAYS_IDLE,
            (Seen::Advanced, Stage::OpenConfirm),
            UNEXPECTED,
            UNEXPECTED,
        ],
    },
    Row {
        name: "an OPEN of another AS",
        input: Input::Whole(MsgKind::Open, &OPEN_OF_64502),
        outcomes: [
            STAYS_IDLE,
            (Seen::Reset(ResetCause::Fault(2, 2)), Stage::Idle),
            UNEXPECTED,
            UNEXPECTED,
        ],
    },
    Row {
        name: "a KEEPALIVE",
        input: A_KEEPALIVE,
        outcomes: [
            STAYS_IDLE,
            UNEXPECTED,
            (Seen::Advanced, Stage::Established),
            STAYS_ESTABLISHED,
        ],
    },
    Row {
        name: "an UPDATE",
        input: AN_UPDATE,
        outcomes: [
            STAYS_IDLE,
            UNEXPECTED,
            UNEXPECTED,
            (Seen::Changes(Some(64501)), Stage::Established),
        ],
    },
    Row {
        name: "an UPDATE with a bad prefix",
        input: BAD_UPDATE,
        outcomes: [
            STAYS_IDLE,
            UNEXPECTED,
            UNEXPECTED,
            (Seen::Reset(ResetCause::Fault(3, 10)), Stage::Idle),
        ],
    },
];

/// That each state takes each item by its row.
fn are_taken(rt: &impl Abort, rows: &[Row]) {
    for row in rows {
        for steps in 0..4 {
            let mut session = session_after(rt, steps, 180);
            let (effect, next) = row.outcomes[steps];
            assert_eq!(rt; take(rt, &mut session, row.input), effect, "{}", row.name);
            assert_eq!(rt; stage_of(rt, &mut session), next, "{}", row.name);
        }
    }
}

#[test]
fn each_state_takes_each_item_by_its_row(rt: HostRuntime) {
    are_taken(&rt, &ROWS);
}

#[test]
fn messages_of_the_peer_start_the_seconds_anew(rt: HostRuntime) {
    for input in [A_KEEPALIVE, AN_UPDATE] {
        let mut session = session_after(&rt, 3, 180);
        assert_eq!(rt; take(&rt, &mut session, seconds(89)), Seen::Nothing);
        take(&rt, &mut session, input);
        assert_eq!(rt; take(&rt, &mut session, seconds(60)), Seen::Nothing);
        assert_eq!(rt; take(&rt, &mut session, seconds(29)), Seen::Nothing);
        assert_eq!(rt; take(&rt, &mut session, seconds(1)), EXPIRED.0);
    }
}

#[test]
fn the_lesser_hold_time_counts_and_zero_never_ends(rt: HostRuntime) {
    let mut session = session_after(&rt, 3, 30);
    assert_eq!(rt; take(&rt, &mut session, seconds(29)), Seen::Nothing);
    assert_eq!(rt; take(&rt, &mut session, seconds(1)), EXPIRED.0);
    let mut session = session_after(&rt, 3, 0);
    for _ in 0..2 {
        assert_eq!(rt; take(&rt, &mut session, seconds(u32::MAX)), Seen::Nothing);
    }
    assert_eq!(rt; stage_of(&rt, &mut session), Stage::Established);
}

#[test]
fn an_established_session_is_ended_for_too_many_prefixes(rt: HostRuntime) {
    let mut session = session_after(&rt, 3, 180);
    let established = session.established();
    assert!(rt; established);
    assert_eq!(rt; session.cease(), ResetCause::Fault(6, 1));
    assert_eq!(rt; session.items(), 3);
    assert_eq!(rt; session.config().max, 10);
    assert_eq!(rt; stage_of(&rt, &mut session), Stage::Idle);
}

/// 198.51.100.0/24 with an AS_PATH that is well formed at both widths. At two octets it is 64501
/// 64502 and then 64503, at four two AS numbers.
const EITHER_WAY: Input = Input::Bare(Item::Message(
    MsgKind::Update,
    b"\x00\x00\
        \x00\x18\
        \x40\x01\x01\x00\
        \x40\x02\x0A\x02\x02\xFB\xF5\xFB\xF6\x02\x01\xFB\xF7\
        \x40\x03\x04\xC0\x00\x02\x01\
        \x18\xC6\x33\x64",
));

#[test]
fn two_sessions_in_turns_read_the_same_octets_each_at_its_own_width(rt: HostRuntime) {
    let mut two = session(&rt, 90);
    for input in [
        UP,
        Input::Whole(MsgKind::Open, &OPEN_TWO_OCTET),
        A_KEEPALIVE,
    ] {
        assert_eq!(rt; take(&rt, &mut two, input), Seen::Advanced);
    }
    let mut four = session_after(&rt, 3, 90);
    for _ in 0..2 {
        let seen = take(&rt, &mut four, EITHER_WAY);
        assert_eq!(rt; seen, Seen::Changes(Some(0x0201_FBF7)));
        let seen = take(&rt, &mut two, EITHER_WAY);
        assert_eq!(rt; seen, Seen::Changes(Some(64503)));
    }
    // At two octets the path goes on with a segment of type FB, which does not exist.
    assert_eq!(rt;
        take(&rt, &mut two, AN_UPDATE),
        Seen::Reset(ResetCause::Fault(3, 11))
    );
    assert_eq!(rt; take(&rt, &mut four, AN_UPDATE), Seen::Changes(Some(64501)));
}
