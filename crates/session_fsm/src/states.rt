//! The states of a session (RFC 4271, section 8.2.2), and the seconds that it waits for its peer
//! (RFC 4271, section 6.5).
ghost use Rattle.std.specs.Prelude.{◌≡◌};
ghost use Rattle.session_fsm.specs.Seconds as spec;

use as_path::Width;

/// The seconds in OpenSent after which a session ends, four minutes (RFC 4271, section 8.2.2).
pub const LARGE_HOLD_TIME: u16 = 240;

/// The seconds that passed since the peer was last heard of.
#[derive(Clone, Copy, Debug, PartialEq, Eq)]
pub struct Timer {
    /// The seconds that passed; they stay at 2^32 - 1.
    pub elapsed: u32,
    /// The seconds after which the session ends. Where it is 0, none are too many.
    pub limit: u16,
}

/// What the OPEN of the peer told, by which its UPDATEs are read.
#[derive(Clone, Copy, Debug, PartialEq, Eq)]
pub struct Peer {
    /// The octets of its AS numbers (RFC 6793, section 4.1).
    pub width: Width,
    /// Whether it listed IPv6 unicast (RFC 4760, section 8).
    pub v6: bool,
}

/// A state of the machine.
#[derive(Clone, Copy, Debug, PartialEq, Eq)]
pub enum State {
    /// There is no session.
    Idle,
    /// The OPEN of the peer is waited for.
    OpenSent(Timer),
    /// The first KEEPALIVE of the peer is waited for.
    OpenConfirm(Timer, Peer),
    /// Routes are exchanged.
    Established(Timer, Peer),
}

impl Timer {
    /// A timer that starts now. A limit of 0 never ends.
    pub fn new(limit: u16) -> Timer
        ensures { result ≡ spec.started limit }
    {
        Timer { elapsed: 0, limit }
    }

    /// The same limit, and no second of it has passed.
    pub fn restarted(self) -> Timer
        ensures { result ≡ spec.started self.limit }
    {
        Timer::new(self.limit)
    }

    /// So many seconds later. The seconds that passed stay at 2^32 - 1.
    pub fn later(self, seconds: u32) -> Timer
        ensures { result ≡ spec.later self seconds }
    {
        Timer {
            elapsed: self.elapsed.saturating_add(seconds),
            limit: self.limit,
        }
    }

    /// Whether the limit is reached so many seconds later. A limit of 0 is never reached.
    pub fn expires(self, seconds: u32) -> bool
        ensures { result ≡ spec.expires self seconds }
    {
        if self.limit == 0 {
            return false;
        }
        self.limit as u64 <= self.elapsed as u64 + seconds as u64
    }
}
