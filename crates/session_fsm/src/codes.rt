//! The error codes that a session itself gives (RFC 4271, section 4.5), and their subcodes. Those of
//! faulty messages stand with the readers of these.

/// No KEEPALIVE and no UPDATE came within the hold time (RFC 4271, section 6.5).
pub const HOLD_TIMER_EXPIRED: u8 = 4;

/// A message came in a state that does not expect it (RFC 4271, section 6.6).
pub const FINITE_STATE_MACHINE_ERROR: u8 = 5;

/// This side ends the session (RFC 4271, section 6.7).
pub const CEASE: u8 = 6;

/// A fault that has no subcode of its own.
pub const UNSPECIFIC: u8 = 0;

/// Of CEASE: the peer announces more prefixes than are allowed (RFC 4486, section 4).
pub const MAXIMUM_PREFIXES_REACHED: u8 = 1;
