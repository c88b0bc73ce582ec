//! The rules of a session: a table and the interfaces come in, and the first rule that is broken
//! goes out.
//!
//! ```text
//! [[session]]
//! interface = 0             # the number of an interface of the document
//! peer_as = 64501           # from 1 to 4,294,967,295
//! hold = 90                 # seconds: 0, or from 3 to 65,535; may be left out
//! max_prefixes = 2000000    # from 1 to 4,000,000; may be left out
//! ```
ghost use Rattle.std.specs.Prelude.{◌≡◌, ◌<◌, ◌≤◌, ◌^◌, [], IfSome, length, map};
ghost use Rattle.toml.specs.View.{view};
ghost use Rattle.router_config.specs.Rules.{as_hold, each, first_broken, hold_of, iface_of, is_hold, max_of};
ghost use Rattle.router_config.specs.Rules.{peer_as_of, session_rules};

use crate::documents::{Place, as_number, has_known_keys, number_at};
use crate::faults::{ConfigFault, ConfigKind, broken};
use crate::interfaces::{NUMBER_MAX, is_free};
use toml::Value;

/// The greatest hold time in seconds (RFC 4271, section 4.2: two octets).
const HOLD_MAX: u32 = 65_535;

/// The hold time where none is given (RFC 4271, section 10, suggests 90 seconds).
const HOLD_DEFAULT: u32 = 90;

/// The most prefixes that a session can be given. Our own choice.
const PREFIXES_MAX: u32 = 4_000_000;

/// The most prefixes of a session where none are given. Our own choice.
const PREFIXES_DEFAULT: u32 = 2_000_000;

/// The first rule that a session breaks, in their order.
pub(crate) fn sessions_fault(interfaces: &[Value], sessions: &[Value]) -> Option<ConfigFault>
    requires { length sessions.now ≤ 128 }
    ensures { result ≡ first_broken (each (λ before. session_rules (map view interfaces.now) (length before)) []
        (map view sessions.now)) }
{
    for index in 0..sessions.len() {
        let fault = session_fault(interfaces, index as u32, &sessions[index]);
        if fault.is_some() {
            return fault;
        }
    }
    None
}

/// The first rule that the session at this place breaks.
fn session_fault(interfaces: &[Value], index: u32, session: &Value) -> Option<ConfigFault>
    ensures { result ≡ first_broken (session_rules (map view interfaces.now) index (view session.now)) }
{
    if !has_known_keys(Place::Session, session) {
        return broken(ConfigKind::UnknownKey, index);
    }
    let Some(_) = iface_of(interfaces, session) else {
        return broken(ConfigKind::Interface, index);
    };
    let Some(_) = peer_as_of(session) else {
        return broken(ConfigKind::PeerAs, index);
    };
    let Some(_) = hold_of(session) else {
        return broken(ConfigKind::Hold, index);
    };
    let Some(_) = max_of(session) else {
        return broken(ConfigKind::MaxPrefixes, index);
    };
    None
}

/// The interface of a session. None where it names none of these.
pub(crate) fn iface_of(interfaces: &[Value], session: &Value) -> Option<u32>
    ensures value { result ≡ iface_of (map view interfaces.now) (view session.now) }
    ensures within { IfSome result (λ number. number ≤ 63) }
{
    let Some(number) = number_at(session, "interface", 0, NUMBER_MAX) else {
        return None;
    };
    if is_free(interfaces, number) {
        return None;
    }
    Some(number)
}

/// The AS number of the peer. None where it has none from 1 to 4,294,967,295.
pub(crate) fn peer_as_of(session: &Value) -> Option<u32>
    ensures { result ≡ peer_as_of (view session.now) }
{
    number_at(session, "peer_as", 1, u32::MAX)
}

/// The hold time in seconds. None where what is given is none.
pub(crate) fn hold_of(session: &Value) -> Option<u32>
    ensures value { result ≡ hold_of (view session.now) }
    ensures within { IfSome result (λ seconds. seconds ≤ 65535) }
{
    match session.get("hold") {
        Some(value) => as_hold(value),
        None => Some(HOLD_DEFAULT),
    }
}

fn as_hold(value: &Value) -> Option<u32>
    ensures value { result ≡ as_hold (view value.now) }
    ensures within { IfSome result (λ seconds. seconds ≤ 65535) }
{
    let Some(seconds) = as_number(value, 0, HOLD_MAX) else {
        return None;
    };
    if !is_hold(seconds) {
        return None;
    }
    Some(seconds)
}

/// Whether this is a hold time (RFC 4271, section 4.2).
fn is_hold(seconds: u32) -> bool
    ensures { result ≡ is_hold seconds }
{
    seconds == 0 || seconds >= 3
}

/// The most prefixes that a session may hold. None where what is given is out of its range.
pub(crate) fn max_of(session: &Value) -> Option<u32>
    ensures { result ≡ max_of (view session.now) }
{
    match session.get("max_prefixes") {
        Some(value) => as_number(value, 1, PREFIXES_MAX),
        None => Some(PREFIXES_DEFAULT),
    }
}
