//! What a document configures that breaks no rule: its interfaces by ascending number, and its
//! sessions in their order.
ghost use Rattle.std.specs.Prelude.{◌≡◌, ◌<◌, ◌++◌, IfOk, OnOk, None, filter_map, map};
ghost use Rattle.toml.specs.View.{view};
ghost use Rattle.router_config.specs.Kinds.{AllBelow};
ghost use Rattle.router_config.specs.Rules.{first_broken, rules, sessions_of};
ghost use Rattle.router_config.specs.Settings.{kind_at, kind_of, row_of, rows_below, session_of, settings_of};

use crate::config::Config;
use crate::interfaces::{has_number, mode_of, role_of};
use crate::kinds::Kinds;
use crate::rules::{interfaces_of, sessions_at};
use crate::sessions::{hold_of, iface_of, max_of, peer_as_of};
use std::alloc::Global;
use toml::Value;
use urpf_base::{IFACE_LIMIT, IfaceId, Kind, OutOfMemory, SessionConfig};

/// What the document configures, which breaks no rule.
pub(crate) fn settings_of(alloc: Global, document: &Value) -> Result<Config, OutOfMemory>
    requires { first_broken (rules (view document.now)) ≡ None }
    ensures { IfOk result (λ config. config ≡ settings_of (view document.now)) }
{
    let interfaces = interfaces_of(document);
    let kinds = kinds_of(alloc, interfaces)?;
    let sessions = read_sessions(alloc, interfaces, sessions_of(document))?;
    Ok(Config::new(kinds, sessions))
}

/// The sessions of a document: none where it leaves them out.
fn sessions_of(document: &Value) -> &[Value]
    ensures { map view result.now ≡ sessions_of (view document.now) }
{
    match sessions_at(document) {
        Some(sessions) => sessions,
        None => &[],
    }
}

/// The interfaces, each with its kind, by ascending number.
fn kinds_of(alloc: Global, interfaces: &[Value]) -> Result<Kinds, OutOfMemory>
    ensures { IfOk result (λ kinds. kinds ≡ rows_below (map view interfaces.now) 64) }
{
    let mut kinds = Kinds::new(alloc);
    for number in 0..IFACE_LIMIT {
        push_kind(&mut kinds, number, kind_at(interfaces, number))?;
    }
    Ok(kinds)
}

/// Puts the interface with this number at the end, where there is one.
fn push_kind(kinds: &mut Kinds, number: u16, kind: Option<Kind>) -> Result<(), OutOfMemory>
    requires below { AllBelow kinds.old number }
    requires within { number < 64 }
    ensures ok { OnOk result (kinds.new ≡ kinds.old ++ row_of number kind) }
{
    let Some(kind) = kind else {
        return Ok(());
    };
    let Some(id) = IfaceId::new(number) else {
        return Ok(());
    };
    kinds.push(id, kind)
}

/// The kind of the interface with this number. None where no interface has it.
fn kind_at(interfaces: &[Value], number: u16) -> Option<Kind>
    ensures { result ≡ kind_at (map view interfaces.now) number }
{
    for interface in interfaces {
        if has_number(number as u32, interface) {
            return kind_of(interface);
        }
    }
    None
}

/// The kind of an interface. None where its role or its mode is none.
fn kind_of(interface: &Value) -> Option<Kind>
    ensures { result ≡ kind_of (view interface.now) }
{
    let Some(role) = role_of(interface) else {
        return None;
    };
    let Some(mode) = mode_of(interface) else {
        return None;
    };
    Some(Kind { role, mode })
}

/// The sessions in their order.
fn read_sessions(
    alloc: Global,
    interfaces: &[Value],
    sessions: &[Value],
) -> Result<Vec<SessionConfig>, OutOfMemory>
    ensures { IfOk result (λ read. read.items
        ≡ filter_map (session_of (map view interfaces.now)) (map view sessions.now)) }
{
    let mut read = Vec::new(alloc);
    for session in sessions {
        let Some(session) = session_of(interfaces, session) else {
            continue;
        };
        let Ok(()) = read.push(session) else {
            return Err(OutOfMemory);
        };
    }
    Ok(read)
}

/// What a session is configured with. None where a part of it is out of its range.
fn session_of(interfaces: &[Value], session: &Value) -> Option<SessionConfig>
    ensures { result ≡ session_of (map view interfaces.now) (view session.now) }
{
    let Some(number) = iface_of(interfaces, session) else {
        return None;
    };
    let Some(peer_as) = peer_as_of(session) else {
        return None;
    };
    let Some(hold) = hold_of(session) else {
        return None;
    };
    let Some(max) = max_of(session) else {
        return None;
    };
    let Some(iface) = IfaceId::new(number as u16) else {
        return None;
    };
    Some(SessionConfig {
        iface,
        peer_as,
        hold: hold as u16,
        max,
    })
}
