//! The rules of a configuration: a document comes in, and the first rule that is broken goes out.
ghost use Rattle.std.specs.Prelude.{◌≡◌, map, option_map};
ghost use Rattle.toml.specs.View.{view};
ghost use Rattle.router_config.specs.Rules.{first_broken, interfaces_of, interfaces_rules, rules, sessions_at};
ghost use Rattle.router_config.specs.Rules.{sessions_rules};

use crate::documents::{Place, as_tables, has_known_keys, tables_at};
use crate::faults::{ConfigFault, ConfigKind, broken};
use crate::interfaces::interfaces_fault;
use crate::sessions::sessions_fault;
use toml::Value;

/// The most interfaces of a configuration. Our own choice.
const INTERFACES_MAX: usize = 64;

/// The most sessions of a configuration. Our own choice.
const SESSIONS_MAX: usize = 128;

/// The first rule that a document breaks. None where it breaks none.
pub(crate) fn first_fault(document: &Value) -> Option<ConfigFault>
    ensures { result ≡ first_broken (rules (view document.now)) }
{
    if !has_known_keys(Place::Top, document) {
        return broken(ConfigKind::UnknownKey, 0);
    }
    let interfaces = interfaces_of(document);
    let fault = fault_of_interfaces(interfaces);
    if fault.is_some() {
        return fault;
    }
    fault_of_sessions(interfaces, document)
}

/// The first rule on the interfaces that is broken.
fn fault_of_interfaces(interfaces: &[Value]) -> Option<ConfigFault>
    ensures { result ≡ first_broken (interfaces_rules (map view interfaces.now)) }
{
    if interfaces.is_empty() {
        return broken(ConfigKind::Interfaces, 0);
    }
    if interfaces.len() > INTERFACES_MAX {
        return broken(ConfigKind::TooManyInterfaces, 0);
    }
    interfaces_fault(interfaces)
}

/// The first rule on the sessions that is broken.
fn fault_of_sessions(interfaces: &[Value], document: &Value) -> Option<ConfigFault>
    ensures { result ≡ first_broken (sessions_rules (map view interfaces.now) (view document.now)) }
{
    let Some(sessions) = sessions_at(document) else {
        return broken(ConfigKind::Sessions, 0);
    };
    if sessions.len() > SESSIONS_MAX {
        return broken(ConfigKind::TooManySessions, 0);
    }
    sessions_fault(interfaces, sessions)
}

/// The interfaces of a document: none where it has no array of tables there.
pub(crate) fn interfaces_of(document: &Value) -> &[Value]
    ensures { map view result.now ≡ interfaces_of (view document.now) }
{
    match tables_at(document, "interface") {
        Some(interfaces) => interfaces,
        None => &[],
    }
}

/// The sessions of a document, which may leave them out. None where something else than an array of
/// tables stands there.
pub(crate) fn sessions_at(document: &Value) -> Option<&[Value]>
    ensures { option_map (λ sessions. map view sessions.now) result ≡ sessions_at (view document.now) }
{
    match document.get("session") {
        Some(value) => as_tables(value),
        None => Some(&[]),
    }
}
