//! The rules of an interface: a table and those before it come in, and the first rule that is broken
//! goes out.
//!
//! ```text
//! [[interface]]
//! number = 0            # from 0 to 63
//! role = "customer"     # or "peer", "provider"
//! mode = "efp-a"        # or "off", "feasible", "loose", "loose-nodefault", "efp-b"
//! ```
ghost use Rattle.std.specs.Prelude.{◌≡◌, ◌<◌, ◌≤◌, ◌^◌, [], IfSome, length, map};
ghost use Rattle.std.specs.List.{list_any};
ghost use Rattle.toml.specs.View.{view};
ghost use Rattle.router_config.specs.Rules.{each, first_broken, has_number, interface_rules, is_free, mode_of};
ghost use Rattle.router_config.specs.Rules.{number_of, role_of};

use crate::documents::{Place, has_known_keys, number_at, text_at};
use crate::faults::{ConfigFault, ConfigKind, broken};
use crate::names::{read_mode, read_role};
use toml::Value;
use urpf_base::{Mode, Role};

/// The greatest number of an interface. Our own choice.
pub(crate) const NUMBER_MAX: u32 = 63;

/// The first rule that an interface breaks, in their order.
pub(crate) fn interfaces_fault(interfaces: &[Value]) -> Option<ConfigFault>
    requires { length interfaces.now ≤ 64 }
    ensures { result ≡ first_broken (each interface_rules [] (map view interfaces.now)) }
{
    for index in 0..interfaces.len() {
        let fault = interface_fault(&interfaces[..index], &interfaces[index]);
        if fault.is_some() {
            return fault;
        }
    }
    None
}

/// The first rule that an interface breaks, which stands behind those before it.
fn interface_fault(before: &[Value], interface: &Value) -> Option<ConfigFault>
    requires { length before.now < 2 ^ 32 }
    ensures { result ≡ first_broken (interface_rules (map view before.now) (view interface.now)) }
{
    let index = before.len() as u32;
    if !has_known_keys(Place::Interface, interface) {
        return broken(ConfigKind::UnknownKey, index);
    }
    let Some(number) = number_of(interface) else {
        return broken(ConfigKind::Number, index);
    };
    if !is_free(before, number) {
        return broken(ConfigKind::Repeat, index);
    }
    let Some(_) = role_of(interface) else {
        return broken(ConfigKind::Role, index);
    };
    let Some(_) = mode_of(interface) else {
        return broken(ConfigKind::Mode, index);
    };
    None
}

/// The number of an interface. None where it has none from 0 to 63.
pub(crate) fn number_of(interface: &Value) -> Option<u32>
    ensures value { result ≡ number_of (view interface.now) }
    ensures within { IfSome result (λ number. number ≤ 63) }
{
    number_at(interface, "number", 0, NUMBER_MAX)
}

/// Whether none of the interfaces has this number.
pub(crate) fn is_free(interfaces: &[Value], number: u32) -> bool
    ensures { result ≡ is_free (map view interfaces.now) number }
{
    !is_used(interfaces, number)
}

fn is_used(interfaces: &[Value], number: u32) -> bool
    ensures { result ≡ list_any (λ interface. has_number number (view interface)) interfaces.now }
{
    interfaces
        .iter()
        .any(|interface| has_number(number, interface))
}

/// Whether the interface has this number.
pub(crate) fn has_number(number: u32, interface: &Value) -> bool
    ensures { result ≡ has_number number (view interface.now) }
{
    match number_of(interface) {
        Some(other) => other == number,
        None => false,
    }
}

/// The role of an interface. None where it names none.
pub(crate) fn role_of(interface: &Value) -> Option<Role>
    ensures { result ≡ role_of (view interface.now) }
{
    match text_at(interface, "role") {
        Some(name) => read_role(name.as_bytes()),
        None => None,
    }
}

/// The mode of an interface. None where it names none.
pub(crate) fn mode_of(interface: &Value) -> Option<Mode>
    ensures { result ≡ mode_of (view interface.now) }
{
    match text_at(interface, "mode") {
        Some(name) => read_mode(name.as_bytes()),
        None => None,
    }
}
