//! The names of roles and modes: octets come in, and what they name goes out.
ghost use Rattle.std.specs.Prelude.{◌≡◌, Some};
ghost use Rattle.std.specs.Option.{IfSome};
ghost use Rattle.urpf_base.specs.declared.kinds.Mode.{Mode};
ghost use Rattle.urpf_base.specs.declared.kinds.Role.{Role};
ghost use Rattle.router_config.specs.Names.{mode_name, mode_named, role_name, role_named};

use urpf_base::{Mode, Role};

/// The role with this name: `customer`, `peer` or `provider`. None for any other text.
pub fn read_role(name: &[u8]) -> Option<Role>
    ensures value { result ≡ role_named name.now }
    ensures found { IfSome result (λ role. name.now ≡ role_name role) }
    ensures only { (role : Role) → name.now ≡ role_name role → result ≡ Some role }
{
    if name == b"customer".as_slice() {
        return Some(Role::Customer);
    }
    if name == b"peer".as_slice() {
        return Some(Role::Peer);
    }
    if name == b"provider".as_slice() {
        return Some(Role::Provider);
    }
    None
}

/// The mode with this name: `off`, `feasible`, `loose`, `loose-nodefault`, `efp-a` or `efp-b`. None
/// for any other text.
pub fn read_mode(name: &[u8]) -> Option<Mode>
    ensures value { result ≡ mode_named name.now }
    ensures found { IfSome result (λ mode. name.now ≡ mode_name mode) }
    ensures only { (mode : Mode) → name.now ≡ mode_name mode → result ≡ Some mode }
{
    if name == b"off".as_slice() {
        return Some(Mode::Off);
    }
    if name == b"feasible".as_slice() {
        return Some(Mode::Feasible);
    }
    if name == b"loose".as_slice() {
        return Some(Mode::Loose);
    }
    if name == b"loose-nodefault".as_slice() {
        return Some(Mode::LooseNoDefault);
    }
    if name == b"efp-a".as_slice() {
        return Some(Mode::EfpA);
    }
    if name == b"efp-b".as_slice() {
        return Some(Mode::EfpB);
    }
    None
}
