//! What an interface is configured as: who is behind it, and how sources are checked there.
ghost use Rattle.std.specs.Prelude.{◌≡◌};
ghost use Rattle.urpf_base.specs.Kinds.{mode_for};

/// Who is behind an interface (RFC 8704, section 2.1).
#[derive(Clone, Copy, Debug, PartialEq, Eq)]
pub enum Role {
    /// A customer, whose sources are checked by the sets of its routes.
    Customer,
    /// A lateral peer.
    Peer,
    /// A transit provider.
    Provider,
}

/// How the sources of packets are checked on an interface.
#[derive(Clone, Copy, Debug, PartialEq, Eq)]
pub enum Mode {
    /// Every source passes.
    Off,
    /// By the prefixes of the routes that the interface has (RFC 3704, section 2.3).
    Feasible,
    /// By the prefixes of all routes (RFC 3704, section 2.4).
    Loose,
    /// By the prefixes of all routes but the default routes (RFC 3704, section 2.4).
    LooseNoDefault,
    /// Enhanced feasible-path by Algorithm A (RFC 8704, section 3.1.1).
    EfpA,
    /// Enhanced feasible-path by Algorithm B (RFC 8704, section 3.4).
    EfpB,
}

/// The role and the mode of an interface.
#[derive(Clone, Copy, Debug, PartialEq, Eq)]
pub struct Kind {
    pub role: Role,
    pub mode: Mode,
}

impl Kind {
    /// The mode that sources are checked in. It is the configured one, but an interface that is no
    /// customer's is checked as loose where that is `EfpA` or `EfpB`.
    pub fn effective(&self) -> Mode
        ensures { result ≡ mode_for self.now.role self.now.mode }
    {
        match self.role {
            Role::Customer => self.mode,
            Role::Peer | Role::Provider => off_customers(self.mode),
        }
    }
}

/// The mode of an interface that is no customer's.
fn off_customers(mode: Mode) -> Mode
    ensures { (result ≡ mode_for Role.Peer mode) × (result ≡ mode_for Role.Provider mode) }
{
    match mode {
        Mode::EfpA | Mode::EfpB => Mode::Loose,
        other => other,
    }
}
