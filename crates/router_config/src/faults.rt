//! Why a configuration is refused.
ghost use Rattle.std.specs.Prelude.{◌≡◌, Some};

/// The rule that is broken.
#[derive(Clone, Copy, Debug, PartialEq, Eq)]
pub enum ConfigKind {
    /// The text is no TOML document.
    NotToml,
    /// A key is not one of those that are known at its place.
    UnknownKey,
    /// `interface` is no array of tables, or an empty one.
    Interfaces,
    /// There are more than 64 interfaces.
    TooManyInterfaces,
    /// `number` is no whole number from 0 to 63.
    Number,
    /// `number` is that of an interface before.
    Repeat,
    /// `role` names no role.
    Role,
    /// `mode` names no mode.
    Mode,
    /// `session` is no array of tables.
    Sessions,
    /// There are more than 128 sessions.
    TooManySessions,
    /// `interface` is the number of no configured interface.
    Interface,
    /// `peer_as` is no whole number from 1 to 4,294,967,295.
    PeerAs,
    /// `hold` is neither 0 nor a whole number from 3 to 65,535.
    Hold,
    /// `max_prefixes` is no whole number from 1 to 4,000,000.
    MaxPrefixes,
}

/// The first rule that is broken, and the place that it speaks of: counted from 0 among the
/// interfaces or the sessions, and 0 for a rule on the whole document.
#[derive(Clone, Copy, Debug, PartialEq, Eq)]
pub struct ConfigFault {
    pub kind: ConfigKind,
    pub index: u32,
}

/// Why no configuration was read.
#[derive(Clone, Copy, Debug, PartialEq, Eq)]
pub enum ReadConfig {
    /// A rule is broken.
    Bad(ConfigFault),
    /// Memory could not be had.
    OutOfMemory,
}

/// The fault of a rule that is broken at this place.
pub(crate) fn broken(kind: ConfigKind, index: u32) -> Option<ConfigFault>
    ensures { result ≡ Some (record { kind = kind; index = index }) }
{
    Some(ConfigFault { kind, index })
}
