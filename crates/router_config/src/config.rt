//! The configuration of a router: its interfaces and its sessions.
ghost use Rattle.std.specs.Prelude.{◌≡◌, ◌<◌, ◌≤◌, IfOk, IfSome, Some, length, slice_get};
ghost use Rattle.router_config.specs.Configured.{AreConfigured, IsSessionConfig};
ghost use Rattle.router_config.specs.Edits.{edited};
ghost use Rattle.router_config.specs.Kinds.{IsAscending, iface_in, kind_in};

use crate::edits::Edit;
use crate::kinds::Kinds;
use std::marker::Model;
use urpf_base::{IfaceId, Kind, OutOfMemory, SessionConfig};

/// What a router is configured with. Contracts see it as its interfaces, each with its kind, by
/// ascending number, and its sessions in their order. There are at most 64 interfaces and 128 sessions,
/// and each session is on one of the interfaces.
#[derive(Drop)]
pub struct Config {
    kinds: Kinds,
    sessions: Vec<SessionConfig>,
}

impl Model for Config {
    ghost use Rattle.router_config.specs.Configured.{AreConfigured};
    ghost use Rattle.router_config.specs.Settings.{Settings};

    ghost Value = { Settings };

    ghost view = { λ c. record { interfaces = c.kinds; sessions = c.sessions.items } };

    ghost invariant = { λ c. AreConfigured (record { interfaces = c.kinds; sessions = c.sessions.items }) };
}

impl Config {
    /// The configuration with these interfaces and sessions.
    pub(crate) fn new(kinds: Kinds, sessions: Vec<SessionConfig>) -> Config
        requires { AreConfigured (record { interfaces = kinds; sessions = sessions.items }) }
        ensures { result ≡ record { interfaces = kinds; sessions = sessions.items } }
    {
        Config { kinds, sessions }
    }

    /// The kind of an interface. None where it is not configured.
    pub fn kind(&self, id: IfaceId) -> Option<Kind>
        ensures { result ≡ kind_in self.now.interfaces id }
    {
        self.kinds.kind(id)
    }

    /// The configured interface with this number. None where there is none.
    pub fn iface(&self, number: u32) -> Option<IfaceId>
        ensures value { result ≡ iface_in self.now.interfaces number }
        ensures same { IfSome result (λ id. id ≡ number) }
    {
        self.kinds.iface(number)
    }

    /// How many sessions there are: at most 128.
    pub fn sessions(&self) -> usize
        ensures value { result ≡ length self.now.sessions }
        ensures within { result ≤ 128 }
    {
        self.sessions.len()
    }

    /// Session `s`, counted from 0. Its interface is configured.
    pub fn session(&self, s: usize) -> SessionConfig
        requires { s < length self.now.sessions }
        ensures value { slice_get self.now.sessions s ≡ Some result }
        ensures configured { IsSessionConfig self.now.interfaces result }
    {
        self.sessions[s]
    }

    /// How many interfaces there are: at most 64.
    pub fn interfaces(&self) -> usize
        ensures value { result ≡ length self.now.interfaces }
        ensures within { result ≤ 64 }
    {
        self.kinds.len()
    }

    /// A copy of the interfaces, each with its kind.
    pub fn kinds(&self) -> Result<Kinds, OutOfMemory>
        ensures value { IfOk result (λ kinds. kinds ≡ self.now.interfaces) }
        ensures ascending { IsAscending self.now.interfaces }
    {
        let _ = self.kinds.items();
        self.kinds.copied()
    }

    /// Changes the role or the mode of the interface that the edit names.
    pub(crate) fn apply(&mut self, edit: &Edit)
        ensures interfaces { self.new.interfaces ≡ edited edit.now self.old.interfaces }
        ensures sessions { self.new.sessions ≡ self.old.sessions }
    {
        self.kinds.apply(edit);
    }
}
