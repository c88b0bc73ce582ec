//! Edits of a configuration that the runbook asks for.
ghost use Rattle.std.specs.Prelude.{◌≡◌};
ghost use Rattle.router_config.specs.Edits.{edited, edited_kind, edited_row, is_of};

use crate::config::Config;
use urpf_base::{IfaceId, Kind, Mode, Prefix, Role};

/// A change of what is configured.
#[derive(Clone, Copy, Debug, PartialEq, Eq)]
pub enum Edit {
    /// The interface has this role from now on.
    Role(IfaceId, Role),
    /// The interface has this mode from now on.
    Mode(IfaceId, Mode),
    /// The pair of this prefix and this AS is there from now on.
    PairAdd(Prefix, u32),
    /// The pair of this prefix and this AS is there no more from now on.
    PairDel(Prefix, u32),
}

impl Edit {
    /// Whether the edit is of this interface; one of a pair is of none.
    fn is_of(&self, iface: IfaceId) -> bool
        ensures { result ≡ is_of self.now iface }
    {
        match *self {
            Edit::Role(id, _) => id.number() == iface.number(),
            Edit::Mode(id, _) => id.number() == iface.number(),
            Edit::PairAdd(_, _) | Edit::PairDel(_, _) => false,
        }
    }

    /// The kind with the role or the mode of the edit, where it has one.
    fn kind_of(&self, kind: Kind) -> Kind
        ensures { result ≡ edited_kind self.now kind }
    {
        match *self {
            Edit::Role(_, role) => Kind {
                role,
                mode: kind.mode,
            },
            Edit::Mode(_, mode) => Kind {
                role: kind.role,
                mode,
            },
            Edit::PairAdd(_, _) | Edit::PairDel(_, _) => kind,
        }
    }

    /// What becomes of an interface and its kind.
    pub(crate) fn applied(&self, row: (IfaceId, Kind)) -> (IfaceId, Kind)
        ensures { result ≡ edited_row self.now row }
    {
        if !self.is_of(row.0) {
            return row;
        }
        (row.0, self.kind_of(row.1))
    }
}

/// Changes the role or the mode of the interface that the edit names. Nothing changes where it is
/// not configured, and where the edit is of a pair.
pub fn apply_edit(config: &mut Config, edit: &Edit)
    ensures interfaces { config.new.interfaces ≡ edited edit.now config.old.interfaces }
    ensures sessions { config.new.sessions ≡ config.old.sessions }
{
    config.apply(edit);
}
