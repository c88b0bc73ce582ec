//! The interfaces of a router: a list of their numbers and kinds, that is looked up, compared and
//! copied.
ghost use Rattle.std.specs.Prelude.{◌≡◌, ◌↔◌, [], ◌∷◌, ◌++◌, IfOk, IfSome, OnErr, OnOk, IsTrue, length};
ghost use Rattle.router_config.specs.Kinds.{AllBelow, IsAscending, iface_in, kind_in};
ghost use Rattle.router_config.specs.Edits.{edited, edited_row};

use crate::edits::Edit;
use std::alloc::Global;
use std::marker::Model;
use urpf_base::{IfaceId, Kind, OutOfMemory};

/// The interfaces, each with its kind, by ascending number. Contracts see them as a list.
#[derive(Drop)]
pub struct Kinds {
    rows: Vec<(IfaceId, Kind)>,
}

impl Model for Kinds {
    ghost use Rattle.std.specs.Prelude.{ℕ, List};
    ghost use Rattle.urpf_base.specs.declared.kinds.Kind.{Kind};

    ghost Value = { List (ℕ × Kind) };

    ghost use Rattle.router_config.specs.Kinds.{IsAscending};

    ghost view = { λ k. k.rows.items };

    ghost invariant = { λ k. IsAscending k.rows.items };
}

impl Kinds {
    /// The list of no interface.
    pub(crate) fn new(alloc: Global) -> Kinds
        ensures { result ≡ [] }
    {
        Kinds {
            rows: Vec::new(alloc),
        }
    }

    /// Puts an interface at the end, whose number is greater than all others.
    pub(crate) fn push(&mut self, id: IfaceId, kind: Kind) -> Result<(), OutOfMemory>
        requires { AllBelow self.old id }
        ensures ok { OnOk result (self.new ≡ self.old ++ (id, kind) ∷ []) }
        ensures err { OnErr result (self.new ≡ self.old) }
    {
        let Ok(()) = self.rows.push((id, kind)) else {
            return Err(OutOfMemory);
        };
        Ok(())
    }

    /// How many interfaces there are.
    pub fn len(&self) -> usize
        ensures { result ≡ length self.now }
    {
        self.rows.len()
    }

    /// The interfaces, each with its kind, by ascending number.
    pub fn items(&self) -> &[(IfaceId, Kind)]
        ensures value { result.now ≡ self.now }
        ensures ascending { IsAscending self.now }
    {
        self.rows.as_slice()
    }

    /// The kind of an interface. None where it is not in the list.
    pub fn kind(&self, id: IfaceId) -> Option<Kind>
        ensures { result ≡ kind_in self.now id }
    {
        let number = id.number();
        match self.rows.iter().find(|row| row.0.number() == number) {
            Some(row) => Some(row.1),
            None => None,
        }
    }

    /// The interface with this number. None where it is not in the list.
    pub fn iface(&self, number: u32) -> Option<IfaceId>
        ensures value { result ≡ iface_in self.now number }
        ensures same { IfSome result (λ id. id ≡ number) }
    {
        iface_among(&self.rows, number)
    }

    /// Whether both are the same list.
    pub fn same(&self, other: &Kinds) -> bool
        ensures { IsTrue result ↔ (self.now ≡ other.now) }
    {
        same_rows(&self.rows, &other.rows)
    }

    /// A copy.
    pub fn copied(&self) -> Result<Kinds, OutOfMemory>
        ensures { IfOk result (λ kinds. kinds ≡ self.now) }
    {
        match self.rows.clone() {
            Ok(rows) => Ok(Kinds { rows }),
            Err(_) => Err(OutOfMemory),
        }
    }

    /// Changes the role or the mode of the interface that the edit names. Nothing changes where it
    /// is not in the list.
    pub fn apply(&mut self, edit: &Edit)
        ensures { self.new ≡ edited edit.now self.old }
    {
        apply_to(&mut self.rows, edit);
    }
}

/// The interface with this number. None where it is not in the list.
fn iface_among(rows: &[(IfaceId, Kind)], number: u32) -> Option<IfaceId>
    ensures value { result ≡ iface_in rows.now number }
    ensures same { IfSome result (λ id. id ≡ number) }
{
    for row in rows {
        if row.0.number() as u32 == number {
            return Some(row.0);
        }
    }
    None
}

/// Whether both are the same list.
fn same_rows(a: &[(IfaceId, Kind)], b: &[(IfaceId, Kind)]) -> bool
    ensures { IsTrue result ↔ (a.now ≡ b.now) }
{
    if a.len() != b.len() {
        return false;
    }
    for (i, row) in a.iter().enumerate() {
        if !same_row(*row, b[i]) {
            return false;
        }
    }
    true
}

/// Whether both are the same interface with the same kind.
fn same_row(a: (IfaceId, Kind), b: (IfaceId, Kind)) -> bool
    ensures { IsTrue result ↔ (a ≡ b) }
{
    a == b
}

/// Changes the kinds as the edit says.
fn apply_to(rows: &mut [(IfaceId, Kind)], edit: &Edit)
    ensures { rows.new ≡ edited edit.now rows.old }
{
    for row in rows.iter_mut() {
        *row = edit.applied(*row);
    }
}
