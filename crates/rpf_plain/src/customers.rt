//! Which interfaces are customers'.
ghost use Rattle.std.specs.Prelude.{◌≡◌, ◌↔◌, ◌⊎◌, ℕ, IsTrue};
ghost use Rattle.urpf_base.specs.Masks.{InMask};
ghost use Rattle.rpf_plain.specs.Walks.{HasCustomer};
ghost use Rattle.rpf_plain.specs.World.{is_customer, roles_of};

use router_config::Kinds;
use urpf_base::{IfaceId, Kind, Mask, Role};

/// The interfaces that a customer is behind.
pub fn customers_of(kinds: &Kinds) -> Mask
    ensures { (i : ℕ) → (InMask result i ↔ IsTrue (is_customer (roles_of kinds.now) i)) }
{
    customers_among(kinds.items())
}

/// Those of the listed interfaces that a customer is behind.
fn customers_among(rows: &[(IfaceId, Kind)]) -> Mask
    ensures { (i : ℕ) → (InMask result i ↔ HasCustomer rows.now i) }
{
    let mut customers = Mask::empty();
    for row in rows {
        customers = with_customer(customers, row.0, row.1.role);
    }
    customers
}

/// The set, and the interface where this is the role of a customer.
fn with_customer(customers: Mask, id: IfaceId, role: Role) -> Mask
    ensures { (i : ℕ) → (InMask result i ↔ (InMask customers i ⊎ ((id ≡ i) × (role ≡ Role.Customer)))) }
{
    match role {
        Role::Customer => customers.with(id),
        Role::Peer | Role::Provider => customers,
    }
}
