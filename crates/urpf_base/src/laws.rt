//! What holds of all prefixes and sets of interfaces, for the crates that cite it. Each function is
//! nothing but its contract, and nothing runs here.
ghost use Rattle.std.specs.Prelude.{◌≡◌, ◌↔◌, ℕ};
ghost use Rattle.urpf_base.specs.Address.{Block};
ghost use Rattle.urpf_base.specs.Masks.{InMask};
ghost use Rattle.urpf_base.specs.Order.{prefix_order};

use crate::interfaces::IFACE_LIMIT;
use crate::line_buffer::LINE_OCTETS;
use crate::prefixes::Prefix;

/// That `Prefix` is compared with IPv4 first, then by address, and the shorter one first at one
/// address.
pub fn order_of_prefixes()
    ensures { (a b : Block) → ⟦<Prefix as Ord>⟧.cmp a b ≡ prefix_order a b }
{}

/// That sets of the same interfaces are one, and that the empty one has no member.
pub fn members_of_masks()
    ensures same { (a b : ℕ) → ((i : ℕ) → (InMask a i ↔ InMask b i)) → a ≡ b }
    ensures none { (i : ℕ) → InMask 0 i → ⊥ }
{}

/// The limits have these numbers. Contracts cite them by name.
pub fn assigned_limits()
    ensures { (IFACE_LIMIT ≡ 64) × (LINE_OCTETS ≡ 8192) }
{}
