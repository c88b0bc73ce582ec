//! What holds of all maps, for crates that cite it. The functions do nothing.
ghost use Rattle.std.specs.Prelude.{◌≡◌, ◌↔◌, map, Option, Some, None, IsSome};
ghost use Rattle.std.specs.FinMap.{entries, get, keys};
ghost use Rattle.urpf_base.specs.Address.{Block};
ghost use Rattle.urpf_base.specs.Lists.{AreDistinct, Has};
ghost use Rattle.prefix_map.specs.Beside.{beside, either};
ghost use Rattle.prefix_map.specs.Mapped.{Mapped, entries_after};
ghost use Rattle.prefix_map.specs.Order.{IsAscending};

/// That the lists of prefixes and of pairs have what the map has, each prefix once, and that maps
/// which have the same at each prefix are the same.
pub fn map_laws<V: Copy>()
    ensures distinct { (m : Mapped V) → AreDistinct (keys m) }
    ensures held { (m : Mapped V) (p : Block) → Has (keys m) p ↔ IsSome (get m p) }
    ensures pairs { (m : Mapped V) (p : Block) (v : V) → Has (entries m) (p, v) ↔ (get m p ≡ Some v) }
    ensures same { (a b : Mapped V) → ((p : Block) → get a p ≡ get b p) → a ≡ b }
{}

/// That the prefixes ascend, and that a walk from no prefix on goes over all pairs.
pub fn order_laws<V: Copy>()
    ensures ascending { (m : Mapped V) → IsAscending (keys m) }
    ensures all { (m : Mapped V) → entries_after None m ≡ entries m }
{}

/// That two maps side by side have the prefixes of either, in order, with what each map has there.
pub fn beside_laws<V: Copy, W: Copy>()
    ensures ascending { (m : Mapped V) (n : Mapped W)
        → IsAscending (map (λ e. e.0) (beside (entries m) (entries n))) }
    ensures pairs { (m : Mapped V) (n : Mapped W) (p : Block) (v : Option V) (w : Option W)
        → Has (beside (entries m) (entries n)) (p, (v, w)) ↔ (either (get m p) (get n p) ≡ Some (v, w)) }
{}
