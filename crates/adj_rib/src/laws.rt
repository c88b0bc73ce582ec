//! What holds of all routes, for crates that cite it. The functions do nothing.
ghost use Rattle.std.specs.Prelude.{◌≡◌, ◌↔◌, ℕ, Option, Some, None, IsSome};
ghost use Rattle.urpf_base.specs.Address.{Block};
ghost use Rattle.urpf_base.specs.Lists.{AreDistinct, Has};
ghost use Rattle.prefix_map.specs.Order.{IsAscending};
ghost use Rattle.adj_rib.specs.Routes.{Routes, pairs_after, pairs_of, prefixes_of, routes_at};

/// That the lists of prefixes and of pairs have what the map has, each prefix once, and that routes
/// which have the same at each prefix are the same.
pub fn map_laws()
    ensures distinct { (routes : Routes) → AreDistinct (prefixes_of routes) }
    ensures held { (routes : Routes) (p : Block)
        → Has (prefixes_of routes) p ↔ IsSome (routes_at routes p) }
    ensures pairs { (routes : Routes) (p : Block) (origin : Option ℕ)
        → Has (pairs_of routes) (p, origin) ↔ (routes_at routes p ≡ Some origin) }
    ensures same { (a b : Routes) → ((p : Block) → routes_at a p ≡ routes_at b p) → a ≡ b }
{}

/// That the lists ascend, and that a walk from no prefix on goes over all pairs.
pub fn order_laws()
    ensures ascending { (routes : Routes) → IsAscending (prefixes_of routes) }
    ensures all { (routes : Routes) → pairs_after None routes ≡ pairs_of routes }
{}
