//! What holds of all lists of pairs and sets of them, for crates that cite it. The function does
//! nothing.
ghost use Rattle.std.specs.Prelude.{◌≡◌, ◌↔◌, IsTrue, List, length};
ghost use Rattle.std.specs.Ordering.{is_eq};
ghost use Rattle.urpf_base.specs.Lists.{AreDistinct};
ghost use Rattle.origin_pairs.specs.Pairs.{AreAscending, IsPairSet, Pair, pair_order};

/// That the pairs of each list make a set, that all sets of the same pairs are equally long, that
/// pairs which ascend are distinct, and that pairs are one where neither comes first.
pub fn pair_laws()
    ensures some { (pairs : List Pair) → (set : List Pair) × IsPairSet pairs set }
    ensures long { (pairs a b : List Pair) → IsPairSet pairs a → IsPairSet pairs b
        → length a ≡ length b }
    ensures ascending { (pairs : List Pair) → AreAscending pairs → AreDistinct pairs }
    ensures same { (a b : Pair) → IsTrue (is_eq (pair_order a b)) ↔ (a ≡ b) }
{}
