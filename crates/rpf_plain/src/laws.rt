//! What holds of all rows, cells, verdicts and tables, for crates that cite it. The functions do nothing.
ghost use Rattle.std.specs.Prelude.{◌≡◌, ◌↔◌, ◌<◌, ◌+◌, ◌++◌, ℕ, List, [], length};
ghost use Rattle.std.specs.Prelude.{Option, Some, IsSome, IsTrue};
ghost use Rattle.std.specs.FinMap as map;
ghost use Rattle.urpf_base.specs.Address.{Block};
ghost use Rattle.urpf_base.specs.Kinds.{mode_for};
ghost use Rattle.urpf_base.specs.Lists.{Has};
ghost use Rattle.urpf_base.specs.declared.address.Addr.{Addr};
ghost use Rattle.urpf_base.specs.declared.cells.Cell.{Cell};
ghost use Rattle.urpf_base.specs.declared.cells.CellChange.{CellChange};
ghost use Rattle.urpf_base.specs.declared.kinds.Kind.{Kind};
ghost use Rattle.urpf_base.specs.declared.verdicts.Verdict.{Verdict};
ghost use Rattle.urpf_base.specs.declared.verdicts.Verdict.TheVariants as verdict;
ghost use Rattle.router_config.specs.Edits.{edited};
ghost use Rattle.router_config.specs.Kinds.{kind_in};
ghost use Rattle.prefix_map.specs.Mapped.{Mapped};
ghost use Rattle.rpf_plain.specs.Cells.{IsCell, IsDifference, IsTable};
ghost use Rattle.rpf_plain.specs.Modes.{IsVerdict, Says, set_in, set_of};
ghost use Rattle.rpf_plain.specs.Rows.{AreSameRows, repeats, row_of};
ghost use Rattle.rpf_plain.specs.Sets.{any, feasible, has_origin, list_a, list_a_with_pairs, set_a, set_p};
ghost use Rattle.rpf_plain.specs.Sets.{set_z, set_z_with_pairs};
ghost use Rattle.origin_pairs.specs.Pairs.{AreSamePairs, Pair};
ghost use Rattle.rpf_plain.specs.World.{IsConfigured, Roles, World, is_customer, role_in, roles_of};
ghost use Rattle.rpf_plain.specs.World.{with_pair, with_role};
ghost use Rattle.rpf_plain.specs.declared.rows.Row.{Row};

use router_config::Edit;
use urpf_base::{Mode, Role};

/// That a row stands in a list where it is counted there, that lists joined have the rows of both,
/// and that lists with the same rows are equally long.
pub fn row_laws()
    ensures held { (rows : List Row) (row : Row) → Has rows row ↔ (0 < repeats rows row) }
    ensures joined { (a b : List Row) (row : Row) → repeats (a ++ b) row ≡ repeats a row + repeats b row }
    ensures long { (a b : List Row) → AreSameRows a b → length a ≡ length b }
{}

/// That the interfaces with a role are those that are configured, and that an edit changes the roles
/// as the change of a role does.
pub fn role_laws()
    ensures configured { (kinds : List (ℕ × Kind)) (i : ℕ)
        → IsConfigured (roles_of kinds) i ↔ IsSome (kind_in kinds i) }
    ensures role { (kinds : List (ℕ × Kind)) (iface : ℕ) (role : Role)
        → roles_of (edited (Edit.Role iface role) kinds) ≡ with_role iface role (roles_of kinds) }
    ensures mode { (kinds : List (ℕ × Kind)) (iface : ℕ) (mode : Mode)
        → roles_of (edited (Edit.Mode iface mode) kinds) ≡ roles_of kinds }
    ensures pair { (kinds : List (ℕ × Kind)) (prefix : Block) (asn : ℕ)
        → (roles_of (edited (Edit.PairAdd prefix asn) kinds) ≡ roles_of kinds)
        × (roles_of (edited (Edit.PairDel prefix asn) kinds) ≡ roles_of kinds) }
    ensures kept { (roles : Roles) (iface : ℕ) (role : Role) (i : ℕ)
        → IsConfigured (with_role iface role roles) i ↔ IsConfigured roles i }
{}

/// That a world has one cell for a prefix, which depends on which rows and pairs there are and not
/// on their order or on how often they are there, and that a prefix is in the set of an interface just where
/// its cell says so by the mode of the interface.
pub fn cell_laws()
    ensures some { (w : World) (p : Block) → (c : Cell) × IsCell w p c }
    ensures one { (w : World) (p : Block) (c d : Cell) → IsCell w p c → IsCell w p d → c ≡ d }
    ensures members { (v w : World) → ((row : Row) → Has v.rows row ↔ Has w.rows row)
        → v.roles ≡ w.roles → AreSamePairs v.pairs w.pairs
        → (p : Block) (c : Cell) → IsCell v p c → IsCell w p c }
    ensures order { (v w : World) → AreSameRows v.rows w.rows → v.roles ≡ w.roles
        → AreSamePairs v.pairs w.pairs
        → (p : Block) (c : Cell) → IsCell v p c → IsCell w p c }
    ensures says { (w : World) (p : Block) (c : Cell) (i : ℕ) (kind : Kind) → IsCell w p c
        → role_in w.roles i ≡ Some kind.role
        → Has (set_of kind w i) p ↔ Says (mode_for kind.role kind.mode) i p c }
{}

/// That a pair whose AS is the origin of no row changes no cell. AS 0 is such a one in a router: no
/// route has it as its origin (RFC 7607, section 2).
pub fn unheard_pair()
    ensures { (w : World) (prefix : Block) (asn : ℕ)
        → ((row : Row) → Has w.rows row → ¬ (row.origin ≡ Some asn))
        → (p : Block) (c : Cell) → IsCell (with_pair (prefix, asn) w) p c ↔ IsCell w p c }
{}

/// That there is one verdict on each source, which depends on which rows and pairs there are and
/// not on their order or on how often they are there.
pub fn verdict_laws()
    ensures some { (kinds : List (ℕ × Kind)) (rows : List Row) (pairs : List Pair) (iface : ℕ)
        (source : Option Addr)
        → (answer : Verdict) × IsVerdict kinds rows pairs iface source answer }
    ensures one { (kinds : List (ℕ × Kind)) (rows : List Row) (pairs : List Pair) (iface : ℕ)
        (source : Option Addr) (a b : Verdict)
        → IsVerdict kinds rows pairs iface source a → IsVerdict kinds rows pairs iface source b
        → a ≡ b }
    ensures members { (kinds : List (ℕ × Kind)) (rows others : List Row)
        → ((row : Row) → Has rows row ↔ Has others row)
        → (pairs like : List Pair) → AreSamePairs pairs like
        → (iface : ℕ) (source : Option Addr) (answer : Verdict)
        → IsVerdict kinds rows pairs iface source answer
        → IsVerdict kinds others like iface source answer }
{}

/// That a world has one table of its cells, and that it is the empty one where there are no rows.
pub fn table_laws()
    ensures some { (w : World) → (m : Mapped Cell) × IsTable w m }
    ensures one { (w : World) (m n : Mapped Cell) → IsTable w m → IsTable w n → m ≡ n }
    ensures none { (roles : Roles) (pairs : List Pair)
        → IsTable (record { rows = []; roles = roles; pairs = pairs }) map.empty }
{}

/// That two worlds have one list of the prefixes whose cell differs.
pub fn difference_laws()
    ensures some { (old new : World) → (changes : List CellChange) × IsDifference old new changes }
    ensures one { (old new : World) (a b : List CellChange)
        → IsDifference old new a → IsDifference old new b → a ≡ b }
{}

/// That the set of a customer's interface widens from feasible paths over Algorithm A and Algorithm B to
/// loose mode, which RFC 8704 orders so by how much each lets in.
pub fn widening()
    // The list by Algorithm A has each prefix of a customer's interface whose routes all have an origin
    // (RFC 8704, section 3.1.1, steps 1 to 3).
    ensures feasible_in_a { (w : World) (i : ℕ) → IsTrue (is_customer w.roles i)
        → ((row : Row) → Has w.rows row → row.iface ≡ i → IsSome row.origin)
        → (p : Block) → Has (feasible w i) p → Has (list_a w i) p }
    // Each route of a customer's interface that has an origin has its prefix there, whatever the other routes
    // have: its origin is in Set A (RFC 8704, section 3.1.1, steps 1 to 3).
    ensures routes_in_a { (w : World) (i : ℕ) → IsTrue (is_customer w.roles i)
        → (p : Block) (origin : ℕ) → Has w.rows (row_of i p (Some origin)) → Has (list_a w i) p }
    // It has just those prefixes of an interface to which some route, on whatever interface, has an origin
    // in Set A (RFC 8704, section 3.1.1, steps 2 and 3).
    ensures kept_in_a { (w : World) (i : ℕ) (p : Block) → Has (feasible w i) p
        → Has (list_a w i) p
        ↔ ((row : Row) × Has w.rows row × (row.prefix ≡ p) × IsTrue (has_origin (set_a w) row.origin)) }
    // Set Z has each list by Algorithm A (RFC 8704, section 3.4, steps 2, 4 and 5).
    ensures a_in_z { (w : World) (i : ℕ) (p : Block) → Has (list_a w i) p → Has (set_z w) p }
    // It has each prefix of a customer's interface, with an origin or without (RFC 8704, section 3.4, step 2).
    ensures feasible_in_z { (w : World) (i : ℕ) → IsTrue (is_customer w.roles i)
        → (p : Block) → Has (feasible w i) p → Has (set_z w) p }
    // Loose mode has all of Set Z (RFC 8704, section 2.4; RFC 3704, section 2.4).
    ensures z_in_any { (w : World) (p : Block) → Has (set_z w) p → Has (any w) p }
{}

/// That each premise of `widening` is needed.
pub fn widening_needs()
    // A path of a customer ends in an AS_SET, so no origin AS is known and no Set X has its prefix
    // (RFC 8704, section 3.1.1, steps 1 and 2; RFC 4271, section 4.3).
    ensures origin { (w : World) × (i : ℕ) × (p : Block)
        × IsTrue (is_customer w.roles i) × Has (feasible w i) p × ¬ Has (list_a w i) p }
    // An origin that is heard on no customer's interface is not in Set A, and its prefix is not in Set P
    // (RFC 8704, sections 3.1.1, step 1, and 3.4, steps 2 and 3).
    ensures customer { (w : World) × (i : ℕ) × (p : Block)
        × ((row : Row) → Has w.rows row → IsSome row.origin)
        × Has (feasible w i) p × (¬ Has (list_a w i) p) × ¬ Has (set_z w) p }
{}

/// That no two of the sets are always one: each may have a prefix that the one before it lacks.
pub fn widening_is_strict()
    // A customer announces one prefix here, and another one, which no customer's interface has, to a peer
    // (RFC 8704, section 2.3, figure 1).
    ensures a { (w : World) × (i : ℕ) × (p : Block) × IsTrue (is_customer w.roles i)
        × Has (list_a w i) p × (¬ Has (set_p w) p) × ¬ Has (feasible w i) p }
    // A prefix with an origin is announced over one of two customers, and nothing over the other (RFC 8704,
    // section 3.3, figure 4).
    ensures z { (w : World) × (i : ℕ) × (p : Block) × IsTrue (is_customer w.roles i)
        × ((row : Row) → Has w.rows row → IsSome row.origin) × Has (set_z w) p × ¬ Has (list_a w i) p }
    // Loose mode lets in what peers and providers alone announce (RFC 8704, section 2.4).
    ensures any { (w : World) × (p : Block) × Has (any w) p × ¬ Has (set_z w) p }
{}

/// How the sets widen with the prefixes of pairs in them (RFC 8704, section 3.5).
pub fn widening_with_pairs()
    // Pairs only add to a list by Algorithm A and to Set Z.
    ensures more { (w : World) (i : ℕ) (p : Block)
        → (Has (list_a w i) p → Has (list_a_with_pairs w i) p) × (Has (set_z w) p → Has (set_z_with_pairs w) p) }
    // An AS with a route on a customer's interface is in Set A, so what its pairs add to the list they add
    // to Set Z.
    ensures a_in_z { (w : World) (i : ℕ) → IsTrue (is_customer w.roles i)
        → (p : Block) → Has (list_a_with_pairs w i) p → Has (set_z_with_pairs w) p }
    // On the interface of a peer they need not.
    ensures customer { (w : World) × (i : ℕ) × (p : Block)
        × Has (list_a_with_pairs w i) p × ¬ Has (set_z_with_pairs w) p }
    // Loose mode has no pairs, so it may lack what a pair adds to Set Z.
    ensures any { (w : World) × (p : Block) × Has (set_z_with_pairs w) p × ¬ Has (any w) p }
{}

/// That an edit to a wider mode makes no interface drop a source that it let in.
pub fn wider_modes()
    // On a customer's interface whose routes all have an origin (RFC 8704, section 3.1.1).
    ensures feasible_to_a { (kinds : List (ℕ × Kind)) (i : ℕ) (rows : List Row) (pairs : List Pair)
        → kind_in kinds i ≡ Some (record { role = Role.Customer; mode = Mode.Feasible })
        → ((row : Row) → Has rows row → row.iface ≡ i → IsSome row.origin)
        → (source : Option Addr) → IsVerdict kinds rows pairs i source verdict.Pass
        → IsVerdict (edited (Edit.Mode i Mode.EfpA) kinds) rows pairs i source verdict.Pass }
    // Set Z has the prefixes of all customers' interfaces (RFC 8704, section 3.4, step 2).
    ensures feasible_to_b { (kinds : List (ℕ × Kind)) (i : ℕ) (rows : List Row) (pairs : List Pair) (role : Role)
        → kind_in kinds i ≡ Some (record { role = role; mode = Mode.Feasible })
        → (source : Option Addr) → IsVerdict kinds rows pairs i source verdict.Pass
        → IsVerdict (edited (Edit.Mode i Mode.EfpB) kinds) rows pairs i source verdict.Pass }
    // Algorithm B is the more flexible one (RFC 8704, section 3.4).
    ensures a_to_b { (kinds : List (ℕ × Kind)) (i : ℕ) (rows : List Row) (pairs : List Pair) (role : Role)
        → kind_in kinds i ≡ Some (record { role = role; mode = Mode.EfpA })
        → (source : Option Addr) → IsVerdict kinds rows pairs i source verdict.Pass
        → IsVerdict (edited (Edit.Mode i Mode.EfpB) kinds) rows pairs i source verdict.Pass }
    // Where there are no pairs, which loose mode does not have (RFC 8704, sections 2.4 and 3.4).
    ensures b_to_loose { (kinds : List (ℕ × Kind)) (i : ℕ) (rows : List Row) (role : Role)
        → kind_in kinds i ≡ Some (record { role = role; mode = Mode.EfpB })
        → (source : Option Addr) → IsVerdict kinds rows [] i source verdict.Pass
        → IsVerdict (edited (Edit.Mode i Mode.Loose) kinds) rows [] i source verdict.Pass }
{}

/// That more routes and pairs let in no less: the sets are unions (RFC 8704, sections 3.1.1 and 3.4), which
/// pairs augment (section 3.5).
pub fn more_routes()
    // The set of each mode has its prefixes still.
    ensures sets { (v w : World) → v.roles ≡ w.roles → ((row : Row) → Has v.rows row → Has w.rows row)
        → ((pair : Pair) → Has v.pairs pair → Has w.pairs pair)
        → (mode : Mode) (i : ℕ) (p : Block) → Has (set_in mode v i) p → Has (set_in mode w i) p }
    // A source that passes still does.
    ensures passes { (kinds : List (ℕ × Kind)) (rows others : List Row) → ((row : Row) → Has rows row → Has others row)
        → (pairs like : List Pair) → ((pair : Pair) → Has pairs pair → Has like pair)
        → (i : ℕ) (source : Option Addr) → IsVerdict kinds rows pairs i source verdict.Pass
        → IsVerdict kinds others like i source verdict.Pass }
{}
