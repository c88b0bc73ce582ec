//! Laws on the items of events and on their effects, for the proofs of the crates above. Each is
//! nothing but its contract, and nothing runs here.
ghost use Rattle.std.specs.Prelude.{◌≡◌, ◌↔◌, ℕ, List, ◌∷◌, ◌++◌};
ghost use Rattle.feed_io.specs.Events.{Event, octets};
ghost use Rattle.urpf_base.specs.declared.sessions.SessionConfig.{SessionConfig};
ghost use Rattle.session_fsm.specs.declared.items.Effect.{Effect};
ghost use Rattle.session_fsm.specs.declared.states.State.{State};
ghost use Rattle.control_core.specs.Items.{AreItems, IsRest, Item, SameButCuts};
ghost use Rattle.control_core.specs.Runs.{Runs};

use crate::counted_engine::{PAIRS_MOST, ROWS_MOST};
use crate::limits::{ITEM_LIMIT, OCTET_LIMIT};

/// The limits have these numbers. Contracts and definitions cite them by name.
pub fn assigned_limits()
    ensures feeds { (ITEM_LIMIT ≡ 1000000000) × (OCTET_LIMIT ≡ 4398046511104) }
    ensures engine { (ROWS_MOST ≡ 1099511627775) × (PAIRS_MOST ≡ 1099511627775) }
{}

/// Events have a list of items, and only one.
pub fn one_list_of_items()
    ensures some { (events : List Event) → (items : List Item) × AreItems events items }
    ensures only { (events : List Event) (a b : List Item)
        → AreItems events a → AreItems events b → a ≡ b }
{}

/// At the end of events so many octets are left, and no other number of them.
pub fn one_rest()
    ensures some { (events : List Event) → (count : ℕ) × IsRest events count }
    ensures only { (events : List Event) (a b : ℕ) → IsRest events a → IsRest events b → a ≡ b }
{}

/// Octets that come in two events and not in one change neither the items nor what is left, nor
/// does any other way to cut them.
pub fn cuts_do_not_count()
    ensures items { (before after : List Event) (first second : List ℕ) (items : List Item)
        → AreItems (before ++ octets (first ++ second) ∷ after) items
        ↔ AreItems (before ++ octets first ∷ octets second ∷ after) items }
    ensures rest { (before after : List Event) (first second : List ℕ) (count : ℕ)
        → IsRest (before ++ octets (first ++ second) ∷ after) count
        ↔ IsRest (before ++ octets first ∷ octets second ∷ after) count }
    ensures all { (events others : List Event) (items : List Item)
        → SameButCuts events others → AreItems events items → AreItems others items }
    ensures all_left { (events others : List Event) (count : ℕ)
        → SameButCuts events others → IsRest events count → IsRest others count }
{}

/// The items of the first events are the first items.
pub fn items_of_a_front()
    ensures { (events later : List Event) (items all : List Item)
        → AreItems events items → AreItems (events ++ later) all
        → (more : List Item) × (all ≡ items ++ more) }
{}

/// The items of a session have a list of effects, and only one, and leave one state.
pub fn one_run()
    ensures some { (config : SessionConfig) (items : List Item)
        → (effects : List Effect) × (last : State) × Runs config items effects last }
    ensures only { (config : SessionConfig) (items : List Item) (effects others : List Effect)
        (last other : State) → Runs config items effects last → Runs config items others other
        → (effects ≡ others) × (last ≡ other) }
{}
