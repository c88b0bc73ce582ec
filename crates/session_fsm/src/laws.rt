//! Laws on the table of steps and on assigned numbers, for the proofs of the crates above. Each is
//! nothing but its contract, and nothing runs here.
ghost use Rattle.std.specs.Prelude.{◌≡◌};
ghost use Rattle.urpf_base.specs.declared.sessions.SessionConfig.{SessionConfig};
ghost use Rattle.session_fsm.specs.declared.items.Item.{Item};
ghost use Rattle.session_fsm.specs.declared.states.State.{State};
ghost use Rattle.session_fsm.specs.Table.{Step, Outcome};

use crate::codes::{
    CEASE, FINITE_STATE_MACHINE_ERROR, HOLD_TIMER_EXPIRED, MAXIMUM_PREFIXES_REACHED, UNSPECIFIC,
};
use crate::states::LARGE_HOLD_TIME;

/// The error codes and subcodes have the numbers that the standards assign (RFC 4271, section 4.5;
/// RFC 4486, section 4), and the peer's OPEN is waited for as long as RFC 4271, section 8.2.2,
/// suggests. Contracts and definitions cite them by name.
pub fn assigned_numbers()
    ensures codes { (HOLD_TIMER_EXPIRED ≡ 4) × (FINITE_STATE_MACHINE_ERROR ≡ 5) × (CEASE ≡ 6) }
    ensures subcodes { (UNSPECIFIC ≡ 0) × (MAXIMUM_PREFIXES_REACHED ≡ 1) }
    ensures wait { LARGE_HOLD_TIME ≡ 240 }
{}

/// Each state and each item have one outcome: no row is missing, and no two differ.
pub fn one_step()
    ensures some { (config : SessionConfig) (state : State) (item : Item)
        → (outcome : Outcome) × Step config state item outcome }
    ensures only { (config : SessionConfig) (state : State) (item : Item) (a b : Outcome)
        → Step config state item a → Step config state item b → a ≡ b }
{}
