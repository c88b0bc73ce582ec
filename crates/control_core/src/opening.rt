//! A control at its opening: a session for each that is configured, and mark 0.
ghost use Rattle.std.specs.Prelude.{◌≡◌, IfOk, length, map};
ghost use Rattle.urpf_base.specs.declared.sessions.SessionConfig.{SessionConfig};
ghost use Rattle.control_core.specs.Controls.{AllStand, not_begun};
ghost use Rattle.control_core.specs.Openings.{AreNew, zeros};
ghost use Rattle.control_core.specs.Peers.{peer_of};

use crate::marks::Mark;
use crate::peering::Peering;
use router_config::Config;
use std::alloc::Global;
use urpf_base::OutOfMemory;

/// The sessions of the configuration, which took no item.
pub fn peers_of(alloc: Global, config: &Config) -> Result<Vec<Peering>, OutOfMemory>
    ensures { IfOk result (λ peers. AreNew config.now.interfaces config.now.sessions
        (map peer_of peers.items)) }
{
    let mut peers = Vec::new(alloc);
    for number in 0..config.sessions() {
        let peering = Peering::new(alloc, number as u32, config.session(number));
        let Ok(()) = peers.push(peering) else {
            return Err(OutOfMemory);
        };
    }
    Ok(peers)
}

/// The mark of publication 0, where so many sessions took no item.
pub fn first_mark(alloc: Global, sessions: usize) -> Result<Mark, OutOfMemory>
    ensures { IfOk result (λ mark. mark ≡ record { number = 0; edits = 0; items = zeros sessions }) }
{
    let mut items = Vec::new(alloc);
    'sessions: for _ in 0..sessions {
        let Ok(()) = items.push(0u64) else {
            return Err(OutOfMemory);
        };
    }
    Ok(Mark::new(0, 0, items))
}
