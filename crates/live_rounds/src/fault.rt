//! Why a live run stops.

use control_core::RunFault;

/// Why a live run stops: by its control, or by a worker.
#[derive(Clone, Copy, Debug, PartialEq, Eq)]
pub enum LiveFault {
    /// The control met this.
    Run(RunFault),
    /// A read of the packets of this worker failed.
    Failed { worker: u32 },
    /// The packets of this worker are broken where the packet of this place, from 1, would be.
    Bad { worker: u32, place: u64 },
    /// As many packets and markers of this worker were read as may be, and another was asked for.
    Limit { worker: u32 },
}
