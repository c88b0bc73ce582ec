//! One publication, as it is handed over.
use router_config::Kinds;
use urpf_base::Changes;

/// One publication: its number, the interfaces with their kinds, and the cells that changed since
/// the publication before.
#[derive(Drop)]
pub struct Batch {
    /// Publications are numbered from 1.
    pub number: u64,
    pub kinds: Kinds,
    pub changes: Changes,
}
