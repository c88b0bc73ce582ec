//! Captured packets as packet records: the octets of a capture file of libpcap come in from a source,
//! and the octets of a record for each packet go out.
//!
//! Which packets are dropped is left to others, and so is what stands behind the first 60 octets of
//! a packet.
#![tactic(auto)]

mod formats;
mod frames;
mod laws;
mod packets;
mod part;
mod words;

pub use laws::{assigned_numbers, one_capture, one_packet_each};
pub use packets::PcapPackets;
pub use words::{PcapSpec, read_pcap_word};
