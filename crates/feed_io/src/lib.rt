//! Where octets and session events come from and go to: sources, sinks and feeds over memory, files
//! and standard output, the trace format, and a generator.
#![tactic(auto)]

mod adapters;
mod boxed_feed;
mod fault_count;
mod feeds;
mod few_octets;
mod gate;
mod gen_words;
mod generator;
mod laws;
mod limited;
mod memory;
mod memory_feeds;
mod messages;
mod packet_source;
mod schedule;
mod trace_head;
mod traces;

pub use adapters::{FileSource, OutSink};
pub use boxed_feed::BoxedFeed;
pub use feeds::{Feed, FeedEvent};
pub use few_octets::{FewOctets, Unsent};
pub use gate::{Gate, NoGate};
pub use gen_words::{GenSpec, read_gen};
pub use generator::GenFeed;
pub use laws::{assigned_numbers, one_list_of_records, one_trace};
pub use limited::{FILE_OCTETS, Limited};
pub use memory::{MemSink, MemSource, SureSink, SureSource};
pub use memory_feeds::{MemFeed, SureFeed};
pub use packet_source::{MARKER, PACKET, PacketSource};
pub use traces::TraceFeed;
