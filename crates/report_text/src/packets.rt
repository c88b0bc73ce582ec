//! The line of a packet: who read it, where it came in, its source and the verdict on it come in, and
//! the line that tells them goes out.
//!
//! `packet W K I ADDR V N` with a line feed, where ADDR is `-` for a source that cannot be read, and V
//! is `pass`, `drop`, `badhead` or `noif`.
ghost use Rattle.std.specs.Prelude.{◌≡◌, ◌+◌, ◌≤◌, [], ◌++◌, length};
ghost use Rattle.report_text.specs.Lines.{packet_line, source_text};

use crate::checks::put_verdict;
use crate::fields::put_field;
use ip_text::put_addr;
use urpf_base::{Addr, Line, Verdict};

/// The line of a packet: its worker, its place among the packets of that worker, from 1, the number of
/// its interface, its source, and the verdict on it against the publication of a number.
pub fn put_packet(
    worker: u32,
    place: u64,
    iface: u16,
    source: Option<Addr>,
    verdict: Verdict,
    number: u64,
    to: &mut Line,
)
    requires { to.old ≡ [] }
    ensures { to.new ≡ packet_line worker place iface source verdict number }
{
    put_field(b"packet ", u64::from(worker), to);
    put_field(b" ", place, to);
    put_field(b" ", u64::from(iface), to);
    to.push(b" ");
    put_source(&source, to);
    to.push(b" ");
    put_verdict(verdict, to);
    put_field(b" ", number, to);
    to.push(b"\n");
}

/// The source of a packet, or `-`.
fn put_source(source: &Option<Addr>, to: &mut Line)
    requires { length to.old + 64 ≤ 8192 }
    ensures text { to.new ≡ to.old ++ source_text source.now }
    ensures short { length to.new ≤ length to.old + 64 }
{
    match source {
        Some(source) => put_addr(source, to),
        None => to.push(b"-"),
    }
}
