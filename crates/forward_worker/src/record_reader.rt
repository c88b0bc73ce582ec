//! Reads one packet record: its first octet, then the number of the interface and the length, then
//! the octets of the packet, and never an octet behind the record.
ghost use Rattle.std.specs.Prelude.{◌≡◌, ◌≢◌, ◌+◌, ◌<◌, ◌≤◌, length, IfSome};
ghost use Rattle.urpf_base.specs.Faults.{Rose};
ghost use Rattle.feed_io.specs.Packets.{coded_front, octets_front, packet_front, record_front};
ghost use Rattle.forward_worker.specs.Reading.{IsRecordRead};

use crate::octet_reader::{FrontRead, read_front};
use byteorder::{BigEndian, ByteOrder};
use feed_io::{MARKER, PACKET, PacketSource};
use ip_head::source_of;
use urpf_base::Addr;

/// The octets of an interface number and a length.
const NUMBERS_OCTETS: usize = 4;

/// What came of reading a record.
#[derive(Clone, Copy, Debug, PartialEq, Eq)]
pub enum RecordRead {
    /// A packet that came in on this interface. Its source is None where its first octets name none.
    Packet(u16, Option<Addr>),
    /// A marker.
    Marker,
    /// No octet is left.
    End,
    /// Its first octet is neither 1 nor 2, or the source ends within it.
    Bad,
    /// A read failed.
    Failed,
}

/// Reads the next record.
pub fn read_record<P: PacketSource>(packets: &mut P) -> RecordRead
    ensures read { IsRecordRead record_front (P.left packets.old) (P.left packets.new) result }
    ensures bad { result ≡ RecordRead.Bad → IfSome (P.left packets.old) (λ text. 0 < length text) }
    ensures later { P.faults packets.old ≤ P.faults packets.new }
    ensures once { P.faults packets.new ≤ P.faults packets.old + 1 }
    ensures kept { result ≢ RecordRead.Failed → P.faults packets.new ≡ P.faults packets.old }
    ensures failed { result ≡ RecordRead.Failed → Rose (P.faults packets.old) (P.faults packets.new) }
{
    match read_front(packets, 1) {
        FrontRead::Whole(front) => read_coded(packets, front.octets()[0]),
        FrontRead::Short => RecordRead::End,
        FrontRead::Failed => RecordRead::Failed,
    }
}

/// Reads the rest of the record that begins with this octet.
fn read_coded<P: PacketSource>(packets: &mut P, code: u8) -> RecordRead
    ensures read { IsRecordRead (coded_front code) (P.left packets.old) (P.left packets.new) result }
    ensures more { result ≢ RecordRead.End }
    ensures later { P.faults packets.old ≤ P.faults packets.new }
    ensures once { P.faults packets.new ≤ P.faults packets.old + 1 }
    ensures kept { result ≢ RecordRead.Failed → P.faults packets.new ≡ P.faults packets.old }
    ensures failed { result ≡ RecordRead.Failed → Rose (P.faults packets.old) (P.faults packets.new) }
{
    match code {
        PACKET => read_packet(packets),
        MARKER => RecordRead::Marker,
        _ => RecordRead::Bad,
    }
}

/// Reads the numbers and the octets of a packet.
fn read_packet<P: PacketSource>(packets: &mut P) -> RecordRead
    ensures read { IsRecordRead packet_front (P.left packets.old) (P.left packets.new) result }
    ensures more { result ≢ RecordRead.End }
    ensures later { P.faults packets.old ≤ P.faults packets.new }
    ensures once { P.faults packets.new ≤ P.faults packets.old + 1 }
    ensures kept { result ≢ RecordRead.Failed → P.faults packets.new ≡ P.faults packets.old }
    ensures failed { result ≡ RecordRead.Failed → Rose (P.faults packets.old) (P.faults packets.new) }
{
    match read_front(packets, NUMBERS_OCTETS) {
        FrontRead::Whole(front) => {
            let iface = BigEndian::read_u16(front.octets());
            let count = BigEndian::read_u16(&front.octets()[2..]);
            read_octets(packets, iface, count)
        }
        FrontRead::Short => RecordRead::Bad,
        FrontRead::Failed => RecordRead::Failed,
    }
}

/// Reads the octets of a packet that came in on this interface, so many.
fn read_octets<P: PacketSource>(packets: &mut P, iface: u16, count: u16) -> RecordRead
    ensures read { IsRecordRead (octets_front iface count) (P.left packets.old) (P.left packets.new) result }
    ensures more { result ≢ RecordRead.End }
    ensures later { P.faults packets.old ≤ P.faults packets.new }
    ensures once { P.faults packets.new ≤ P.faults packets.old + 1 }
    ensures kept { result ≢ RecordRead.Failed → P.faults packets.new ≡ P.faults packets.old }
    ensures failed { result ≡ RecordRead.Failed → Rose (P.faults packets.old) (P.faults packets.new) }
{
    match read_front(packets, count as usize) {
        FrontRead::Whole(front) => RecordRead::Packet(iface, source_of(front.octets()).ok()),
        FrontRead::Short => RecordRead::Bad,
        FrontRead::Failed => RecordRead::Failed,
    }
}
