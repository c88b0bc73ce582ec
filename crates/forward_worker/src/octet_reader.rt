//! Reads so many octets of a source, and keeps the first ones.
ghost use Rattle.std.specs.Prelude.{◌≡◌, ◌≢◌, ◌+◌, ◌≤◌};
ghost use Rattle.urpf_base.specs.Faults.{Rose};
ghost use Rattle.forward_worker.specs.Reading.{IsFrontRead};

use crate::octet_front::OctetFront;
use feed_io::PacketSource;

/// The octets that are asked of the source at once, at most.
const PIECE_OCTETS: usize = 512;

/// What came of reading so many octets.
#[derive(Drop)]
pub enum FrontRead {
    /// They were read, and begin with these.
    Whole(OctetFront),
    /// The source ended before.
    Short,
    /// A read failed.
    Failed,
}

/// Reads so many octets. Where there are fewer, or a read fails, those before are lost.
pub fn read_front<P: PacketSource>(packets: &mut P, count: usize) -> FrontRead
    ensures read { IsFrontRead count (P.left packets.old) (P.left packets.new) result }
    ensures later { P.faults packets.old ≤ P.faults packets.new }
    ensures once { P.faults packets.new ≤ P.faults packets.old + 1 }
    ensures kept { result ≢ FrontRead.Failed → P.faults packets.new ≡ P.faults packets.old }
    ensures failed { result ≡ FrontRead.Failed → Rose (P.faults packets.old) (P.faults packets.new) }
{
    let mut front = OctetFront::new();
    let mut piece = [0u8; PIECE_OCTETS];
    let mut missing = count;
    while missing > 0 {
        let want = missing.min(PIECE_OCTETS);
        let Ok(given) = packets.read(&mut piece[..want]) else {
            return FrontRead::Failed;
        };
        if given == 0 {
            return FrontRead::Short;
        }
        front.append(&piece[..given]);
        missing -= given;
    }
    FrontRead::Whole(front)
}
