//! The interfaces, packets, rounds and gates that tests are made of.
ghost use Rattle.std.specs.Prelude.{◌≤◌};

use epoch_publish::{Checker, SurePass};
use feed_io::{Gate, MARKER, MemSource, PACKET};
use forward_worker::{CheckRow, Desk, Stop, WorkerRound, work_round};
use router_config::{Kinds, read_config};
use std::cell::Cell;
use std::process::Abort;
use urpf_base::{Addr, Verdict};

/// 198.51.100.9, of the addresses for documentation (RFC 5737).
const SOURCE: Addr = Addr::V4(0xC633_6409);

/// One interface, of a customer.
const ONE: &str = r#"
interface = [{number = 0, role = "customer", mode = "feasible"}]
session = [{interface = 0, peer_as = 64501}]
"#;

/// A header of IPv4 (RFC 791, section 3.1), from 198.51.100.9 to 203.0.113.1, with nothing behind it.
const HEADER: [u8; 20] = [
    0x45, 0, 0, 0x14, 0, 0, 0, 0, 0x40, 0x11, 0, 0, 198, 51, 100, 9, 203, 0, 113, 1,
];

/// The worker of the tests.
pub const WORKER: u32 = 3;

/// The one interface.
pub fn one(rt: &(impl Abort + AllocGlobal)) -> Kinds {
    let config = read_config(rt.alloc(), ONE.as_bytes()).expect(rt, "a configuration");
    config.kinds().expect(rt, "memory")
}

/// A stand-in for a pass, over the one interface.
pub fn sure(rt: &(impl Abort + AllocGlobal)) -> SurePass {
    SurePass::new(rt.alloc(), one(rt))
}

/// Appends a piece of a source of records: `P` is a packet of interface 0, `M` a marker, `C` a packet
/// that is cut off within its header, and `X` an octet that begins no record.
fn append(rt: &impl Abort, octets: &mut Vec<u8>, letter: u8) {
    let (head, len): (&[u8], usize) = match letter {
        b'P' => (&[PACKET, 0, 0, 0, 20], 20),
        b'M' => (&[MARKER], 0),
        b'C' => (&[PACKET, 0, 0, 0, 20], 1),
        _ => (&[3], 0),
    };
    octets.extend_from_slice(head).expect(rt, "memory");
    octets
        .extend_from_slice(&HEADER[..len])
        .expect(rt, "memory");
}

/// A source of these pieces, whose read of this number fails, and none where it is 0.
pub fn source(rt: &(impl Abort + AllocGlobal), pieces: &str, fails: u64) -> MemSource {
    let mut octets = Vec::new(rt.alloc());
    for letter in pieces.as_bytes() {
        append(rt, &mut octets, *letter);
    }
    let calls = Vec::from_slice(rt.alloc(), &[fails]).expect(rt, "memory");
    MemSource::new(octets, calls)
}

/// A round of work.
pub fn work<C: Checker, G: Gate>(
    rt: &impl AllocGlobal,
    pass: &mut C,
    desk: &mut Desk,
    packets: &mut MemSource,
    stop: Stop,
    gate: &G,
) -> WorkerRound
    requires { (desk.old.place ≤ desk.old.taken) × (desk.old.taken ≤ desk.old.limit) }
    ensures { (desk.new.place ≤ desk.new.taken) × (desk.new.taken ≤ desk.new.limit) }
{
    work_round(rt.alloc(), pass, desk, packets, stop, gate)
}

/// The row of a packet at this place.
pub fn row(place: u64, answer: Option<(u64, Verdict)>) -> CheckRow {
    CheckRow {
        worker: WORKER,
        place,
        iface: 0,
        source: Some(SOURCE),
        answer,
    }
}

/// A gate that writes down what it is told: three digits for each call, which are 1 before a check and
/// 2 after it, the worker, and the place.
#[derive(Drop)]
pub struct Calls {
    told: Cell<u64>,
}

impl Calls {
    /// A gate that was told nothing.
    pub fn new() -> Calls {
        Calls { told: Cell::new(0) }
    }

    /// What it was told, the last three digits of the last call.
    pub fn told(&self) -> u64 {
        self.told.get()
    }

    fn tell(&self, kind: u64, worker: u32, place: u64) {
        let digits = kind
            .wrapping_mul(10)
            .wrapping_add(worker as u64)
            .wrapping_mul(10)
            .wrapping_add(place);
        let told = self.told.get();
        self.told.set(told.wrapping_mul(1_000).wrapping_add(digits));
    }
}

impl Gate for Calls {
    fn before_check(&self, worker: u32, place: u64) {
        self.tell(1, worker, place);
    }

    fn after_check(&self, worker: u32, place: u64) {
        self.tell(2, worker, place);
    }

    fn before_publish(&self, _number: u64) {
        self.tell(3, 0, 0);
    }

    fn after_publish(&self, _number: u64) {
        self.tell(4, 0, 0);
    }
}
