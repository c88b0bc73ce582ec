//! Packet records out of a capture file.
//!
//! A record is given once its frame is read whole. Over a broken file it gives the records of the
//! frames before the break, and then it fails. After one failure every later call fails.
ghost use Rattle.std.specs.Prelude.{◌≡◌, ◌⊎◌, ◌+◌, ◌<◌, ◌≤◌, ℕ, List, [], ◌++◌, length, option_map, IfOk, IfSome};
ghost use Rattle.std.specs.Prelude.{IsErr, OnErr, OnOk, Ok, true, false};
ghost use Rattle.std.specs.Io.{ReadsAtMost};
ghost use Rattle.std.specs.Io.KnownBytes.{IsAtEnd, ReadConsumes};
ghost use Rattle.urpf_base.specs.Faults.{HasCause, Rose};
ghost use Rattle.feed_io.specs.Memory.{counted_up};
ghost use Rattle.feed_io.specs.TraceFeeds.{KeepsCount};
ghost use Rattle.pcap_packets.specs.Captures.{pcap_records};
ghost use Rattle.pcap_packets.specs.Reading.{EndsWell, Fits, IsOff, IsUnfinished, Moved, Stops, packets_left};
ghost use Rattle.feed_io.specs.declared.limited.TheConstants as limit;

use crate::part::{PIECE_OCTETS, Part};
use feed_io::{FewOctets, Limited, PacketSource, Unsent};
use std::marker::Model;
use urpf_base::{Failed, Source};

/// A capture file, of which at most 4,398,046,511,104 octets are read. Contracts see it as its source,
/// how many octets were read, the interface, the part that is read, what of a record is still to
/// give, whether a call failed, and how many did.
#[derive(Drop)]
pub struct PcapPackets<S: Source + Drop> {
    input: Limited<S>,
    iface: u16,
    part: Part,
    pending: Unsent,
    failed: bool,
    faults: u64,
}

impl<S: Source + Drop> Model for PcapPackets<S> {
    ghost use Rattle.std.specs.Prelude.{◌≡◌, false};
    ghost use Rattle.pcap_packets.specs.Reading.{CaptureState, IsUnfinished};

    ghost Value = { CaptureState S };

    ghost view = { λ p. record {
      source = p.input.source;
      taken = p.input.taken;
      iface = p.iface;
      part = p.part;
      pending = p.pending;
      failed = p.failed;
      faults = p.faults;
    } };

    ghost invariant = { λ p. p.failed ≡ false → IsUnfinished p.part };
}

impl<S: Source + Drop> PcapPackets<S> {
    /// The packet records of the capture file that the source has left, of packets that came in on
    /// this interface. Takes no memory, and reads nothing yet.
    pub fn new(source: S, iface: u16) -> PcapPackets<S>
        ensures left { packets_left result.iface result.part result.pending (S.left result.source)
            ≡ option_map (λ text. pcap_records text iface) (S.left source) }
        ensures source { result.source ≡ source }
        ensures taken { result.taken ≡ 0 }
        ensures pending { result.pending ≡ [] }
        ensures failed { result.failed ≡ false }
        ensures faults { result.faults ≡ 0 }
    {
        PcapPackets {
            input: Limited::new(source),
            iface,
            part: Part::file_header(),
            pending: Unsent::new(FewOctets::new()),
            failed: false,
            faults: 0,
        }
    }
}

impl<S: Source + Drop> PacketSource for PcapPackets<S> {
    ghost left = { λ p. packets_left p.iface p.part p.pending (S.left p.source) };

    ghost faults = { λ p. p.faults };

    fn read(&mut self, buf: &mut [u8]) -> Result<usize, Failed>
        requires { 0 < length buf.old }
        ensures bound { ReadsAtMost result buf.new }
        ensures octets { ReadConsumes
            (packets_left self.old.iface self.old.part self.old.pending (S.left self.old.source))
            (packets_left self.new.iface self.new.part self.new.pending (S.left self.new.source)) result buf.new }
        ensures cause { HasCause self.old.faults self.new.faults result }
        ensures err { OnErr result (self.new.faults ≡ counted_up self.old.faults) }
        // Once it failed, it fails in every later call, and leaves the source alone.
        ensures again { self.old.failed ≡ true → IsErr result }
        ensures alone { self.old.failed ≡ true
            → (self.new.source ≡ self.old.source) × (self.new.taken ≡ self.old.taken) }
        ensures fails { OnErr result (self.new.failed ≡ true) }
        ensures goes_on { OnOk result (self.new.failed ≡ false) }
        // It fails only by the source, by the format or the limit, or since it failed before.
        ensures failed { OnErr result (Rose (S.faults self.old.source) (S.faults self.new.source)
            ⊎ (IfSome (S.left self.old.source)
            (Stops self.old.taken self.old.iface self.old.part self.old.pending)
            ⊎ (self.old.failed ≡ true))) }
        // A failed read is not asked again: it ends the call.
        ensures later { S.faults self.old.source ≤ S.faults self.new.source }
        ensures once { S.faults self.new.source ≤ S.faults self.old.source + 1 }
        ensures kept { OnOk result (S.faults self.new.source ≡ S.faults self.old.source) }
        // All octets that it reads count towards the limit.
        ensures counted { OnOk result (KeepsCount (S.left self.old.source) self.old.taken
            (S.left self.new.source) self.new.taken) }
        ensures grows { self.old.taken ≤ self.new.taken }
        // Where the format or the limit stops it, it fails.
        ensures stops { IfSome (S.left self.old.source) (λ text.
            Stops self.old.taken self.old.iface self.old.part self.old.pending text → IsErr result) }
    {
        if self.failed {
            self.faults = self.faults.saturating_add(1);
            return Err(Failed);
        }
        if let Ok(()) = fill(
            &mut self.input,
            self.iface,
            &mut self.part,
            &mut self.pending,
        ) {
            return Ok(self.pending.give(buf));
        }
        self.failed = true;
        self.faults = self.faults.saturating_add(1);
        Err(Failed)
    }
}

/// Reads until there are octets to give. There are none at the end of the file.
fn fill<S: Source + Drop>(
    input: &mut Limited<S>,
    iface: u16,
    part: &mut Part,
    pending: &mut Unsent,
) -> Result<(), Failed>
    requires { IsUnfinished part.old }
    ensures moved { Moved iface (S.left input.old.source) input.old.taken part.old pending.old
        (S.left input.new.source) input.new.taken part.new pending.new }
    ensures unfinished { OnOk result (IsUnfinished part.new) }
    ensures later { S.faults input.old.source ≤ S.faults input.new.source }
    ensures once { S.faults input.new.source ≤ S.faults input.old.source + 1 }
    ensures kept { OnOk result (S.faults input.new.source ≡ S.faults input.old.source) }
    ensures grows { input.old.taken ≤ input.new.taken }
    ensures ended { OnOk result (pending.new ≡ [] → IsAtEnd (S.left input.new.source)) }
    ensures within { OnOk result (pending.new ≡ [] → input.new.taken < limit.FILE_OCTETS) }
    ensures well { OnOk result (pending.new ≡ [] → EndsWell part.new []) }
    ensures nothing { OnErr result (pending.new ≡ []) }
    ensures failed { OnErr result (Rose (S.faults input.old.source) (S.faults input.new.source)
        ⊎ (IfSome (S.left input.new.source) (IsOff iface part.new)
        ⊎ ((limit.FILE_OCTETS ≤ input.new.taken) × IsUnfinished part.new))) }
{
    while pending.len() == 0 {
        if !step(input, iface, part, pending)? {
            return part.end();
        }
    }
    Ok(())
}

/// Reads once, and goes on behind a part that is whole then. False where the source ends.
fn step<S: Source + Drop>(
    input: &mut Limited<S>,
    iface: u16,
    part: &mut Part,
    pending: &mut Unsent,
) -> Result<bool, Failed>
    requires unfinished { IsUnfinished part.old }
    requires sent { pending.old ≡ [] }
    ensures moved { Moved iface (S.left input.old.source) input.old.taken part.old pending.old
        (S.left input.new.source) input.new.taken part.new pending.new }
    ensures unfinished { OnOk result (IsUnfinished part.new) }
    ensures more { result ≡ Ok true → input.old.taken < input.new.taken }
    ensures ended { result ≡ Ok false → IsAtEnd (S.left input.new.source) }
    ensures sent { result ≡ Ok false → pending.new ≡ [] }
    ensures room { OnOk result (input.old.taken < limit.FILE_OCTETS) }
    ensures stays { result ≡ Ok false → input.new.taken ≡ input.old.taken }
    ensures later { S.faults input.old.source ≤ S.faults input.new.source }
    ensures once { S.faults input.new.source ≤ S.faults input.old.source + 1 }
    ensures kept { OnOk result (S.faults input.new.source ≡ S.faults input.old.source) }
    ensures grows { input.old.taken ≤ input.new.taken }
    ensures nothing { OnErr result (pending.new ≡ []) }
    ensures failed { OnErr result (Rose (S.faults input.old.source) (S.faults input.new.source)
        ⊎ (((text : List ℕ) → IsOff iface part.new text)
        ⊎ ((limit.FILE_OCTETS ≤ input.new.taken) × IsUnfinished part.new))) }
{
    let count = take_piece(input, part)?;
    if count == 0 {
        return Ok(false);
    }
    if part.missing == 0 {
        part.finish(iface, pending)?;
    }
    Ok(true)
}

/// Reads the next octets of a part, and answers how many: none where the source ends.
fn take_piece<S: Source + Drop>(input: &mut Limited<S>, part: &mut Part) -> Result<usize, Failed>
    requires { IsUnfinished part.old }
    ensures moved { (iface : ℕ) (unsent : List ℕ) → Moved iface (S.left input.old.source) input.old.taken part.old unsent
        (S.left input.new.source) input.new.taken part.new unsent }
    ensures fits { Fits part.new }
    ensures taken { IfOk result (λ n. input.new.taken ≡ input.old.taken + n) }
    ensures unfinished { result ≡ Ok 0 → IsUnfinished part.new }
    ensures ended { result ≡ Ok 0 → IsAtEnd (S.left input.new.source) }
    ensures room { OnOk result (input.old.taken < limit.FILE_OCTETS) }
    ensures later { S.faults input.old.source ≤ S.faults input.new.source }
    ensures once { S.faults input.new.source ≤ S.faults input.old.source + 1 }
    ensures kept { OnOk result (S.faults input.new.source ≡ S.faults input.old.source) }
    ensures grows { input.old.taken ≤ input.new.taken }
    ensures failed { OnErr result (Rose (S.faults input.old.source) (S.faults input.new.source)
        ⊎ (limit.FILE_OCTETS ≤ input.new.taken)) }
    ensures same { OnErr result (IsUnfinished part.new) }
{
    let mut piece = [0u8; PIECE_OCTETS];
    let want = part.wanted();
    let count = input.read(&mut piece[..want])?;
    part.take(&piece[..count]);
    Ok(count)
}
