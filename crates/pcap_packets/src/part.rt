//! The part of a capture file that is read: the header of the file, the header of a record, or its
//! frame.
//!
//! | Octets | Header of a record |
//! |---|---|
//! | 0 to 7 | time |
//! | 8 to 11 | captured length, at most 262,144: the octets that follow |
//! | 12 to 15 | original length |
//!
//! Of a frame the first 78 octets are kept, and those behind them are read over
//! (pcap-savefile(5); draft-ietf-opsawg-pcap, section 5).
ghost use Rattle.std.specs.Prelude.{◌≡◌, ◌⊎◌, ◌+◌, ◌-◌, ◌<◌, ◌≤◌, ℕ, List, [], length, OnErr, OnOk};
ghost use Rattle.pcap_packets.specs.Reading.{EndsWell, Fits, IsOff, IsUnfinished, Reads, part_left, part_of};
ghost use Rattle.pcap_packets.specs.declared.part.Stage.TheVariants as stage;

use crate::formats::{FILE_HEADER, Format, read_format, read_number};
use crate::frames::frame_record;
use feed_io::{FewOctets, Unsent};
use urpf_base::Failed;

/// The octets of the header of a record.
const RECORD_HEADER: usize = 16;

/// The most octets of a frame that decide its record: 18 before the packet, and 60 of it.
const FRONT_OCTETS: usize = 78;

/// The most octets of a frame.
pub const CAPTURED_OCTETS: u32 = 262_144;

/// The most octets that are read over at once.
pub const PIECE_OCTETS: usize = 512;

/// Which part of a file it is.
#[derive(Clone, Copy, Debug, PartialEq, Eq)]
pub enum Stage {
    /// The header of the file.
    FileHeader,
    /// The header of a record, in a file of this format.
    RecordHeader(Format),
    /// The frame of a record.
    Frame(Format),
}

/// A part of a file.
#[derive(Drop)]
pub struct Part {
    /// Which one it is.
    pub stage: Stage,
    /// Its first octets, as far as they were read, and at most 78 of them.
    pub front: FewOctets,
    /// How many octets of it were not read yet.
    pub missing: usize,
}

impl Part {
    /// A part of which nothing was read yet.
    pub fn new(stage: Stage, missing: usize) -> Part
        ensures { result ≡ part_of stage [] missing }
    {
        Part {
            stage,
            front: FewOctets::new(),
            missing,
        }
    }

    /// The header of a file.
    pub fn file_header() -> Part
        ensures { result ≡ part_of stage.FileHeader [] 24 }
    {
        Part::new(Stage::FileHeader, FILE_HEADER)
    }

    /// How many octets are read next: those that are missing, and no more than there is room for.
    pub fn wanted(&self) -> usize
        requires { 0 < self.now.missing }
        ensures some { 0 < result }
        ensures within { result ≤ PIECE_OCTETS }
        ensures missing { result ≤ self.now.missing }
        ensures room { length self.now.front < 78 → length self.now.front + result ≤ 78 }
    {
        let room = FRONT_OCTETS.saturating_sub(self.front.octets().len());
        if room == 0 {
            return PIECE_OCTETS.min(self.missing);
        }
        room.min(self.missing)
    }

    /// Takes the next octets.
    pub fn take(&mut self, piece: &[u8])
        requires fits { Fits self.old }
        requires missing { length piece.now ≤ self.old.missing }
        requires room { length self.old.front < 78 → length self.old.front + length piece.now ≤ 78 }
        ensures reads { (iface : ℕ) (unsent : List ℕ) → Reads iface self.old unsent piece.now self.new unsent }
        ensures fits { Fits self.new }
        ensures missing { self.new.missing ≡ self.old.missing - length piece.now }
    {
        self.missing -= piece.len();
        if self.front.octets().len() >= FRONT_OCTETS {
            return;
        }
        self.front.append(piece);
    }

    /// Goes on behind a part that is whole. A frame gives its record.
    ///
    /// It fails where the header of a file or of a record is off the format, and is left as it was.
    pub fn finish(&mut self, iface: u16, unsent: &mut Unsent) -> Result<(), Failed>
        requires whole { self.old.missing ≡ 0 }
        requires fits { Fits self.old }
        requires sent { unsent.old ≡ [] }
        ensures reads { OnOk result (Reads iface self.old [] [] self.new unsent.new) }
        ensures unfinished { OnOk result (IsUnfinished self.new) }
        ensures off { OnErr result ((text : List ℕ) → IsOff iface self.new text) }
        ensures kept { OnErr result (self.new ≡ self.old) }
        ensures nothing { OnErr result (unsent.new ≡ []) }
    {
        match self.stage {
            Stage::FileHeader => {
                self.end_file_header()?;
                Ok(())
            }
            Stage::RecordHeader(format) => self.end_record_header(format, iface, unsent),
            Stage::Frame(format) => {
                self.end_frame(format, iface, unsent);
                Ok(())
            }
        }
    }

    /// Goes on behind the header of a file.
    fn end_file_header(&mut self) -> Result<(), Failed>
        requires stage { self.old.stage ≡ stage.FileHeader }
        requires whole { length self.old.front ≡ 24 }
        ensures reads { OnOk result ((iface : ℕ) → Reads iface self.old [] [] self.new []) }
        ensures unfinished { OnOk result (IsUnfinished self.new) }
        ensures off { OnErr result ((iface : ℕ) (text : List ℕ) → IsOff iface self.new text) }
        ensures kept { OnErr result (self.new ≡ self.old) }
    {
        let Some(format) = read_format(self.front.octets()) else {
            return Err(Failed);
        };
        *self = Part::new(Stage::RecordHeader(format), RECORD_HEADER);
        Ok(())
    }

    /// Goes on behind the header of a record.
    fn end_record_header(
        &mut self,
        format: Format,
        iface: u16,
        unsent: &mut Unsent,
    ) -> Result<(), Failed>
        requires stage { self.old.stage ≡ stage.RecordHeader format }
        requires whole { length self.old.front ≡ 16 }
        requires sent { unsent.old ≡ [] }
        ensures reads { OnOk result (Reads iface self.old [] [] self.new unsent.new) }
        ensures unfinished { OnOk result (IsUnfinished self.new) }
        ensures off { OnErr result ((text : List ℕ) → IsOff iface self.new text) }
        ensures kept { OnErr result (self.new ≡ self.old) }
        ensures nothing { OnErr result (unsent.new ≡ []) }
    {
        let count = read_number(format.order, &self.front.octets()[8..]);
        if count > CAPTURED_OCTETS {
            return Err(Failed);
        }
        *self = Part::new(Stage::Frame(format), count as usize);
        if count > 0 {
            return Ok(());
        }
        self.end_frame(format, iface, unsent);
        Ok(())
    }

    /// Goes on behind a frame, and gives its record.
    fn end_frame(&mut self, format: Format, iface: u16, unsent: &mut Unsent)
        requires stage { self.old.stage ≡ stage.Frame format }
        requires whole { self.old.missing ≡ 0 }
        ensures reads { Reads iface self.old [] [] self.new unsent.new }
        ensures unfinished { IsUnfinished self.new }
    {
        *unsent = Unsent::new(frame_record(format.link, iface, self.front.octets()));
        *self = Part::new(Stage::RecordHeader(format), RECORD_HEADER);
    }

    /// That the source ends here. It fails within a part.
    pub fn end(&self) -> Result<(), Failed>
        requires { IsUnfinished self.now }
        ensures well { OnOk result (EndsWell self.now []) }
        ensures off { OnErr result ((iface : ℕ) → IsOff iface self.now []) }
        ensures nothing { (iface : ℕ) → part_left iface self.now [] ≡ [] }
    {
        match self.stage {
            Stage::FileHeader => Err(Failed),
            Stage::RecordHeader(_) => {
                if self.front.octets().is_empty() {
                    return Ok(());
                }
                Err(Failed)
            }
            Stage::Frame(_) => Err(Failed),
        }
    }
}
