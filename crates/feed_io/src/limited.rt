//! A source of which so many octets are read at most.
ghost use Rattle.std.specs.Prelude.{◌≡◌, ◌⊎◌, ◌+◌, ◌<◌, ◌≤◌, length, IfOk, OnErr, OnOk};
ghost use Rattle.std.specs.Io.{ReadsAtMost};
ghost use Rattle.std.specs.Io.KnownBytes.{ReadConsumes};
ghost use Rattle.urpf_base.specs.Faults.{Rose};
ghost use Rattle.feed_io.specs.declared.limited.TheConstants as limit;

use urpf_base::{Failed, Source};

/// The most octets that are read of one file: of a trace, a recording or a capture.
pub const FILE_OCTETS: usize = 4_398_046_511_104;

/// A source, and how many of its octets were read.
#[derive(Drop)]
pub struct Limited<S: Source + Drop> {
    source: S,
    taken: usize,
}

impl<S: Source + Drop> Limited<S> {
    /// Nothing was read yet.
    pub fn new(source: S) -> Limited<S>
        ensures source { result.source ≡ source }
        ensures taken { result.taken ≡ 0 }
    {
        Limited { source, taken: 0 }
    }

    /// Reads as the source does, and never past the limit. It fails where the source does, and where
    /// the limit is reached.
    pub fn read(&mut self, buf: &mut [u8]) -> Result<usize, Failed>
        requires { 0 < length buf.old }
        ensures bound { ReadsAtMost result buf.new }
        ensures octets { ReadConsumes (S.left self.old.source) (S.left self.new.source) result buf.new }
        ensures later { S.faults self.old.source ≤ S.faults self.new.source }
        ensures once { S.faults self.new.source ≤ S.faults self.old.source + 1 }
        ensures same { OnOk result (S.faults self.new.source ≡ S.faults self.old.source) }
        ensures taken { IfOk result (λ n. self.new.taken ≡ self.old.taken + n) }
        ensures within { OnOk result (self.new.taken ≤ limit.FILE_OCTETS) }
        ensures more { OnOk result (self.old.taken < limit.FILE_OCTETS) }
        ensures failed { OnErr result (Rose (S.faults self.old.source) (S.faults self.new.source)
            ⊎ (limit.FILE_OCTETS ≤ self.old.taken)) }
        ensures kept { OnErr result (self.new.taken ≡ self.old.taken) }
    {
        let room = FILE_OCTETS.saturating_sub(self.taken);
        if room == 0 {
            return Err(Failed);
        }
        let want = room.min(buf.len());
        let count = self.source.read(&mut buf[..want])?;
        self.taken += count;
        Ok(count)
    }
}
