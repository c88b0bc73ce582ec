//! Checks of drawn sources against a snapshot of what an engine gave.
//!
//! The prefixes are the IPv4 routes of 24 bits from 1.0.0.0/24 on, one after the other.
ghost use Rattle.std.specs.Prelude.{◌≡◌, ◌≤◌, IfOk, IfSome, length};
ghost use Rattle.std.specs.Vec.{vec_len};

use cover_table::Snapshot;
use ip_text::read_number;
use rpf_plain::Row;
use std::alloc::Global;
use urpf_base::{Addr, IfaceId, OutOfMemory, Prefix, Verdict};

/// How many blocks of 24 bits come before the first prefix.
const FIRST: u32 = 0x1_0000;

/// The most prefixes.
const MOST: u32 = 4_000_000;

/// How many origins the prefixes have.
const ORIGINS: u32 = 50_000;

/// How many prefixes there are, and how many sources are checked.
#[derive(Clone, Copy)]
pub struct Checks {
    pub count: u32,
    pub asked: u32,
}

impl Checks {
    /// What these words say: from 1 to 4,000,000 prefixes, and from 1 to 100,000,000 checks. None
    /// where they say nothing.
    pub fn read(words: &[String]) -> Option<Checks>
        ensures { IfSome result (λ checks. (1 ≤ checks.count) × (checks.count ≤ 4000000)) }
    {
        if words.len() != 2 {
            return None;
        }
        let count = read_number(words[0].as_bytes(), MOST)?;
        let asked = read_number(words[1].as_bytes(), 100_000_000)?;
        if count == 0 || asked == 0 {
            return None;
        }
        Some(Checks { count, asked })
    }
}

/// The row of interface 0 for the prefix at this place. None past the last.
pub fn row(place: u32) -> Option<Row>
    ensures { IfSome result (λ row. (row.prefix.len ≡ 24) × (row.iface ≡ 0)) }
{
    if place > MOST {
        return None;
    }
    Some(Row {
        prefix: Prefix::new(Addr::V4((FIRST + place) * 256), 24)?,
        iface: IfaceId::new(0)?,
        origin: Some(place % ORIGINS + 1),
    })
}

/// The places that prefixes of sources are drawn from: so many, from this one on.
#[derive(Clone, Copy)]
pub struct Places {
    pub first: u32,
    pub span: u32,
}

impl Places {
    pub fn new(first: u32, span: u32) -> Places
        ensures first { result.first ≡ first }
        ensures span { result.span ≡ span }
    {
        Places { first, span }
    }
}

/// Numbers that follow from one another by three shifts (Marsaglia's xorshift of 64 bits).
#[derive(Clone, Copy)]
struct Draws {
    state: u64,
}

impl Draws {
    fn new() -> Draws {
        Draws {
            state: 88_172_645_463_325_252,
        }
    }

    /// The next number of 32 bits.
    fn next(&mut self) -> u32 {
        self.state ^= self.state << 13;
        self.state ^= self.state >> 7;
        self.state ^= self.state << 17;
        (self.state >> 16 & 0xffff_ffff) as u32
    }
}

/// So many sources in prefixes at these places.
pub fn drawn(alloc: Global, places: Places, count: u32) -> Result<Vec<u32>, OutOfMemory>
    ensures { IfOk result (λ sources. vec_len sources ≡ count) }
{
    let mut draws = Draws::new();
    let mut sources = Vec::new(alloc);
    for _ in 0..count {
        let place = places.first.wrapping_add(draws.next() % places.span.max(1));
        let block = FIRST.wrapping_add(place).wrapping_mul(256);
        let Ok(()) = sources.push(block | draws.next() % 256) else {
            return Err(OutOfMemory);
        };
    }
    Ok(sources)
}

/// How many of the sources pass on interface 0.
pub fn passed(snapshot: &Snapshot, sources: &[u32]) -> usize
    ensures { result ≤ length sources.now }
{
    let mut count = 0;
    for source in sources {
        if snapshot.check(0, Some(Addr::V4(*source))) == Verdict::Pass {
            count += 1;
        }
    }
    count
}
