//! A whole text out of a source.
ghost use Rattle.std.specs.Prelude.{◌≡◌, ◌<◌, ◌≤◌, [], length, Some, IfOk, IfSome, vec_len};
ghost use Rattle.urpf_base.specs.Faults.{CountsFault};

use crate::outside::{Failed, Source};
use std::alloc::Global;

/// The most octets that one read asks for.
const CHUNK_OCTETS: usize = 4096;

/// Why a text was not read to its end.
#[derive(Clone, Copy, Debug, PartialEq, Eq)]
pub enum TextFault {
    /// A read failed.
    Failed,
    /// The text has more octets than the limit.
    TooLong,
    /// Memory could not be had for what was read.
    OutOfMemory,
}

/// All octets that the source has left, at most `limit` of them.
///
/// It stops at the first read that fails, and at the octet past the limit. Memory is taken only where
/// there is an octet.
pub fn read_text<S: Source>(
    alloc: Global,
    source: &mut S,
    limit: usize,
) -> Result<Vec<u8>, TextFault>
    ensures whole { IfOk result (λ text. IfSome (S.left source.old) (λ all. text.items ≡ all)) }
    ensures ended { IfOk result (λ text. IfSome (S.left source.old) (λ all. S.left source.new ≡ Some [])) }
    ensures within { IfOk result (λ text. vec_len text ≤ limit) }
    ensures too_long { result ≡ Err TextFault.TooLong
        → IfSome (S.left source.old) (λ all. limit < length all) }
    ensures cause { CountsFault (result ≡ Err TextFault.Failed)
        (S.faults source.old) (S.faults source.new) }
    ensures memory { result ≡ Err TextFault.OutOfMemory
        → IfSome (S.left source.old) (λ all. 0 < length all) }
{
    let mut buf = [0u8; CHUNK_OCTETS];
    let mut text = Vec::new(alloc);
    loop {
        let room = limit - text.len();
        let want = room.min(CHUNK_OCTETS - 1) + 1;
        let count = match source.read(&mut buf[..want]) {
            Ok(count) => count,
            Err(Failed) => return Err(TextFault::Failed),
        };
        if count == 0 {
            return Ok(text);
        }
        if text.extend_from_slice(&buf[..count]).is_err() {
            return Err(TextFault::OutOfMemory);
        }
        if text.len() > limit {
            return Err(TextFault::TooLong);
        }
    }
}
