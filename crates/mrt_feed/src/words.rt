//! The words that name a recording and a peer: a word comes in, and what it says goes out.
//!
//! ```text
//! word = "mrt:" file "@" peer
//! ```
ghost use Rattle.std.specs.Prelude.{◌≡◌, ◌+◌, ◌<◌, ℕ, List, ◌∷◌, ◌++◌, length, drop, slice_index, Some, None};
ghost use Rattle.std.specs.Option.{IfSome, IsSomeAnd};
ghost use Rattle.std.specs.Str.Iter.{LacksByte};
ghost use Rattle.mrt_feed.specs.Words.{SpellsMrt};
ghost use Rattle.mrt_feed.specs.declared.words.MrtSpec as declared;

use ip_text::read_addr;
use urpf_base::Addr;

/// What an `mrt:` word says.
#[derive(Clone, Copy, Debug, PartialEq, Eq)]
pub struct MrtSpec {
    /// The peer whose session is fed.
    pub peer: Addr,
    /// Where the name of the file begins in the word.
    pub from: usize,
    /// Where it ends.
    pub to: usize,
}

/// What the word `mrt:FILE@PEER` says, cut at its last `@`. None where the word is no such word, FILE
/// is empty, or PEER is not the text of an address.
pub fn read_mrt_word(word: &[u8]) -> Option<MrtSpec>
    ensures found { IfSome result (SpellsMrt word.now) }
    ensures only { (spec : declared.MrtSpec) → SpellsMrt word.now spec → result ≡ Some spec }
{
    let Some(rest) = behind_mark(word) else {
        return None;
    };
    let Some((file, addr)) = cut_last(rest) else {
        return None;
    };
    let Some(peer) = read_addr(addr) else {
        return None;
    };
    if file.is_empty() {
        return None;
    }
    Some(MrtSpec {
        peer,
        from: 4,
        to: 4 + file.len(),
    })
}

/// What stands behind `mrt:`. None where the word does not begin so.
fn behind_mark(word: &[u8]) -> Option<&[u8]>
    ensures found { IfSome result (λ r. word.now ≡ 109 ∷ 114 ∷ 116 ∷ 58 ∷ r.now) }
    ensures only { (rest : List ℕ) → word.now ≡ 109 ∷ 114 ∷ 116 ∷ 58 ∷ rest
        → IsSomeAnd result (λ r. r.now ≡ rest) }
{
    match word {
        [b'm', b'r', b't', b':', rest @ ..] => Some(rest),
        _ => None,
    }
}

/// What stands before the last `@`, and behind it. None where there is none.
fn cut_last(text: &[u8]) -> Option<(&[u8], &[u8])>
    ensures found { IfSome result (λ r. (text.now ≡ r.0.now ++ (64 ∷ r.1.now)) × LacksByte 64 r.1.now) }
    ensures only { (file peer : List ℕ) → text.now ≡ file ++ (64 ∷ peer) → LacksByte 64 peer
        → IsSomeAnd result (λ r. (r.0.now ≡ file) × (r.1.now ≡ peer)) }
{
    let Some(place) = last_at(text) else {
        return None;
    };
    Some((&text[..place], &text[place + 1..]))
}

/// Where the last `@` stands.
fn last_at(text: &[u8]) -> Option<usize>
    ensures bound { IfSome result (λ place. place < length text.now) }
    ensures found { IfSome result (λ place. (slice_index text.now place ≡ 64)
        × LacksByte 64 (drop (place + 1) text.now)) }
    ensures none { result ≡ None → LacksByte 64 text.now }
{
    text.iter().rposition(|octet| *octet == b'@')
}
