//! The words that name a capture file: a word comes in, and the number of the interface on which its
//! packets came in and the place of the file's name go out.
//!
//! ```text
//! word = "pcap:" interface ":" file
//! ```
ghost use Rattle.std.specs.Prelude.{◌≡◌, ℕ, List, ◌∷◌, Some};
ghost use Rattle.std.specs.Option.{IfSome, IsSomeAnd};
ghost use Rattle.pcap_packets.specs.Words.{SpellsPcap};
ghost use Rattle.pcap_packets.specs.declared.words.PcapSpec as declared;

use ip_text::{cut, read_number};

/// What a `pcap:` word says.
#[derive(Clone, Copy, Debug, PartialEq, Eq)]
pub struct PcapSpec {
    /// The number of the interface on which the packets came in.
    pub iface: u16,
    /// The place in the word at which the file's name begins.
    pub from: usize,
}

/// The interface and the place of the file's name in the word `pcap:I:FILE`, I in decimal without
/// leading zeros up to 65,535, and FILE not empty. None where the word is no such word.
pub fn read_pcap_word(word: &[u8]) -> Option<PcapSpec>
    ensures found { IfSome result (SpellsPcap word.now) }
    ensures only { (spec : declared.PcapSpec) → SpellsPcap word.now spec → result ≡ Some spec }
{
    let Some(parts) = parts_of(word) else {
        return None;
    };
    let Some((digits, file)) = cut(parts, b':') else {
        return None;
    };
    let Some(number) = read_number(digits, 65_535) else {
        return None;
    };
    if file.is_empty() {
        return None;
    }
    Some(PcapSpec {
        iface: number as u16,
        from: word.len() - file.len(),
    })
}

/// What stands behind `pcap:`. None where the word does not begin so.
fn parts_of(word: &[u8]) -> Option<&[u8]>
    ensures found { IfSome result (λ r. word.now ≡ 112 ∷ 99 ∷ 97 ∷ 112 ∷ 58 ∷ r.now) }
    ensures only { (rest : List ℕ) → word.now ≡ 112 ∷ 99 ∷ 97 ∷ 112 ∷ 58 ∷ rest
        → IsSomeAnd result (λ r. r.now ≡ rest) }
{
    match word {
        [b'p', b'c', b'a', b'p', b':', parts @ ..] => Some(parts),
        _ => None,
    }
}
