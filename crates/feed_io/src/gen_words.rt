//! The words that name a generator: a word comes in, and the seed and the count that it spells go
//! out.
//!
//! ```text
//! word = "gen:" seed ":" count
//! ```
ghost use Rattle.std.specs.Prelude.{◌≡◌, ℕ, List, ◌∷◌, Some};
ghost use Rattle.std.specs.Option.{IfSome, IsSomeAnd};
ghost use Rattle.feed_io.specs.GenWords.{SpellsGen};
ghost use Rattle.feed_io.specs.declared.gen_words.GenSpec as declared;

use crate::generator::MOST_PREFIXES;
use ip_text::{cut, read_number};

/// What a generator is made of.
#[derive(Clone, Copy, Debug, PartialEq, Eq)]
pub struct GenSpec {
    /// What the origins follow from, 0 to 65,535.
    pub seed: u32,
    /// How many prefixes are announced, 1 to 4,000,000.
    pub count: u32,
}

/// The seed and the count of the word `gen:SEED:N`, each in decimal without leading zeros. None
/// where the word is no such word, or a number is out of its range.
pub fn read_gen(word: &[u8]) -> Option<GenSpec>
    ensures found { IfSome result (SpellsGen word.now) }
    ensures only { (spec : declared.GenSpec) → SpellsGen word.now spec → result ≡ Some spec }
{
    let Some(numbers) = numbers_of(word) else {
        return None;
    };
    let Some((seed_digits, count_digits)) = cut(numbers, b':') else {
        return None;
    };
    let Some(seed) = read_number(seed_digits, 65_535) else {
        return None;
    };
    let Some(count) = read_number(count_digits, MOST_PREFIXES) else {
        return None;
    };
    if count == 0 {
        return None;
    }
    Some(GenSpec { seed, count })
}

/// What stands behind `gen:`. None where the word does not begin so.
fn numbers_of(word: &[u8]) -> Option<&[u8]>
    ensures found { IfSome result (λ r. word.now ≡ 103 ∷ 101 ∷ 110 ∷ 58 ∷ r.now) }
    ensures only { (rest : List ℕ) → word.now ≡ 103 ∷ 101 ∷ 110 ∷ 58 ∷ rest
        → IsSomeAnd result (λ r. r.now ≡ rest) }
{
    match word {
        [b'g', b'e', b'n', b':', numbers @ ..] => Some(numbers),
        _ => None,
    }
}
