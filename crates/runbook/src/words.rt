//! Cutting words off a line: octets come in, and words of them go out.
ghost use Rattle.std.specs.Prelude.{◌≡◌, ◌↔◌, ℕ, List, [], ◌∷◌, ◌≤◌, length, false, not, IsTrue};
ghost use Rattle.std.specs.List.{position_or_len, prefix_len};
ghost use Rattle.std.specs.Option.{IfNone, IfSome, IsSomeAnd};
ghost use Rattle.runbook.specs.Lines.{is_blank, words_in};

/// The first word, and what follows it. None where there is no word.
pub(crate) fn next_word(text: &[u8]) -> Option<(&[u8], &[u8])>
    ensures first { IfSome result (λ r. words_in text.now ≡ r.0.now ∷ words_in r.1.now) }
    ensures none { IfNone result (words_in text.now ≡ []) }
{
    let (_, text) = text.split_at(blanks_of(text));
    if text.is_empty() {
        return None;
    }
    Some(text.split_at(word_of(text)))
}

/// How many blanks stand in front.
fn blanks_of(text: &[u8]) -> usize
    ensures value { result ≡ prefix_len is_blank text.now }
    ensures within { result ≤ length text.now }
{
    text.iter()
        .take_while(|octet| **octet == b' ' || **octet == b'\t')
        .count()
}

/// How many octets stand before the first blank.
fn word_of(text: &[u8]) -> usize
    ensures value { result ≡ position_or_len is_blank text.now }
    ensures within { result ≤ length text.now }
{
    text.iter()
        .take_while(|octet| !(**octet == b' ' || **octet == b'\t'))
        .count()
}

/// Whether there is a word.
pub(crate) fn has_words(text: &[u8]) -> bool
    ensures some { IsTrue result → ¬ (words_in text.now ≡ []) }
    ensures none { result ≡ false → words_in text.now ≡ [] }
{
    let Some(_) = next_word(text) else {
        return false;
    };
    true
}

/// The two words of a text that has just two. None for any other number of words.
pub(crate) fn two_words(text: &[u8]) -> Option<(&[u8], &[u8])>
    ensures found { IfSome result (λ r. words_in text.now ≡ r.0.now ∷ r.1.now ∷ []) }
    ensures only { (first second : List ℕ) → words_in text.now ≡ first ∷ second ∷ []
        → IsSomeAnd result (λ r. (r.0.now ≡ first) × (r.1.now ≡ second)) }
{
    let Some((first, rest)) = next_word(text) else {
        return None;
    };
    let Some((second, rest)) = next_word(rest) else {
        return None;
    };
    if has_words(rest) {
        return None;
    }
    Some((first, second))
}

/// The three words of a text that has just three. None for any other number of words.
pub(crate) fn three_words(text: &[u8]) -> Option<(&[u8], &[u8], &[u8])>
    ensures found { IfSome result
        (λ r. words_in text.now ≡ r.0.now ∷ r.1.now ∷ r.2.now ∷ []) }
    ensures only { (first second third : List ℕ) → words_in text.now ≡ first ∷ second ∷ third ∷ []
        → IsSomeAnd result (λ r. (r.0.now ≡ first) × (r.1.now ≡ second) × (r.2.now ≡ third)) }
{
    let Some((first, rest)) = next_word(text) else {
        return None;
    };
    let Some((second, third)) = two_words(rest) else {
        return None;
    };
    Some((first, second, third))
}
