//! Cutting a text at a mark: octets come in, and what stands before and after the mark goes out.
ghost use Rattle.std.specs.Prelude.{◌≡◌, ℕ, List, ◌∷◌, ◌++◌, ◌==◌, position};
ghost use Rattle.std.specs.Option.{IfSome, IsSomeAnd};
ghost use Rattle.std.specs.Str.Iter.{LacksByte};

/// What stands before the first mark, and what stands after it; the mark is any octet. None where there
/// is no mark.
pub fn cut(text: &[u8], mark: u8) -> Option<(&[u8], &[u8])>
    ensures found { IfSome result (λ r. text.now ≡ r.0.now ++ (mark ∷ r.1.now)) }
    ensures only { (front rest : List ℕ) → LacksByte mark front
        → text.now ≡ front ++ (mark ∷ rest)
        → IsSomeAnd result (λ r. (r.0.now ≡ front) × (r.1.now ≡ rest)) }
{
    let Some(place) = place_of(text, mark) else {
        return None;
    };
    Some((&text[..place], &text[place + 1..]))
}

/// Where the first mark stands.
fn place_of(text: &[u8], mark: u8) -> Option<usize>
    ensures { result ≡ position (λ b. b == mark) text.now }
{
    text.iter().position(|octet| *octet == mark)
}
