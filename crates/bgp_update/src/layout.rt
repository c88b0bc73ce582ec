//! The layout of an UPDATE's body (RFC 4271, section 4.3): the body comes in, and its three fields
//! go out: withdrawn routes and path attributes, each after its length of two octets, and the NLRI
//! up to the end. What stands in the fields is left to the other files.
ghost use Rattle.std.specs.Prelude.{◌≡◌, ℕ, List, IfSome, IsSomeAnd};
ghost use Rattle.bgp_update.specs.Layout.{IsCounted, IsLaidOut};

/// The fields of a body, which they borrow.
#[derive(Clone, Copy)]
pub struct Fields<'a> {
    pub withdrawn: &'a [u8],
    pub attributes: &'a [u8],
    pub nlri: &'a [u8],
}

/// The three fields. None where a length says more octets than follow it.
pub fn read_fields(body: &[u8]) -> Option<Fields<'_>>
    ensures found { IfSome result (λ f. IsLaidOut body.now f.withdrawn.now f.attributes.now
        f.nlri.now) }
    ensures only { (withdrawn attributes nlri : List ℕ)
        → IsLaidOut body.now withdrawn attributes nlri
        → IsSomeAnd result (λ f. (f.withdrawn.now ≡ withdrawn) × (f.attributes.now ≡ attributes)
        × (f.nlri.now ≡ nlri)) }
{
    let Some((withdrawn, rest)) = counted_field(body) else {
        return None;
    };
    let Some((attributes, nlri)) = counted_field(rest) else {
        return None;
    };
    Some(Fields {
        withdrawn,
        attributes,
        nlri,
    })
}

/// A field after its length of two octets, and what follows it. None where that is too short.
fn counted_field(text: &[u8]) -> Option<(&[u8], &[u8])>
    ensures found { IfSome result (λ x. IsCounted text.now x.0.now x.1.now) }
    ensures only { (field rest : List ℕ) → IsCounted text.now field rest
        → IsSomeAnd result (λ x. (x.0.now ≡ field) × (x.1.now ≡ rest)) }
{
    let [high, low, rest @ ..] = text else {
        return None;
    };
    let count = u16::from_be_bytes([*high, *low]) as usize;
    if rest.len() < count {
        return None;
    }
    Some(rest.split_at(count))
}
