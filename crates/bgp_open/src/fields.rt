//! Fields of a code (1 octet), a length (1 octet) and a value of that length: the optional parameters
//! of an OPEN (RFC 4271, section 4.2), and the capabilities in one of them (RFC 5492, section 4).
ghost use Rattle.std.specs.Prelude.{◌≡◌};
ghost use Rattle.std.specs.Option.{option_map};
ghost use Rattle.bgp_open.specs.Fields as spec;

/// The code and the value of the first field, and the octets behind it. None where no field stands
/// there whole.
pub fn field_at(text: &[u8]) -> Option<(u8, &[u8], &[u8])>
    ensures { option_map (λ x. (spec.field x.0 x.1.now, x.2.now)) result ≡ spec.field_at text.now }
{
    let [code, count, rest @ ..] = text else {
        return None;
    };
    let count = *count as usize;
    if count > rest.len() {
        return None;
    }
    Some((*code, &rest[..count], &rest[count..]))
}

/// Whether the text is fields one after the other, and none runs past its end.
pub fn are_fields(text: &[u8]) -> bool
    ensures { result ≡ spec.are_fields text.now }
{
    let mut rest = text;
    while let Some((_, _, after)) = field_at(rest) {
        rest = after;
    }
    rest.is_empty()
}
