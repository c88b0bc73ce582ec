//! The body of an OPEN, read plainly: what it says, or the subcode of its first fault (RFC 4271,
//! sections 4.2 and 6.2; RFC 5492, section 4; RFC 6793, section 3; RFC 4760, section 8).
use super::octets::{counted, number};
use std::alloc::{AllocError, Global};

/// What an OPEN says.
#[derive(Clone, Copy, Debug, PartialEq, Eq)]
pub struct PlainOpen {
    pub number: u64,
    pub hold: u64,
    pub id: u64,
    pub is_four: bool,
    pub lists_v6: bool,
}

/// A parameter, or a capability in one.
#[derive(Clone, Copy)]
struct PlainField<'a> {
    code: u8,
    value: &'a [u8],
}

/// What a body of ten octets or more says, or the subcode of its first fault.
pub fn open_of(
    alloc: Global,
    body: &[u8],
    expected: u64,
) -> Result<Result<PlainOpen, u8>, AllocError> {
    let hold = number_in(body, 3, 5);
    let id = number_in(body, 5, 9);
    if number_in(body, 0, 1) != 4 {
        return Ok(Err(1));
    }
    if hold > 0 && hold < 3 {
        return Ok(Err(6));
    }
    if id == 0 {
        return Ok(Err(3));
    }
    let capabilities = match capabilities_of(alloc, body)? {
        Ok(capabilities) => capabilities,
        Err(fault) => return Ok(Err(fault)),
    };
    let four = last_number(capabilities.as_slice());
    let number = four.unwrap_or(number_in(body, 1, 3));
    if number != expected {
        return Ok(Err(2));
    }
    Ok(Ok(PlainOpen {
        number,
        hold,
        id,
        is_four: four.is_some(),
        lists_v6: is_v6_listed(capabilities.as_slice()),
    }))
}

/// The number in the octets from one place up to another.
fn number_in(body: &[u8], from: usize, to: usize) -> u64 {
    number(body.get(from..to).unwrap_or(&[]))
}

/// The capabilities of all parameters in their order, or the subcode of the first fault.
fn capabilities_of<'a>(
    alloc: Global,
    body: &'a [u8],
) -> Result<Result<Vec<PlainField<'a>>, u8>, AllocError> {
    let octets = body.get(10..).unwrap_or(&[]);
    if number_in(body, 9, 10) != octets.len() as u64 {
        return Ok(Err(0));
    }
    let Some(parameters) = fields_of(alloc, octets)? else {
        return Ok(Err(0));
    };
    let mut all = Vec::new(alloc);
    for parameter in parameters {
        if parameter.code != 2 {
            return Ok(Err(4));
        }
        let Some(capabilities) = fields_of(alloc, parameter.value)? else {
            return Ok(Err(0));
        };
        if is_any_of_wrong_length(capabilities.as_slice()) {
            return Ok(Err(0));
        }
        all.extend_from_slice(capabilities.as_slice())?;
    }
    Ok(Ok(all))
}

/// Fields of a code, a length and a value, one after the other. None where the last runs past the
/// octets.
fn fields_of<'a>(
    alloc: Global,
    octets: &'a [u8],
) -> Result<Option<Vec<PlainField<'a>>>, AllocError> {
    let mut fields = Vec::new(alloc);
    let mut rest = octets;
    for _ in 0..octets.len() {
        let Some((code, behind)) = rest.split_first() else {
            break;
        };
        let Some((value, after)) = counted(behind, 1) else {
            return Ok(None);
        };
        fields.push(PlainField { code: *code, value })?;
        rest = after;
    }
    Ok(Some(fields))
}

/// Whether a capability 65 or 1 has another length than 4.
fn is_any_of_wrong_length(capabilities: &[PlainField]) -> bool {
    for capability in capabilities {
        let is_read = capability.code == 65 || capability.code == 1;
        if is_read && capability.value.len() != 4 {
            return true;
        }
    }
    false
}

/// The AS number of the last capability 65.
fn last_number(capabilities: &[PlainField]) -> Option<u64> {
    let mut last = None;
    for capability in capabilities {
        if capability.code == 65 {
            last = Some(number(capability.value));
        }
    }
    last
}

/// Whether a capability 1 has AFI 2 and SAFI 1. The octet between them is reserved.
fn is_v6_listed(capabilities: &[PlainField]) -> bool {
    for capability in capabilities {
        let family = number_in(capability.value, 0, 2);
        let subsequent = number_in(capability.value, 3, 4);
        if capability.code == 1 && family == 2 && subsequent == 1 {
            return true;
        }
    }
    false
}
