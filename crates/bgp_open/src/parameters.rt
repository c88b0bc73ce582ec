//! The optional parameters of an OPEN (RFC 4271, section 4.2): their faults, and what the
//! capabilities in them tell. A parameter is type (1 octet), length (1 octet) and value.
ghost use Rattle.std.specs.Prelude.{◌≡◌};
ghost use Rattle.bgp_open.specs.Fields.{field, fields_in};
ghost use Rattle.bgp_open.specs.Openings as spec;

use crate::capabilities::{Told, are_capabilities, tell};
use crate::faults::{UNSPECIFIC, UNSUPPORTED_OPTIONAL_PARAMETER};
use crate::fields::{are_fields, field_at};

/// The type of the parameter that holds capabilities (RFC 5492, section 4).
const CAPABILITIES: u8 = 2;

/// The subcode of the first fault of the parameters, whose octets are said to be `count`.
///
/// A wrong count or a parameter past the end comes before what any parameter holds.
pub fn parameters_fault(count: u8, parameters: &[u8]) -> Option<u8>
    ensures { result ≡ spec.parameters_fault count parameters.now }
{
    if count as usize != parameters.len() {
        return Some(UNSPECIFIC);
    }
    if !are_fields(parameters) {
        return Some(UNSPECIFIC);
    }
    first_fault(parameters)
}

/// The fault of the first parameter that has one.
fn first_fault(parameters: &[u8]) -> Option<u8>
    ensures { result ≡ spec.first_parameter_fault (fields_in parameters.now) }
{
    let mut rest = parameters;
    while let Some((code, value, after)) = field_at(rest) {
        if let Some(fault) = parameter_fault(code, value) {
            return Some(fault);
        }
        rest = after;
    }
    None
}

/// The fault of one parameter.
fn parameter_fault(code: u8, value: &[u8]) -> Option<u8>
    ensures { result ≡ spec.parameter_fault (field code value.now) }
{
    if code != CAPABILITIES {
        return Some(UNSUPPORTED_OPTIONAL_PARAMETER);
    }
    if !are_capabilities(value) {
        return Some(UNSPECIFIC);
    }
    None
}

/// What the capabilities in all parameters tell.
pub fn told_in(parameters: &[u8]) -> Told
    ensures { result ≡ spec.told_in parameters.now }
{
    let mut told = Told {
        number: None,
        v6: false,
    };
    let mut rest = parameters;
    while let Some((_, value, after)) = field_at(rest) {
        told = tell(value, told);
        rest = after;
    }
    told
}
