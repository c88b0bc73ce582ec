//! Which addresses the prefixes of a field belong to.

/// The family of all prefixes of a field. The octets do not tell it: the attribute or the part of
/// the message that holds the field does (RFC 4760, section 3).
#[derive(Clone, Copy, Debug, PartialEq, Eq)]
pub enum Family {
    V4,
    V6,
}
