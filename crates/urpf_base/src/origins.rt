//! The origin of a route: the AS that its path ends in.

/// The number of the AS that a path ends in (RFC 6811, section 2), or none where it ends in no
/// single AS.
pub type Origin = Option<u32>;
