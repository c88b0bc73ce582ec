//! The body of a NOTIFICATION (RFC 4271, section 4.5): error code (1 octet), error subcode (1) and
//! data, which is not read.
ghost use Rattle.std.specs.Prelude.{◌≡◌, ◌≤◌, length, slice_index};

/// The error code and the error subcode.
pub fn read_notification(body: &[u8]) -> (u8, u8)
    requires { 2 ≤ length body.now }
    ensures code { result.0 ≡ slice_index body.now 0 }
    ensures subcode { result.1 ≡ slice_index body.now 1 }
{
    (body[0], body[1])
}
