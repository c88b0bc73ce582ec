//! Bodies that readers of other programs took wrongly.
use super::updates::read;
use as_path::Width;
use bgp_update::UpdateFault;
use std::process::Abort;

/// Bodies whose last withdrawn prefix has fewer octets than its length says, though the octets that
/// follow the field would be enough for it.
const INTO_THE_ATTRIBUTES: [&[u8]; 4] = [
    // A prefix of 8 bits without octets, and no attributes.
    b"\x00\x01\x08\
        \x00\x00",
    // A prefix of 24 bits with one octet, and no attributes.
    b"\x00\x02\x18\xC6\
        \x00\x00",
    // A prefix of 24 bits with two octets behind one that is whole, and an ORIGIN.
    b"\x00\x05\x08\x0A\x18\xC6\x33\
        \x00\x04\
        \x40\x01\x01\x00",
    // A prefix of 32 bits without octets, where the length of the attributes and two more are four.
    b"\x00\x01\x20\
        \x00\x02\
        \x40\x01",
];

/// That each body is refused for a prefix, at each width.
fn are_refused(rt: &impl Abort, rows: &[&[u8]]) {
    for body in rows {
        for width in [Width::Two, Width::Four] {
            let fault = read(rt, body, width, true).err();
            assert_eq!(rt; fault, Some(UpdateFault { sub: 10 }), "{body:?}");
        }
    }
}

#[test]
fn a_withdrawn_prefix_takes_no_octet_of_the_attributes(rt: HostRuntime) {
    are_refused(&rt, &INTO_THE_ATTRIBUTES);
}
