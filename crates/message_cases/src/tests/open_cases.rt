//! OPENs that are changed, and what the reader and the plain reading say of each.
use super::chance::Chance;
use super::changes::all_changes;
use super::opens::{PlainOpen, open_of};
use super::outcomes::Outcomes;
use bgp_open::read_open;
use std::alloc::{AllocError, Global};
use std::process::Abort;

/// The number that the changes follow from.
const START: u64 = 5492;

/// The subcodes that an OPEN can have (RFC 4271, section 6.2).
const SUBCODES: [u8; 6] = [0, 1, 2, 3, 4, 6];

/// The AS of the peer.
const EXPECTED: u32 = 64501;

/// Version 4, My Autonomous System 64501, hold time 90 and identifier 192.0.2.1; and My Autonomous
/// System 23456, hold time 3 and identifier 0.0.0.1.
const HEADS: [&[u8]; 2] = [
    b"\x04\xFB\xF5\x00\x5A\xC0\x00\x02\x01",
    b"\x04\x5B\xA0\x00\x03\x00\x00\x00\x01",
];

/// Good optional parameters, without their length.
const GOOD: [&[u8]; 8] = [
    b"",
    // Four-octet AS numbers.
    b"\x02\x06\x41\x04\x00\x00\xFB\xF5",
    // IPv6 unicast, IPv4 unicast and four-octet AS numbers in one parameter.
    b"\x02\x12\x01\x04\x00\x02\x00\x01\x01\x04\x00\x01\x00\x01\x41\x04\x00\x00\xFB\xF5",
    // The same in three parameters.
    b"\x02\x06\x01\x04\x00\x02\x00\x01\x02\x06\x01\x04\x00\x01\x00\x01\
        \x02\x06\x41\x04\x00\x00\xFB\xF5",
    // Capability 65 twice, of another AS first.
    b"\x02\x06\x41\x04\x00\x01\x86\xA0\x02\x06\x41\x04\x00\x00\xFB\xF5",
    // Route refresh, graceful restart, and a parameter without capabilities.
    b"\x02\x02\x02\x00\x02\x08\x40\x06\x40\x78\x00\x01\x01\x80\x02\x00",
    // IPv6 multicast, and then IPv6 unicast with a reserved octet that is not zero.
    b"\x02\x0C\x01\x04\x00\x02\x00\x02\x01\x04\x00\x02\xFF\x01",
    // An unknown capability whose value looks like capability 65.
    b"\x02\x08\x80\x06\x41\x04\x00\x00\xFB\xF6",
];

/// The body with this head, and these parameters behind their length.
fn laid_out(alloc: Global, head: &[u8], parameters: &[u8]) -> Result<Vec<u8>, AllocError> {
    let mut body = Vec::new(alloc);
    body.extend_from_slice(head)?;
    body.push((parameters.len() % 256) as u8)?;
    body.extend_from_slice(parameters)?;
    Ok(body)
}

/// The reader and the plain reading say the same.
fn compare(
    rt: &impl Abort,
    alloc: Global,
    body: &[u8],
    outcomes: &mut Outcomes,
) -> Result<(), AllocError> {
    let Some(answer) = answer_of(body) else {
        return Ok(());
    };
    let wanted = open_of(alloc, body, EXPECTED as u64)?;
    assert_eq!(rt; answer, wanted, "{body:?}");
    outcomes.count(answer.err());
    Ok(())
}

/// What the reader says of a body, in the plain reading's words. None for a body of fewer octets
/// than an OPEN has, which the reader is never given.
fn answer_of(body: &[u8]) -> Option<Result<PlainOpen, u8>> {
    if body.len() < 10 {
        return None;
    }
    Some(match read_open(body, EXPECTED) {
        Ok(seen) => Ok(PlainOpen {
            number: seen.asn as u64,
            hold: seen.hold as u64,
            id: seen.id as u64,
            is_four: seen.four_octet,
            lists_v6: seen.v6,
        }),
        Err(fault) => Err(fault.sub),
    })
}

/// All changes of a whole body, with its lengths as they come.
fn compare_changed(
    rt: &impl Abort,
    alloc: Global,
    head: &[u8],
    parameters: &[u8],
    chance: &mut Chance,
    outcomes: &mut Outcomes,
) -> Result<(), AllocError> {
    let body = laid_out(alloc, head, parameters)?;
    compare(rt, alloc, body.as_slice(), outcomes)?;
    for octets in all_changes(alloc, body.as_slice(), chance)? {
        compare(rt, alloc, octets.as_slice(), outcomes)?;
    }
    Ok(())
}

/// All changes of the parameters alone, behind a length that is right.
fn compare_parameters(
    rt: &impl Abort,
    alloc: Global,
    head: &[u8],
    parameters: &[u8],
    chance: &mut Chance,
    outcomes: &mut Outcomes,
) -> Result<(), AllocError> {
    for octets in all_changes(alloc, parameters, chance)? {
        let body = laid_out(alloc, head, octets.as_slice())?;
        compare(rt, alloc, body.as_slice(), outcomes)?;
    }
    Ok(())
}

#[test]
fn a_changed_open_is_read_as_the_format_says(rt: HostRuntime) {
    let alloc = rt.alloc();
    let mut chance = Chance::starting_from(START);
    let mut outcomes = Outcomes::new();
    for parameters in GOOD {
        let [head, other] = HEADS;
        compare_changed(&rt, alloc, head, parameters, &mut chance, &mut outcomes).expect(
            &rt, "memory",
        );
        compare_changed(&rt, alloc, other, parameters, &mut chance, &mut outcomes).expect(
            &rt, "memory",
        );
        compare_parameters(&rt, alloc, head, parameters, &mut chance, &mut outcomes).expect(
            &rt, "memory",
        );
        compare_parameters(&rt, alloc, other, parameters, &mut chance, &mut outcomes).expect(
            &rt, "memory",
        );
    }
    assert!(rt; outcomes.all() >= 2000, "{outcomes:?}");
    assert!(rt; outcomes.have_all(&SUBCODES), "{outcomes:?}");
}
