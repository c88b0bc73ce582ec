//! UPDATEs that are changed, and what the reader and the plain reading say of each.
use super::attributes::Told;
use super::chance::Chance;
use super::changes::all_changes;
use super::outcomes::Outcomes;
use super::prefixes::plain;
use super::updates::{PlainUpdate, update_of};
use as_path::Width;
use bgp_update::read_update;
use std::alloc::{AllocError, Global};
use std::process::Abort;

/// The number that the changes follow from.
const START: u64 = 4271;

/// The subcodes that an UPDATE can have (RFC 4271, section 6.3).
const SUBCODES: [u8; 10] = [1, 2, 3, 4, 5, 6, 8, 9, 10, 11];

/// An UPDATE by its three fields.
#[derive(Clone, Copy)]
struct Parts {
    withdrawn: &'static [u8],
    attributes: &'static [u8],
    nlri: &'static [u8],
}

const GOOD: [Parts; 7] = [
    // An AS_PATH of 64501, and 198.51.100.0/24.
    Parts {
        withdrawn: b"",
        attributes: b"\x40\x01\x01\x00\
            \x40\x02\x06\x02\x01\x00\x00\xFB\xF5\
            \x40\x03\x04\xC0\x00\x02\x01",
        nlri: b"\x18\xC6\x33\x64",
    },
    // From two-octet AS numbers: AS_PATH 64501 23456, AGGREGATOR of AS_TRANS, AS4_PATH 100000.
    Parts {
        withdrawn: b"",
        attributes: b"\x40\x01\x01\x02\
            \x40\x02\x06\x02\x02\xFB\xF5\x5B\xA0\
            \x40\x03\x04\xC0\x00\x02\x01\
            \xC0\x07\x06\x5B\xA0\xC0\x00\x02\x01\
            \xC0\x11\x06\x02\x01\x00\x01\x86\xA0\
            \xC0\x12\x08\x00\x01\x86\xA0\xC0\x00\x02\x01",
        nlri: b"\x18\xC6\x33\x64",
    },
    // From two-octet AS numbers: a set in both paths, and 192.0.2.1/32 and 0.0.0.0/0.
    Parts {
        withdrawn: b"\x00",
        attributes: b"\x40\x01\x01\x01\
            \x50\x02\x00\x0C\x02\x02\xFB\xF5\x5B\xA0\x01\x02\xFB\xF6\xFB\xF7\
            \x40\x03\x04\xC0\x00\x02\x01\
            \xC0\x11\x0A\x01\x02\x00\x01\x86\xA0\x00\x00\xFB\xF5",
        nlri: b"\x20\xC0\x00\x02\x01\x00",
    },
    // MP_REACH_NLRI with 2001:db8::/32, and a withdrawn 198.51.100.128/25.
    Parts {
        withdrawn: b"\x19\xC6\x33\x64\xFF",
        attributes: b"\x40\x01\x01\x00\
            \x40\x02\x06\x02\x01\x00\x00\xFB\xF5\
            \x80\x0E\x1A\x00\x02\x01\x10\
            \x20\x01\x0D\xB8\x00\x00\x00\x00\x00\x00\x00\x00\x00\x00\x00\x01\x00\
            \x20\x20\x01\x0D\xB8",
        nlri: b"",
    },
    // MP_UNREACH_NLRI with 2001:db8::/32 and 2001:db8::/33, and a withdrawn 198.51.100.0/24.
    Parts {
        withdrawn: b"\x18\xC6\x33\x64",
        attributes: b"\x80\x0F\x0E\x00\x02\x01\x20\x20\x01\x0D\xB8\x21\x20\x01\x0D\xB8\xFF",
        nlri: b"",
    },
    // All other attributes of the table, and one that is not in it.
    Parts {
        withdrawn: b"",
        attributes: b"\x80\x04\x04\x00\x00\x00\x01\
            \x40\x05\x04\x00\x00\x00\x64\
            \x40\x06\x00\
            \xC0\x07\x08\x00\x00\xFB\xF5\xC0\x00\x02\x01\
            \xC0\x08\x04\xFB\xF5\x00\x64",
        nlri: b"",
    },
    // An empty AS_PATH.
    Parts {
        withdrawn: b"",
        attributes: b"\x40\x01\x01\x00\x40\x02\x00\x40\x03\x04\xDF\x00\x00\x00",
        nlri: b"\x01\x80",
    },
];

/// The body of these fields, each of the first two behind its length.
fn laid_out(
    alloc: Global,
    withdrawn: &[u8],
    attributes: &[u8],
    nlri: &[u8],
) -> Result<Vec<u8>, AllocError> {
    let mut body = Vec::new(alloc);
    put_counted(&mut body, withdrawn)?;
    put_counted(&mut body, attributes)?;
    body.extend_from_slice(nlri)?;
    Ok(body)
}

fn put_counted(body: &mut Vec<u8>, field: &[u8]) -> Result<(), AllocError> {
    body.push((field.len() / 256 % 256) as u8)?;
    body.push((field.len() % 256) as u8)?;
    body.extend_from_slice(field)
}

/// Which peers an UPDATE may come from.
const PEERS: [Told; 4] = [
    Told {
        is_four: true,
        lists_v6: true,
    },
    Told {
        is_four: true,
        lists_v6: false,
    },
    Told {
        is_four: false,
        lists_v6: true,
    },
    Told {
        is_four: false,
        lists_v6: false,
    },
];

/// The reader and the plain reading say the same, from each kind of peer.
fn compare(
    rt: &impl Abort,
    alloc: Global,
    body: &[u8],
    outcomes: &mut Outcomes,
) -> Result<(), AllocError> {
    for told in PEERS {
        let wanted = update_of(alloc, body, told)?;
        let answer = answer_of(alloc, body, told)?;
        assert_eq!(rt; answer, wanted, "{told:?} {body:?}");
        outcomes.count(answer.err());
    }
    Ok(())
}

/// What the reader says of a body, in the plain reading's words. A body of fewer octets than its
/// two lengths take is none that the reader is given.
fn answer_of(
    alloc: Global,
    body: &[u8],
    told: Told,
) -> Result<Result<PlainUpdate, u8>, AllocError> {
    if body.len() < 4 {
        return Ok(Err(1));
    }
    let width = if told.is_four {
        Width::Four
    } else {
        Width::Two
    };
    let update = match read_update(body, width, told.lists_v6) {
        Ok(update) => update,
        Err(fault) => return Ok(Err(fault.sub)),
    };
    let mut withdrawn = Vec::new(alloc);
    for prefix in update.withdrawn() {
        withdrawn.push(plain(&prefix))?;
    }
    let mut announced = Vec::new(alloc);
    for prefix in update.announced() {
        announced.push(plain(&prefix))?;
    }
    Ok(Ok(PlainUpdate {
        withdrawn,
        announced,
        origin: update.origin().map(|number| number as u64),
    }))
}

/// All changes of a whole body, each with its lengths as they come.
fn compare_changed(
    rt: &impl Abort,
    alloc: Global,
    parts: Parts,
    chance: &mut Chance,
    outcomes: &mut Outcomes,
) -> Result<(), AllocError> {
    let body = laid_out(alloc, parts.withdrawn, parts.attributes, parts.nlri)?;
    compare(rt, alloc, body.as_slice(), outcomes)?;
    for octets in all_changes(alloc, body.as_slice(), chance)? {
        compare(rt, alloc, octets.as_slice(), outcomes)?;
    }
    Ok(())
}

/// All changes of the attributes alone, laid out behind a length that is right.
fn compare_attributes(
    rt: &impl Abort,
    alloc: Global,
    parts: Parts,
    chance: &mut Chance,
    outcomes: &mut Outcomes,
) -> Result<(), AllocError> {
    for field in all_changes(alloc, parts.attributes, chance)? {
        let body = laid_out(alloc, parts.withdrawn, field.as_slice(), parts.nlri)?;
        compare(rt, alloc, body.as_slice(), outcomes)?;
    }
    Ok(())
}

#[test]
fn a_changed_update_is_read_as_the_format_says(rt: HostRuntime) {
    let alloc = rt.alloc();
    let mut chance = Chance::starting_from(START);
    let mut outcomes = Outcomes::new();
    for parts in GOOD {
        compare_changed(&rt, alloc, parts, &mut chance, &mut outcomes).expect(&rt, "memory");
        compare_attributes(&rt, alloc, parts, &mut chance, &mut outcomes).expect(&rt, "memory");
    }
    assert!(rt; outcomes.all() >= 2000, "{outcomes:?}");
    assert!(rt; outcomes.have_all(&SUBCODES), "{outcomes:?}");
}

/// Attributes, good and bad, of which any may come after any.
const POOL: [&[u8]; 37] = [
    b"\xC0\x01\x01\x00",
    b"\x40\x01\x01\x00",
    b"\x50\x01\x00\x01\x02",
    b"\x40\x01\x01\x03",
    b"\x40\x02\x06\x02\x01\x00\x00\xFB\xF5",
    b"\x40\x02\x06\x02\x02\xFB\xF5\x5B\xA0",
    // Well formed at both widths: two sequences or one, and a sequence and a set or one sequence.
    b"\x40\x02\x0A\x02\x02\xFB\xF5\xFB\xF6\x02\x01\xFB\xF7",
    b"\x40\x02\x0A\x02\x02\xFB\xF5\xFB\xF6\x01\x01\xFB\xF7",
    // At two octets: a set and then 23456, which are two hops, and 23456, which is one.
    b"\x40\x02\x0C\x01\x03\xFB\xF5\xFB\xF6\xFB\xF7\x02\x01\x5B\xA0",
    b"\x40\x02\x04\x02\x01\x5B\xA0",
    b"\x40\x02\x00",
    b"\x40\x03\x04\xC0\x00\x02\x01",
    b"\x40\x03\x04\xE0\x00\x00\x01",
    b"\x80\x04\x04\x00\x00\x00\x01",
    b"\x60\x05\x04\x00\x00\x00\x64",
    b"\xC0\x07\x06\x5B\xA0\xC0\x00\x02\x01",
    b"\xC0\x07\x06\xFB\xF5\xC0\x00\x02\x01",
    b"\xE0\x07\x08\x00\x00\xFB\xF5\xC0\x00\x02\x01",
    b"\xC0\x08\x04\xFB\xF5\x00\x64",
    b"\x80\x0E\x18\x00\x02\x01\x10\
        \x20\x01\x0D\xB8\x00\x00\x00\x00\x00\x00\x00\x00\x00\x00\x00\x01\x00\
        \x09\x20\x01",
    // A next hop of two addresses.
    b"\x80\x0E\x27\x00\x02\x01\x20\
        \x20\x01\x0D\xB8\x00\x00\x00\x00\x00\x00\x00\x00\x00\x00\x00\x01\
        \xFE\x80\x00\x00\x00\x00\x00\x00\x00\x00\x00\x00\x00\x00\x00\x01\x00\
        \x08\x20",
    b"\x80\x0E\x05\x00\x01\x01\x00\x00",
    b"\x80\x0F\x05\x00\x02\x01\x08\x20",
    b"\x80\x0F\x04\x00\x02\x01\x81",
    b"\xC0\x11\x06\x02\x01\x00\x01\x86\xA0",
    b"\xC0\x11\x06\x01\x01\x00\x01\x86\xA0",
    // Three hops in a sequence, and one in a set.
    b"\xC0\x11\x0E\x02\x03\x00\x00\xFB\xF5\x00\x00\xFB\xF6\x00\x01\x86\xA0",
    b"\xC0\x11\x0E\x01\x03\x00\x00\xFB\xF5\x00\x00\xFB\xF6\x00\x01\x86\xA0",
    b"\xC0\x11\x00",
    // AS 0 at the end, at four octets and at two, and in AS4_PATH.
    b"\x40\x02\x06\x02\x01\x00\x00\x00\x00",
    b"\x40\x02\x06\x02\x02\xFB\xF5\x00\x00",
    b"\xC0\x11\x06\x02\x01\x00\x00\x00\x00",
    b"\xC0\x12\x08\x00\x01\x86\xA0\xC0\x00\x02\x01",
    b"\xC0\x12\x09\x00\x01\x86\xA0\xC0\x00\x02\x01\x00",
    b"\x40\x63\x00",
    b"\x80\x63\x01\x00",
    // ORIGIN's type and 128.
    b"\xC0\x81\x01\x00",
];

/// Fields of prefixes, good and bad.
const FIELDS: [&[u8]; 4] = [
    b"\x18\xC6\x33\x64",
    b"\x00\x20\xC0\x00\x02\x01",
    b"\x21",
    b"\x21\xC6\x33\x64\x00\x00",
];

/// How many attributes at most come after one another.
const MOST: usize = 7;

/// How many times attributes are drawn.
const DRAWS: usize = 100_000;

/// Attributes drawn out of the pool, half of the time behind an ORIGIN and a NEXT_HOP.
fn drawn(alloc: Global, chance: &mut Chance) -> Result<Vec<u8>, AllocError> {
    let mut field = Vec::new(alloc);
    if chance.place(2) == 0 {
        field.extend_from_slice(b"\x40\x01\x01\x00")?;
        field.extend_from_slice(b"\x40\x03\x04\xC0\x00\x02\x01")?;
    }
    for _ in 0..chance.place(MOST) {
        let attribute = POOL.get(chance.place(POOL.len())).copied();
        field.extend_from_slice(attribute.unwrap_or(&[]))?;
    }
    Ok(field)
}

#[test]
fn attributes_in_any_order_are_read_as_the_format_says(rt: HostRuntime) {
    let alloc = rt.alloc();
    let mut chance = Chance::starting_from(START);
    let mut outcomes = Outcomes::new();
    for _ in 0..DRAWS {
        let attributes = drawn(alloc, &mut chance).expect(&rt, "memory");
        let withdrawn = FIELDS.get(chance.place(20)).copied().unwrap_or(b"");
        let nlri = FIELDS.get(chance.place(8)).copied().unwrap_or(b"");
        let body = laid_out(alloc, withdrawn, attributes.as_slice(), nlri).expect(&rt, "memory");
        compare(&rt, alloc, body.as_slice(), &mut outcomes).expect(&rt, "memory");
    }
    assert!(rt; outcomes.have_all(&SUBCODES[1..]), "{outcomes:?}");
}
