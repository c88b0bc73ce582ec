//! Changes of octets: an octet replaced, taken away or added, the end cut off, two exchanged.
use super::chance::Chance;
use std::alloc::{AllocError, Global};

/// How many changes there are of each octet.
const CHANGES: usize = 12;

/// The octets with each change of each octet, by itself and with a second change somewhere.
pub fn all_changes(
    alloc: Global,
    octets: &[u8],
    chance: &mut Chance,
) -> Result<Vec<Vec<u8>>, AllocError> {
    let mut all = Vec::new(alloc);
    for place in 0..octets.len() {
        put_changes(alloc, octets, place, chance, &mut all)?;
    }
    Ok(all)
}

fn put_changes(
    alloc: Global,
    octets: &[u8],
    place: usize,
    chance: &mut Chance,
    all: &mut Vec<Vec<u8>>,
) -> Result<(), AllocError> {
    for change in 0..CHANGES {
        let once = changed(alloc, octets, place, change, chance)?;
        let second = chance.place(once.len());
        let other = chance.place(CHANGES);
        all.push(changed(alloc, once.as_slice(), second, other, chance)?)?;
        all.push(once)?;
    }
    Ok(())
}

/// The octets with one change at a place.
fn changed(
    alloc: Global,
    octets: &[u8],
    place: usize,
    change: usize,
    chance: &mut Chance,
) -> Result<Vec<u8>, AllocError> {
    let old = octets.get(place).copied().unwrap_or(0);
    let other = chance.place(octets.len());
    match change {
        0 => spliced(alloc, octets, place, &[0], 1),
        1 => spliced(alloc, octets, place, &[1], 1),
        2 => spliced(alloc, octets, place, &[255], 1),
        3 => spliced(alloc, octets, place, &[old.wrapping_add(1)], 1),
        4 => spliced(alloc, octets, place, &[old.wrapping_sub(1)], 1),
        5 => spliced(alloc, octets, place, &[old ^ 1 << (chance.octet() % 8)], 1),
        6 => spliced(alloc, octets, place, &[chance.octet()], 1),
        7 => spliced(alloc, octets, place, &[], octets.len()),
        8 => spliced(alloc, octets, place, &[], 1),
        9 => spliced(alloc, octets, place, &[chance.octet()], 0),
        10 => exchanged(alloc, octets, place, other),
        _ => exchanged(alloc, octets, place, place.wrapping_add(1)),
    }
}

/// The octets with these in the middle, in place of so many from a place on.
fn spliced(
    alloc: Global,
    octets: &[u8],
    place: usize,
    middle: &[u8],
    count: usize,
) -> Result<Vec<u8>, AllocError> {
    let mut all = Vec::new(alloc);
    all.extend_from_slice(octets.get(..place).unwrap_or(octets))?;
    all.extend_from_slice(middle)?;
    let after = place.saturating_add(count);
    all.extend_from_slice(octets.get(after..).unwrap_or(&[]))?;
    Ok(all)
}

/// The octets of two places, each in the place of the other.
fn exchanged(
    alloc: Global,
    octets: &[u8],
    place: usize,
    other: usize,
) -> Result<Vec<u8>, AllocError> {
    let mut all = Vec::new(alloc);
    if other >= octets.len() {
        all.extend_from_slice(octets)?;
        return Ok(all);
    }
    for at in 0..octets.len() {
        let from = match at {
            _ if at == place => other,
            _ if at == other => place,
            _ => at,
        };
        all.push(octets.get(from).copied().unwrap_or(0))?;
    }
    Ok(all)
}
