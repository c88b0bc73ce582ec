//! Octets, read plainly: a first part, and the number that octets write.

/// So many first octets, and those after them. None where there are fewer.
pub fn parted(octets: &[u8], count: usize) -> Option<(&[u8], &[u8])> {
    let Some(front) = octets.get(..count) else {
        return None;
    };
    let Some(rest) = octets.get(count..) else {
        return None;
    };
    Some((front, rest))
}

/// The number of these octets, the highest first.
pub fn number(octets: &[u8]) -> u64 {
    let mut number: u64 = 0;
    for octet in octets {
        number = number.wrapping_mul(256).wrapping_add(*octet as u64);
    }
    number
}

/// A field behind its length, which takes so many octets, and what comes after the field. None
/// where the octets end before it does.
pub fn counted(octets: &[u8], size: usize) -> Option<(&[u8], &[u8])> {
    let Some((length, rest)) = parted(octets, size) else {
        return None;
    };
    parted(rest, number(length) as usize)
}
