//! The groups of an IPv6 address: octets come in, and the number that the groups write goes out.
//!
//! A group is one to four hexadecimal digits of either case. Groups are parted by colons, and one
//! `::` stands for one or more groups of zeros (RFC 4291, section 2.2). There is no dotted form in
//! the last two groups: our own choice.
ghost use Rattle.std.specs.Prelude.{◌≡◌, ℕ, ◌+◌, ◌-◌, ◌*◌, ◌^◌, ◌<◌, ◌≤◌, ◌↔◌};
ghost use Rattle.std.specs.Prelude.{IsTrue, Some, List, [], ◌∷◌, length};
ghost use Rattle.std.specs.Option.{IfSome, IsSomeAnd, SomeIff};
ghost use Rattle.ip_text.specs.Groups.{IsGroup};
ghost use Rattle.ip_text.specs.Sides.{IsSide, SideIs, Opens, IsEndOrGap};
ghost use Rattle.ip_text.specs.Texts.{IsV6};

use crate::cutting::cut;
use crate::numbers::value_of;

/// The most digits of a group.
const GROUP_DIGITS: usize = 4;

/// The groups of an address.
const GROUPS: u32 = 8;

/// What was read up to the end of a text or a `::` in it.
#[derive(Clone, Copy)]
struct Side<'a> {
    /// How many groups there are so far, at most 8.
    count: u32,
    /// The number that they write.
    value: u128,
    /// Empty, or what begins with the `::`.
    rest: &'a [u8],
}

/// The number of the address that the whole text spells. None where it spells none.
pub(crate) fn read_v6(text: &[u8]) -> Option<u128>
    ensures found { IfSome result (IsV6 text.now) }
    ensures only { (n : ℕ) → IsV6 text.now n → result ≡ Some n }
{
    let Some(left) = read_side(text) else {
        return None;
    };
    let Some(after) = after_gap(left.rest) else {
        return whole(left.count, left.value, left.rest);
    };
    let Some(right) = read_side(after) else {
        return None;
    };
    joined(left.count, left.value, right.count, right.value, right.rest)
}

/// The number, where there are eight groups and nothing is left.
fn whole(count: u32, value: u128, rest: &[u8]) -> Option<u128>
    ensures { SomeIff result ((count ≡ 8) × (rest.now ≡ [])) value }
{
    if count != GROUPS {
        return None;
    }
    if !rest.is_empty() {
        return None;
    }
    Some(value)
}

/// The number of both sides with zeros between them, where a group of zeros is missing at least and
/// nothing is left.
fn joined(count: u32, high: u128, others: u32, low: u128, rest: &[u8]) -> Option<u128>
    requires high_fits { high < 2 ^ (16 * count) }
    requires low_fits { low < 2 ^ (16 * others) }
    requires few { others ≤ 8 }
    ensures { SomeIff result ((count + others ≤ 7) × (rest.now ≡ []))
        (high * 2 ^ (16 * (8 - count)) + low) }
{
    if count >= GROUPS {
        return None;
    }
    if others >= GROUPS - count {
        return None;
    }
    if !rest.is_empty() {
        return None;
    }
    Some(raised(count, high) + low)
}

/// The number with zeros behind its groups, up to eight.
fn raised(count: u32, value: u128) -> u128
    requires fits { value < 2 ^ (16 * count) }
    requires few { count ≤ 7 }
    ensures { result ≡ value * 2 ^ (16 * (8 - count)) }
{
    if count == 0 {
        return 0;
    }
    value << (16 * (GROUPS - count))
}

/// What follows the `::` in front.
fn after_gap(text: &[u8]) -> Option<&[u8]>
    ensures found { IfSome result (λ r. text.now ≡ 58 ∷ 58 ∷ r.now) }
    ensures only { (after : List ℕ) → text.now ≡ 58 ∷ 58 ∷ after
        → IsSomeAnd result (λ r. r.now ≡ after) }
{
    match text {
        [b':', b':', after @ ..] => Some(after),
        _ => None,
    }
}

/// The groups up to the end or the first `::`, of which there may be none.
fn read_side(text: &[u8]) -> Option<Side<'_>>
    ensures found { IfSome result (λ s. IsSide 0 0 text.now s.count s.value s.rest.now) }
    ensures fits { IfSome result (λ s. s.value < 2 ^ (16 * s.count)) }
    ensures few { IfSome result (λ s. s.count ≤ 8) }
    ensures only { (groups rest : List ℕ) → length groups ≤ 8 → Opens text.now groups rest
        → IsSomeAnd result (λ s. SideIs 0 0 groups s.count s.value rest s.rest.now) }
{
    if is_end_or_gap(text) {
        return Some(Side {
            count: 0,
            value: 0,
            rest: text,
        });
    }
    read_on(text, 0, 0)
}

/// One group or more, up to the end or the first `::`, behind so many others.
fn read_on(text: &[u8], count: u32, value: u128) -> Option<Side<'_>>
    requires room { count < 8 }
    requires small { value < 2 ^ (16 * count) }
    ensures found { IfSome result (λ s. IsSide count value text.now s.count s.value s.rest.now) }
    ensures fits { IfSome result (λ s. s.value < 2 ^ (16 * s.count)) }
    ensures few { IfSome result (λ s. s.count ≤ 8) }
    ensures more { IfSome result (λ s. count < s.count) }
    ensures only { (groups rest : List ℕ) → 0 < length groups → count + length groups ≤ 8
        → Opens text.now groups rest
        → IsSomeAnd result (λ s. SideIs count value groups s.count s.value rest s.rest.now) }
{
    let Some((front, more)) = cut(text, b':') else {
        let Some(group) = read_group(text) else {
            return None;
        };
        return Some(Side {
            count: count + 1,
            value: with_group(count, value, group),
            rest: &[],
        });
    };
    let Some(group) = read_group(front) else {
        return None;
    };
    let value = with_group(count, value, group);
    if begins_with_colon(more) {
        return Some(Side {
            count: count + 1,
            value,
            rest: &text[front.len()..],
        });
    }
    if count + 1 == GROUPS {
        return None;
    }
    read_on(more, count + 1, value)
}

/// The number with one more group behind it.
fn with_group(count: u32, value: u128, group: u16) -> u128
    requires room { count < 8 }
    requires small { value < 2 ^ (16 * count) }
    ensures value { result ≡ value * 65536 + group }
    ensures fits { result < 2 ^ (16 * (count + 1)) }
{
    value * 65536 + group as u128
}

/// The group that the whole text writes.
fn read_group(text: &[u8]) -> Option<u16>
    ensures found { IfSome result (IsGroup text.now) }
    ensures only { (g : ℕ) → IsGroup text.now g → result ≡ Some g }
{
    if text.is_empty() {
        return None;
    }
    if text.len() > GROUP_DIGITS {
        return None;
    }
    let Some(value) = value_of(text, 16, 0xffff) else {
        return None;
    };
    Some(value as u16)
}

fn begins_with_colon(text: &[u8]) -> bool
    ensures { IsTrue result ↔ ((rest : List ℕ) × (text.now ≡ 58 ∷ rest)) }
{
    match text {
        [b':', ..] => true,
        _ => false,
    }
}

fn is_end_or_gap(text: &[u8]) -> bool
    ensures { IsTrue result ↔ IsEndOrGap text.now }
{
    match text {
        [] => true,
        [b':', b':', ..] => true,
        _ => false,
    }
}
