//! Printing: an address or a number comes in, and its text goes to the end of a line.
//!
//! IPv4 is four decimal numbers parted by dots. IPv6 is eight groups of four lower-case hexadecimal
//! digits parted by colons, nothing left out (RFC 4291, section 2.2, the first form).
ghost use Rattle.std.specs.Prelude.{◌≡◌, ℕ, ◌+◌, ◌≤◌, ◌<◌, ◌++◌, length, decimal};
ghost use Rattle.std.specs.Char.{digit_char};
ghost use Rattle.ip_text.specs.Texts.{addr_text, dotted, grouped, groups_of, group_at, four_digits};

use urpf_base::{Addr, Line};

/// Appends the text of the address, which takes at most 39 octets.
pub fn put_addr(addr: &Addr, to: &mut Line)
    requires { length to.old + 64 ≤ 8192 }
    ensures text { to.new ≡ to.old ++ addr_text addr.now }
    ensures short { length to.new ≤ length to.old + 39 }
    ensures short_v4 { (n : ℕ) → addr.now ≡ Addr.V4 n → length to.new ≤ length to.old + 15 }
{
    match *addr {
        Addr::V4(number) => put_v4(number, to),
        Addr::V6(number) => put_v6(number, to),
    }
}

/// Appends the number in decimal without leading zeros, at most 20 digits.
pub fn put_number(n: u64, to: &mut Line)
    requires { length to.old + 64 ≤ 8192 }
    ensures text { to.new ≡ to.old ++ decimal n }
    ensures short { length to.new ≤ length to.old + 20 }
{
    put_digits(n, to)
}

/// The digits of a tenth of the number, and then its last digit.
fn put_digits(n: u64, to: &mut Line)
    requires { length to.old + length (decimal n) ≤ 8192 }
    ensures { to.new ≡ to.old ++ decimal n }
{
    if n < 10 {
        to.push(&[b'0' + n as u8]);
        return;
    }
    put_digits(n / 10, to);
    to.push(&[b'0' + (n % 10) as u8]);
}

/// At most 15 octets.
fn put_v4(number: u32, to: &mut Line)
    requires { length to.old + 64 ≤ 8192 }
    ensures text { to.new ≡ to.old ++ dotted number }
    ensures short { length to.new ≤ length to.old + 15 }
{
    let [first, second, third, fourth] = number.to_be_bytes();
    put_octet(first, to);
    to.push(b".");
    put_octet(second, to);
    to.push(b".");
    put_octet(third, to);
    to.push(b".");
    put_octet(fourth, to);
}

/// At most three digits.
fn put_octet(octet: u8, to: &mut Line)
    requires { length to.old + 3 ≤ 8192 }
    ensures text { to.new ≡ to.old ++ decimal octet }
    ensures short { length to.new ≤ length to.old + 3 }
{
    put_digits(octet as u64, to)
}

/// The two halves, parted by a colon.
fn put_v6(number: u128, to: &mut Line)
    requires { length to.old + 64 ≤ 8192 }
    ensures text { to.new ≡ to.old ++ grouped (groups_of number) }
    ensures short { length to.new ≤ length to.old + 39 }
{
    let high = [
        group(number, 7),
        group(number, 6),
        group(number, 5),
        group(number, 4),
    ];
    let low = [
        group(number, 3),
        group(number, 2),
        group(number, 1),
        group(number, 0),
    ];
    put_half(high, to);
    to.push(b":");
    put_half(low, to);
}

/// Four groups, parted by colons: 19 octets.
fn put_half(groups: [u16; 4], to: &mut Line)
    requires { length to.old + 19 ≤ 8192 }
    ensures text { to.new ≡ to.old ++ grouped groups }
    ensures short { length to.new ≡ length to.old + 19 }
{
    let [first, second, third, fourth] = groups;
    put_group(first, to);
    to.push(b":");
    put_group(second, to);
    to.push(b":");
    put_group(third, to);
    to.push(b":");
    put_group(fourth, to);
}

/// Four digits.
fn put_group(group: u16, to: &mut Line)
    requires { length to.old + 4 ≤ 8192 }
    ensures text { to.new ≡ to.old ++ four_digits group }
    ensures short { length to.new ≡ length to.old + 4 }
{
    to.push(&[
        digit((group >> 12) as u8),
        digit(((group >> 8) % 16) as u8),
        digit(((group >> 4) % 16) as u8),
        digit((group % 16) as u8),
    ]);
}

/// The lower-case hexadecimal digit of this value.
fn digit(value: u8) -> u8
    requires { value < 16 }
    ensures { result ≡ digit_char value }
{
    if value < 10 {
        b'0' + value
    } else {
        b'a' + (value - 10)
    }
}

/// The group at this place, counted from the lowest.
fn group(number: u128, place: u32) -> u16
    requires { place < 8 }
    ensures { result ≡ group_at place number }
{
    ((number >> (16 * place)) % 65536) as u16
}
