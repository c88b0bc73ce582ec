//! The lines of a check: an address, whether it passes and some numbers come in, and the line that
//! tells them goes out.
//!
//! `check ADDR V messages M prefixes P rest R` or `check I ADDR V N` with a line feed, where V is
//! `pass`, `drop`, `badhead` or `noif`.
ghost use Rattle.std.specs.Prelude.{◌≡◌, ◌+◌, ◌≤◌, [], ◌++◌, length};
ghost use Rattle.report_text.specs.Lines.{check_line, check_one_line, verdict_of, verdict_text};

use crate::fields::put_field;
use ip_text::put_addr;
use urpf_base::{Addr, IfaceId, Line, Verdict};

/// The one line of a check against a single session: its messages, its prefixes, and how many
/// octets came after the last whole message.
pub fn put_one(addr: &Addr, pass: bool, messages: u64, prefixes: u64, rest: u64, to: &mut Line)
    requires { to.old ≡ [] }
    ensures { to.new ≡ check_one_line addr.now pass messages prefixes rest }
{
    to.push(b"check ");
    put_addr(addr, to);
    to.push(b" ");
    put_verdict(verdict_of(pass), to);
    put_field(b" messages ", messages, to);
    put_field(b" prefixes ", prefixes, to);
    put_field(b" rest ", rest, to);
    to.push(b"\n");
}

/// The line of a check of a source on an interface against the publication of a number.
pub fn put_check(iface: IfaceId, addr: &Addr, verdict: Verdict, number: u64, to: &mut Line)
    requires { to.old ≡ [] }
    ensures { to.new ≡ check_line iface addr.now verdict number }
{
    put_field(b"check ", u64::from(iface.number()), to);
    to.push(b" ");
    put_addr(addr, to);
    to.push(b" ");
    put_verdict(verdict, to);
    put_field(b" ", number, to);
    to.push(b"\n");
}

/// What the verdict is called.
pub(crate) fn put_verdict(verdict: Verdict, to: &mut Line)
    requires { length to.old + 7 ≤ 8192 }
    ensures text { to.new ≡ to.old ++ verdict_text verdict }
    ensures short { length to.new ≤ length to.old + 7 }
{
    match verdict {
        Verdict::Pass => to.push(b"pass"),
        Verdict::Drop => to.push(b"drop"),
        Verdict::BadHead => to.push(b"badhead"),
        Verdict::NoIface => to.push(b"noif"),
    }
}

/// The verdict on a source that passes or does not.
fn verdict_of(pass: bool) -> Verdict
    ensures { result ≡ verdict_of pass }
{
    if pass { Verdict::Pass } else { Verdict::Drop }
}
