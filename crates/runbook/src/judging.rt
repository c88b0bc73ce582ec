//! Judging a line: what its words say comes in, and the line goes out, or why it is refused, by what
//! is configured.
ghost use Rattle.std.specs.Prelude.{◌≡◌, length};
ghost use Rattle.router_config.specs.Kinds.{iface_in};
ghost use Rattle.runbook.specs.declared.saying.Alone.{Alone};
ghost use Rattle.runbook.specs.Says.{judged, judged_alone, judged_at, judged_pull, line_at, pair_edit};

use crate::lines::{BookKind, BookLine};
use crate::saying::{Act, Alone, PairAct, Said};
use router_config::{Config, Edit};
use urpf_base::{IfaceId, Prefix};

/// The most rounds of a runbook. Our own choice.
const ROUNDS_MAX: u32 = 65_535;

/// What becomes of a line, where so many rounds are ended before it.
pub(crate) fn judge(config: &Config, rounds: u32, said: Said) -> Result<BookLine, BookKind>
    ensures { result ≡ judged config.now rounds said }
{
    match said {
        Said::Pull { session, count } => judge_pull(config, session, count),
        Said::Alone(one) => judge_alone(rounds, one),
        Said::At { iface, act } => judge_at(config, iface, act),
        Said::Pair { act, prefix, asn } => Ok(BookLine::Change(pair_edit(act, &prefix, asn))),
    }
}

fn judge_pull(
    config: &Config,
    session: Option<u32>,
    count: Option<u64>,
) -> Result<BookLine, BookKind>
    ensures { result ≡ judged_pull (length config.now.sessions) session count }
{
    if let Some(number) = session {
        if number as usize >= config.sessions() {
            return Err(BookKind::Session);
        }
    }
    Ok(BookLine::Pull { session, count })
}

fn judge_alone(rounds: u32, one: Alone) -> Result<BookLine, BookKind>
    ensures { result ≡ judged_alone rounds one }
{
    match one {
        Alone::Publish => Ok(BookLine::Publish),
        Alone::Round => judge_round(rounds),
        Alone::Summary => Ok(BookLine::Summary),
    }
}

fn judge_round(rounds: u32) -> Result<BookLine, BookKind>
    ensures { result ≡ judged_alone rounds Alone.Round }
{
    if rounds >= ROUNDS_MAX {
        return Err(BookKind::Rounds);
    }
    Ok(BookLine::Round)
}

fn judge_at(config: &Config, iface: u32, act: Act) -> Result<BookLine, BookKind>
    ensures { result ≡ judged_at (iface_in config.now.interfaces iface) act }
{
    let Some(iface) = config.iface(iface) else {
        return Err(BookKind::Iface);
    };
    Ok(line_at(iface, act))
}

/// The line on a configured interface.
fn line_at(iface: IfaceId, act: Act) -> BookLine
    ensures { result ≡ line_at iface act }
{
    match act {
        Act::Check(addr) => BookLine::Check { iface, addr },
        Act::Role(role) => BookLine::Change(Edit::Role(iface, role)),
        Act::Mode(mode) => BookLine::Change(Edit::Mode(iface, mode)),
    }
}

/// The edit of a pair.
fn pair_edit(act: PairAct, prefix: &Prefix, asn: u32) -> Edit
    ensures { result ≡ pair_edit act prefix.now asn }
{
    match act {
        PairAct::Add => Edit::PairAdd(*prefix, asn),
        PairAct::Del => Edit::PairDel(*prefix, asn),
    }
}
