//! What the words of a line say: words come in, and what they ask for goes out, by numbers that are
//! not yet looked up.
//!
//! ```text
//! pull S N         pull S all      pull * N        pull * all
//! publish          round           summary
//! check I ADDR     role I ROLE     mode I MODE
//! pair add PREFIX ASN              pair del PREFIX ASN
//! ```
ghost use Rattle.std.specs.Prelude.{◌≡◌, ℕ, ◌∷◌, List, Option, Some, codes};
ghost use Rattle.std.specs.Option.{IfSome};
ghost use Rattle.urpf_base.specs.Address.{Block};
ghost use Rattle.urpf_base.specs.declared.address.Addr.{Addr};
ghost use Rattle.urpf_base.specs.declared.kinds.Mode.{Mode};
ghost use Rattle.urpf_base.specs.declared.kinds.Role.{Role};
ghost use Rattle.runbook.specs.declared.saying.Act.{Act};
ghost use Rattle.runbook.specs.declared.saying.Alone.{Alone};
ghost use Rattle.runbook.specs.declared.saying.PairAct.{PairAct};
ghost use Rattle.runbook.specs.declared.saying.Said.{Said};
ghost use Rattle.runbook.specs.Lines.{words_in};
ghost use Rattle.runbook.specs.Says.{NamesCount, NamesSession, Says, SpellsAct, act_word, alone_word};
ghost use Rattle.runbook.specs.Says.{pair_word};

use crate::words::{has_words, three_words, two_words};
use ip_text::{read_addr, read_asn, read_number, read_prefix};
use router_config::{read_mode, read_role};
use urpf_base::{Addr, Mode, Prefix, Role};

/// The greatest number of a session or an interface.
const NUMBER_MAX: u32 = 65_535;

/// The greatest number of items that one line pulls.
const COUNT_MAX: u32 = 1_000_000_000;

/// What a line says.
#[derive(Clone, Copy)]
pub(crate) enum Said {
    /// So many items, or all of them, of one session, or of each.
    Pull {
        session: Option<u32>,
        count: Option<u64>,
    },
    /// A line of one word.
    Alone(Alone),
    /// This is done on this interface.
    At {
        iface: u32,
        act: Act,
    },
    /// This is done with the pair of this prefix and this AS.
    Pair {
        act: PairAct,
        prefix: Prefix,
        asn: u32,
    },
}

/// What a line of one word says.
#[derive(Clone, Copy)]
pub(crate) enum Alone {
    Publish,
    Round,
    Summary,
}

/// What is done on an interface.
#[derive(Clone, Copy)]
pub(crate) enum Act {
    Check(Addr),
    Role(Role),
    Mode(Mode),
}

/// What is done with a pair.
#[derive(Clone, Copy)]
pub(crate) enum PairAct {
    Add,
    Del,
}

/// What the words say, of which the rest of the line has those after the first. None where they say
/// nothing.
pub(crate) fn read_words(first: &[u8], rest: &[u8]) -> Option<Said>
    ensures found { IfSome result (Says (first.now ∷ words_in rest.now)) }
    ensures only { (s : Said) → Says (first.now ∷ words_in rest.now) s → result ≡ Some s }
{
    if first == b"pull".as_slice() {
        return read_pull(rest);
    }
    if first == b"pair".as_slice() {
        return read_pair(rest);
    }
    match read_alone(first) {
        Some(one) => read_end(one, rest),
        None => read_at(first, rest),
    }
}

fn read_pull(rest: &[u8]) -> Option<Said>
    ensures found { IfSome result (Says (codes "pull" ∷ words_in rest.now)) }
    ensures only { (session : Option ℕ) (count : Option ℕ)
        → Says (codes "pull" ∷ words_in rest.now) (Said.Pull session count)
        → result ≡ Some (Said.Pull session count) }
{
    let Some((session, count)) = two_words(rest) else {
        return None;
    };
    let Some(session) = read_session(session) else {
        return None;
    };
    let Some(count) = read_count(count) else {
        return None;
    };
    Some(Said::Pull { session, count })
}

/// The session that the word names, with no number for all of them. None where it names none.
fn read_session(word: &[u8]) -> Option<Option<u32>>
    ensures found { IfSome result (NamesSession word.now) }
    ensures only { (session : Option ℕ) → NamesSession word.now session → result ≡ Some session }
{
    if word == b"*".as_slice() {
        return Some(None);
    }
    match read_number(word, NUMBER_MAX) {
        Some(number) => Some(Some(number)),
        None => None,
    }
}

/// The number of items that the word names, with no number for all of them. None where it names none.
fn read_count(word: &[u8]) -> Option<Option<u64>>
    ensures found { IfSome result (NamesCount word.now) }
    ensures only { (count : Option ℕ) → NamesCount word.now count → result ≡ Some count }
{
    if word == b"all".as_slice() {
        return Some(None);
    }
    match read_number(word, COUNT_MAX) {
        Some(number) => Some(Some(number as u64)),
        None => None,
    }
}

fn read_pair(rest: &[u8]) -> Option<Said>
    ensures found { IfSome result (Says (codes "pair" ∷ words_in rest.now)) }
    ensures only { (act : PairAct) (prefix : Block) (asn : ℕ)
        → Says (codes "pair" ∷ words_in rest.now) (Said.Pair act prefix asn)
        → result ≡ Some (Said.Pair act prefix asn) }
{
    let Some((act, prefix, asn)) = three_words(rest) else {
        return None;
    };
    let Some(act) = read_pair_act(act) else {
        return None;
    };
    let Some(prefix) = read_prefix(prefix) else {
        return None;
    };
    let Some(asn) = read_asn(asn) else {
        return None;
    };
    Some(Said::Pair { act, prefix, asn })
}

/// What is done with a pair, by the second word.
fn read_pair_act(word: &[u8]) -> Option<PairAct>
    ensures found { IfSome result (λ act. word.now ≡ pair_word act) }
    ensures only { (act : PairAct) → word.now ≡ pair_word act → result ≡ Some act }
{
    if word == b"add".as_slice() {
        return Some(PairAct::Add);
    }
    if word == b"del".as_slice() {
        return Some(PairAct::Del);
    }
    None
}

/// What the word says alone. None where it says nothing.
fn read_alone(word: &[u8]) -> Option<Alone>
    ensures found { IfSome result (λ one. word.now ≡ alone_word one) }
    ensures only { (one : Alone) → word.now ≡ alone_word one → result ≡ Some one }
{
    if word == b"publish".as_slice() {
        return Some(Alone::Publish);
    }
    if word == b"round".as_slice() {
        return Some(Alone::Round);
    }
    if word == b"summary".as_slice() {
        return Some(Alone::Summary);
    }
    None
}

/// The line of one word, behind which nothing may stand.
fn read_end(one: Alone, rest: &[u8]) -> Option<Said>
    ensures found { IfSome result (Says (alone_word one ∷ words_in rest.now)) }
    ensures only { Says (alone_word one ∷ words_in rest.now) (Said.Alone one)
        → result ≡ Some (Said.Alone one) }
{
    if has_words(rest) {
        return None;
    }
    Some(Said::Alone(one))
}

fn read_at(first: &[u8], rest: &[u8]) -> Option<Said>
    ensures found { IfSome result (Says (first.now ∷ words_in rest.now)) }
    ensures only { (iface : ℕ) (act : Act) → Says (first.now ∷ words_in rest.now) (Said.At iface act)
        → result ≡ Some (Said.At iface act) }
{
    let Some((iface, last)) = two_words(rest) else {
        return None;
    };
    let Some(iface) = read_number(iface, NUMBER_MAX) else {
        return None;
    };
    let Some(act) = read_act(first, last) else {
        return None;
    };
    Some(Said::At { iface, act })
}

/// What is done on an interface, by the first word and the last.
fn read_act(first: &[u8], last: &[u8]) -> Option<Act>
    ensures found { IfSome result (λ act. (first.now ≡ act_word act) × SpellsAct last.now act) }
    ensures only { (act : Act) → first.now ≡ act_word act → SpellsAct last.now act → result ≡ Some act }
{
    if first == b"check".as_slice() {
        return read_check(last);
    }
    if first == b"role".as_slice() {
        return read_role_act(last);
    }
    if first == b"mode".as_slice() {
        return read_mode_act(last);
    }
    None
}

fn read_check(last: &[u8]) -> Option<Act>
    ensures found { IfSome result (λ act. (codes "check" ≡ act_word act) × SpellsAct last.now act) }
    ensures only { (addr : Addr) → SpellsAct last.now (Act.Check addr) → result ≡ Some (Act.Check addr) }
{
    match read_addr(last) {
        Some(addr) => Some(Act::Check(addr)),
        None => None,
    }
}

fn read_role_act(last: &[u8]) -> Option<Act>
    ensures found { IfSome result (λ act. (codes "role" ≡ act_word act) × SpellsAct last.now act) }
    ensures only { (role : Role) → SpellsAct last.now (Act.Role role) → result ≡ Some (Act.Role role) }
{
    match read_role(last) {
        Some(role) => Some(Act::Role(role)),
        None => None,
    }
}

fn read_mode_act(last: &[u8]) -> Option<Act>
    ensures found { IfSome result (λ act. (codes "mode" ≡ act_word act) × SpellsAct last.now act) }
    ensures only { (mode : Mode) → SpellsAct last.now (Act.Mode mode) → result ≡ Some (Act.Mode mode) }
{
    match read_mode(last) {
        Some(mode) => Some(Act::Mode(mode)),
        None => None,
    }
}
