//! The table of pairs that a run begins with: where the words say that the pairs come from, and the
//! source of the table come in, and the pairs go out, or why there are none.
ghost use Rattle.std.specs.Prelude.{◌≡◌, ◌^◌, ◌<◌, ◌≤◌, Err, IfErr, IfOk, IfSome, length};
ghost use Rattle.urpf_base.specs.Faults.{CountsFault};
ghost use Rattle.roa_irr.specs.Tables.{pairs_max};
ghost use Rattle.urpf_cli.specs.PairTables.{HasTable, HasTooMany, IsPairsRefused, IsTable};
ghost use Rattle.urpf_cli.specs.TextRefusals.{IsTextFailure};
ghost use Rattle.urpf_cli.specs.Words.{nowhere, pairs_from};

use crate::refusals::{TextRefusal, TooManyPairs};
use crate::words::{PairsWord, TableForm};
use roa_irr::{Pairs, PairsFault, read_irr, read_vrps};
use std::alloc::Global;
use urpf_base::{Source, TextFault, read_text};

/// The most octets of a table of pairs.
pub const PAIRS_OCTETS: usize = 134_217_728;

/// Reads the table of pairs out of its source. Nothing is read where the pairs come from nowhere.
pub fn open_pairs<S: Source>(
    alloc: Global,
    word: &PairsWord<'_>,
    source: &mut S,
) -> Result<Option<Pairs>, TextRefusal<TooManyPairs>>
    ensures found { IfOk result (λ pairs. IfSome (S.left source.old)
        (λ text. HasTable (pairs_from word.now) text pairs)) }
    ensures refused { IfErr result (λ r. ¬ (IsTextFailure r) → IfSome (S.left source.old)
        (λ text. IsPairsRefused (pairs_from word.now) text r)) }
    ensures cause { CountsFault (result ≡ Err TextRefusal.ReadFault)
        (S.faults source.old) (S.faults source.new) }
    ensures unread { pairs_from word.now ≡ nowhere → source.new ≡ source.old }
{
    let PairsWord::Table { form, .. } = word else {
        return Ok(None);
    };
    let text = match read_text(alloc, source, PAIRS_OCTETS) {
        Ok(text) => text,
        Err(TextFault::Failed) => return Err(TextRefusal::ReadFault),
        Err(TextFault::TooLong) => return Err(TextRefusal::TooLong),
        Err(TextFault::OutOfMemory) => return Err(TextRefusal::OutOfMemory),
    };
    match read_table(alloc, *form, &text) {
        Ok(pairs) => Ok(Some(pairs)),
        Err(PairsFault::TooMany) => Err(TextRefusal::Bad(TooManyPairs)),
        Err(PairsFault::OutOfMemory) => Err(TextRefusal::OutOfMemory),
    }
}

/// The pairs of a table of this form and of fewer than 2^32 octets. TooMany where it has more than
/// 4,000,000, repeats counted.
fn read_table(alloc: Global, form: TableForm, text: &[u8]) -> Result<Pairs, PairsFault>
    requires { length text.now < 2 ^ 32 }
    ensures found { IfOk result (IsTable form text.now) }
    ensures fits { IfOk result (λ pairs. length pairs.pairs ≤ pairs_max) }
    ensures many { result ≡ Err PairsFault.TooMany → HasTooMany form text.now }
{
    match form {
        TableForm::Vrp => read_vrps(alloc, text),
        TableForm::Irr => read_irr(alloc, text),
    }
}
