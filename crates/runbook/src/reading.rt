//! Reading a line: its octets come in, and what becomes of it goes out.
ghost use Rattle.std.specs.Prelude.{◌≡◌, ◌∷◌, [], Result, Ok, None};
ghost use Rattle.std.specs.Option.{IfNone, IfSome, IsSomeAnd};
ghost use Rattle.runbook.specs.declared.lines.BookLine.{BookLine};
ghost use Rattle.runbook.specs.declared.lines.BookKind.{BookKind};
ghost use Rattle.runbook.specs.Lines.{words_in, words_of};
ghost use Rattle.runbook.specs.Says.{IsJudged};

use crate::cutting::cut_comment;
use crate::judging::judge;
use crate::lines::{BookKind, BookLine};
use crate::saying::read_words;
use crate::words::next_word;
use router_config::Config;

/// What becomes of a line, where so many rounds are ended before it. None where it has no words.
pub(crate) fn read_line(
    config: &Config,
    rounds: u32,
    line: &[u8],
) -> Option<Result<BookLine, BookKind>>
    ensures none { IfNone result (words_of line.now ≡ []) }
    ensures some { IfSome result (λ r. ¬ (words_of line.now ≡ [])) }
    ensures found { IfSome result (IsJudged config.now rounds (words_of line.now)) }
    ensures only { IfSome result (λ r. (s : Result BookLine BookKind)
        → IsJudged config.now rounds (words_of line.now) s → r ≡ s) }
{
    let Some((first, rest)) = next_word(cut_comment(line)) else {
        return None;
    };
    Some(judge_words(config, rounds, first, rest))
}

/// What becomes of a line of words: the first, and those in the rest of the line.
fn judge_words(
    config: &Config,
    rounds: u32,
    first: &[u8],
    rest: &[u8],
) -> Result<BookLine, BookKind>
    ensures found { IsJudged config.now rounds (first.now ∷ words_in rest.now) result }
    ensures only { (r : Result BookLine BookKind)
        → IsJudged config.now rounds (first.now ∷ words_in rest.now) r → result ≡ r }
{
    let Some(said) = read_words(first, rest) else {
        return Err(BookKind::Syntax);
    };
    judge(config, rounds, said)
}
