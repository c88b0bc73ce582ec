//! Cutting a text: octets come in, and the octets of a line or of a part of it go out.
ghost use Rattle.std.specs.Prelude.{◌≡◌, ℕ, ◌+◌, ◌<◌, ◌≤◌, ◌++◌, ◌==◌, length};
ghost use Rattle.std.specs.List.{before_first, position_or_len};
ghost use Rattle.runbook.specs.Lines.{counted, lines_of, numbered_from, one_numbered, opens_comment, without_return};
ghost use Rattle.runbook.specs.Lines.{words_of};

/// The first line without its end, and what follows it. Nothing follows a line that no LF ends.
pub(crate) fn first_line(text: &[u8]) -> (&[u8], &[u8])
    requires { 0 < length text.now }
    ensures parts { (number : ℕ) (rounds : ℕ) → numbered_from number rounds (lines_of text.now)
        ≡ one_numbered number rounds (words_of result.0.now)
        ++ numbered_from (number + 1) (counted rounds (words_of result.0.now)) (lines_of result.1.now) }
    ensures shorter { length result.1.now < length text.now }
{
    let (line, after) = text.split_at(place_of(text, b'\n'));
    if after.is_empty() {
        return (line, after);
    }
    let (_, after) = after.split_at(1);
    (cut_return(line), after)
}

/// The line without a CR at its end.
fn cut_return(line: &[u8]) -> &[u8]
    ensures { result.now ≡ without_return line.now }
{
    if line.is_empty() {
        return line;
    }
    let last = line.len() - 1;
    if line[last] != b'\r' {
        return line;
    }
    &line[..last]
}

/// What stands before the first `#`.
pub(crate) fn cut_comment(line: &[u8]) -> &[u8]
    ensures { result.now ≡ before_first opens_comment line.now }
{
    let (front, _) = line.split_at(place_of(line, b'#'));
    front
}

/// How many octets stand before the first mark: all of them where there is no mark.
fn place_of(text: &[u8], mark: u8) -> usize
    ensures value { result ≡ position_or_len (λ octet. octet == mark) text.now }
    ensures within { result ≤ length text.now }
{
    text.iter().take_while(|octet| **octet != mark).count()
}
