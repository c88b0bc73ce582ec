//! The lines of a text of routing policy objects: octets come in, and the first line and what it is
//! go out.
ghost use Rattle.std.specs.Prelude.{◌≡◌, ◌<◌, ◌==◌, ◌∷◌, length, position};
ghost use Rattle.roa_irr.specs.Lines.{is_blank, lines_of, opens_remark, plain, without_return};
ghost use Rattle.roa_irr.specs.Lines.{trimmed, trimmed_end, trimmed_front};
ghost use Rattle.roa_irr.specs.Objects.{opens_continued};
ghost use Rattle.roa_irr.specs.Steps.{IsLine};

/// What a line is.
#[derive(Clone, Copy)]
pub enum Line<'a> {
    /// It has no octet, and ends an object.
    Empty,
    /// It is passed over.
    Passed,
    /// It continues the value before it by this part.
    Continued(&'a [u8]),
    /// An attribute begins: its name, and the first part of its value.
    Begins(&'a [u8], &'a [u8]),
}

/// The first line, without its line feed and a carriage return before it, and what stands behind
/// it.
pub(crate) fn first_line(text: &[u8]) -> (&[u8], &[u8])
    requires { 0 < length text.now }
    ensures lines { lines_of text.now ≡ result.0.now ∷ lines_of result.1.now }
    ensures shorter { length result.1.now < length text.now }
{
    let Some(place) = place_of(text, b'\n') else {
        return (text, &[]);
    };
    (without_return(&text[..place]), &text[place + 1..])
}

/// The line without a carriage return at its end.
fn without_return(line: &[u8]) -> &[u8]
    ensures { result.now ≡ without_return line.now }
{
    match line {
        [front @ .., b'\r'] => front,
        _ => line,
    }
}

/// What the line is.
pub(crate) fn kind_of(line: &[u8]) -> Line<'_>
    ensures { IsLine line.now result }
{
    let [first, part @ ..] = line else {
        return Line::Empty;
    };
    if opens_remark(*first) {
        return Line::Passed;
    }
    if opens_continued(*first) {
        return Line::Continued(plain(part));
    }
    let Some(colon) = place_of(line, b':') else {
        return Line::Passed;
    };
    Line::Begins(&line[..colon], plain(&line[colon + 1..]))
}

fn opens_remark(octet: u8) -> bool
    ensures { result ≡ opens_remark octet }
{
    octet == b'#' || octet == b'%'
}

fn opens_continued(octet: u8) -> bool
    ensures { result ≡ opens_continued octet }
{
    is_blank(octet) || octet == b'+'
}

fn is_blank(octet: u8) -> bool
    ensures { result ≡ is_blank octet }
{
    octet == b' ' || octet == b'\t'
}

/// What stands before a comment.
fn plain(part: &[u8]) -> &[u8]
    ensures { result.now ≡ plain part.now }
{
    let Some(place) = place_of(part, b'#') else {
        return part;
    };
    &part[..place]
}

/// The text without blanks around it.
pub(crate) fn trimmed(text: &[u8]) -> &[u8]
    ensures { result.now ≡ trimmed text.now }
{
    trimmed_end(trimmed_front(text))
}

fn trimmed_front(text: &[u8]) -> &[u8]
    ensures { result.now ≡ trimmed_front text.now }
{
    let mut left = text;
    'octets: while let [first, rest @ ..] = left {
        if !is_blank(*first) {
            return left;
        }
        left = rest;
    }
    left
}

fn trimmed_end(text: &[u8]) -> &[u8]
    ensures { result.now ≡ trimmed_end text.now }
{
    let mut left = text;
    'octets: while let [rest @ .., last] = left {
        if !is_blank(*last) {
            return left;
        }
        left = rest;
    }
    left
}

/// Where the first octet like this one stands.
fn place_of(text: &[u8], mark: u8) -> Option<usize>
    ensures { result ≡ position (λ b. b == mark) text.now }
{
    text.iter().position(|octet| *octet == mark)
}
