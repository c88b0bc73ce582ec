//! A field of a line: a word and a number come in, and both go to the end of the line.
ghost use Rattle.std.specs.Prelude.{◌≡◌, ◌+◌, ◌≤◌, ◌++◌, length, decimal};

use ip_text::put_number;
use urpf_base::Line;

/// The most octets of a word, with its spaces.
pub(crate) const WORD_OCTETS: usize = 32;

/// Appends the word, which brings its own spaces, and the number.
pub(crate) fn put_field(word: &[u8], number: u64, to: &mut Line)
    requires word_fits { length word.now ≤ WORD_OCTETS }
    requires room { length to.old + 96 ≤ 8192 }
    ensures text { to.new ≡ to.old ++ word.now ++ decimal number }
    ensures short { length to.new ≤ length to.old + 52 }
{
    to.push(word);
    put_number(number, to);
}
