//! What is measured, as the words of the command say.
ghost use Rattle.std.specs.Prelude.{◌≤◌, IfSome};

use ip_text::read_number;

/// How many rows or routes, on how many interfaces, of how many origins, and in which order.
#[derive(Clone, Copy)]
pub struct Sizes {
    pub count: u32,
    pub ifaces: u16,
    pub origins: u32,
    pub ascending: bool,
}

impl Sizes {
    /// The sizes that these words say: from 1 to 16,000,000, from 1 to 64, from 1 to 4,000,000, and
    /// `ascending` or `none`. None where they say none.
    pub fn read(words: &[String]) -> Option<Sizes>
        ensures { IfSome result (λ sizes. (1 ≤ sizes.count) × (sizes.count ≤ 16000000)) }
    {
        if words.len() != 4 {
            return None;
        }
        let count = read_number(words[0].as_bytes(), 16_000_000)?;
        let ifaces = read_number(words[1].as_bytes(), 64)?;
        let origins = read_number(words[2].as_bytes(), 4_000_000)?;
        let ascending = words[3].as_str() == "ascending";
        if count == 0 || ifaces == 0 || origins == 0 {
            return None;
        }
        if !ascending && words[3].as_str() != "none" {
            return None;
        }
        Some(Sizes {
            count,
            ifaces: ifaces as u16,
            origins,
            ascending,
        })
    }
}
