//! Reading an IRR text: the octets of routing policy objects come in, and the pairs of their routes
//! go out.
//!
//! Empty lines part objects. An object is attributes, each a name, a colon and a value (RFC 2622,
//! section 2), and its first attribute's name is its class. A `route` object (RFC 2622, section 4)
//! gives a pair where its first value is a prefix of IPv4 and the value of its first `origin` an AS
//! number, and a `route6` object (RFC 4012, section 3) where it is a prefix of IPv6. One of these
//! classes that gives no pair is skipped and counted. Objects of other classes are ignored.
ghost use Rattle.std.specs.Prelude.{◌≡◌, ◌⊎◌, ◌^◌, ◌<◌, ◌≤◌, IfOk, length, Ok, Err};
ghost use Rattle.roa_irr.specs.Irr.{IsIrrTable, OpensPair, OpensTooManyObjects};
ghost use Rattle.roa_irr.specs.Tables.{Table, pairs_max};

use crate::objects::read_object;
use crate::pairs::{Pairs, PairsFault};
use std::alloc::Global;

/// The pairs of an IRR text of fewer than 2^32 octets. TooMany where it has more than 4,000,000,
/// repeats counted.
pub fn read_irr(alloc: Global, text: &[u8]) -> Result<Pairs, PairsFault>
    requires { length text.now < 2 ^ 32 }
    ensures found { IfOk result (IsIrrTable text.now) }
    ensures fits { IfOk result (λ table. length table.pairs ≤ pairs_max) }
    ensures only { (table : Table) → IsIrrTable text.now table → length table.pairs ≤ pairs_max
        → (result ≡ Ok table) ⊎ (result ≡ Err PairsFault.OutOfMemory) }
    ensures many { result ≡ Err PairsFault.TooMany → OpensTooManyObjects text.now }
    ensures too_many { (table : Table) → IsIrrTable text.now table → pairs_max < length table.pairs
        → (result ≡ Err PairsFault.TooMany) ⊎ (result ≡ Err PairsFault.OutOfMemory) }
    // Memory can run out only for a pair.
    ensures memory { result ≡ Err PairsFault.OutOfMemory → OpensPair text.now }
{
    let mut pairs = Pairs::new(alloc);
    let mut left = Some(text);
    'objects: while let Some(rest) = left {
        let (outcome, more) = read_object(rest);
        pairs.add(outcome)?;
        left = more;
    }
    Ok(pairs)
}
