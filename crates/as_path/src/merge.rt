//! The path of a route from a peer of two-octet AS numbers, put together out of AS_PATH and
//! AS4_PATH (RFC 6793, section 4.2.3), and the origin of that path (RFC 6811, section 2).
ghost use Rattle.std.specs.Prelude.{◌≡◌, nat_lt, length, option_copied};
ghost use Rattle.as_path.specs.Hops.{hops, merged, origin, is_aggregated_anew};

use crate::paths::PathView;

/// What stands in AS_PATH and in AGGREGATOR in place of an AS number that does not fit two octets:
/// AS_TRANS (RFC 6793, section 9).
const AS_TRANS: u32 = 23456;

/// The AS numbers of AGGREGATOR and AS4_AGGREGATOR, none where the attribute is not there.
#[derive(Clone, Copy, Debug, PartialEq, Eq)]
pub struct Aggregators {
    pub own: Option<u32>,
    pub four: Option<u32>,
}

/// The origin of a route: the AS number that its path ends in. None where the path is empty or ends
/// in a set or in AS 0.
///
/// `as4` is none from a peer of four-octet AS numbers, where AS4_PATH is discarded, and where
/// AS4_PATH is not there or malformed.
pub fn origin_of(path: &PathView, as4: Option<&PathView>, aggregators: Aggregators) -> Option<u32>
    ensures { result ≡ origin (merged path.now (option_copied as4.entry) aggregators) }
{
    let Some(four) = as4 else {
        return path.origin();
    };
    if is_aggregated_anew(aggregators.own, aggregators.four) {
        return path.origin();
    }
    if has_fewer_hops(path, four) {
        return path.origin();
    }
    if four.hops() == 0 {
        return path.origin();
    }
    four.origin()
}

/// Whether AS_PATH has fewer hops than AS4_PATH, which is then ignored.
fn has_fewer_hops(path: &PathView, four: &PathView) -> bool
    ensures { result ≡ nat_lt (length (hops path.now)) (length (hops four.now)) }
{
    path.hops() < four.hops()
}

/// Whether a speaker of two-octet AS numbers aggregated the route after the last one that knows
/// four-octet AS numbers. Then AS4_PATH is not that of the route.
fn is_aggregated_anew(own: Option<u32>, four: Option<u32>) -> bool
    ensures { result ≡ is_aggregated_anew own four }
{
    let Some(own) = own else {
        return false;
    };
    let Some(_) = four else {
        return false;
    };
    own != AS_TRANS
}
