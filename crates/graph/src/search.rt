// The search in an ascending hop list: where a hop stands or would stand, and by it the places of a
// state's hops.
// All code that looks for a given hop asks here. The place is found by binary search or, for hops
// sought one after the other, by a scan ahead; the answer is the same. It serves either graph, so a
// state is a bare number here.
ghost use Rattle.std.specs.Prelude.{◌≡◌, ◌<◌, ◌≤◌};
ghost use Rattle.graph.specs.Hops.{count};
ghost use Rattle.graph.specs.Order.{Ascending};
ghost use Rattle.graph.specs.Search.{lower, first_of, past_of};
ghost use Rattle.graph.specs.Internal.Search.{Bracket, AbsentFrom, found, placed, is_at, found_place};

use super::Hop;
use super::hops::{hop_at, hop_count, hop_of, is_hop_at};
use super::order::{is_below, sum_of};

// The first place whose hop is not before h, by binary search between two places that bracket it.
// It is by hand: `partition_point` goes over the elements of a slice, and a hop is four of them.
pub fn lower_between(hops: &[u16], h: Hop, first: usize, past: usize) -> usize
    requires ascending { Ascending hops.now }
    requires bracket { Bracket hops.now h first past }
    ensures { result ≡ lower hops.now h }
{
    let sought = sum_of(h);
    let mut lo = first;
    let mut hi = past;
    while lo < hi {
        let mid = lo + (hi - lo) / 2;
        if is_below(sum_of(hop_at(hops, mid)), sought) {
            lo = mid + 1;
        } else {
            hi = mid;
        }
    }
    lo
}

// The first place whose hop is not before h, or the number of hops.
pub fn lower_place(hops: &[u16], h: Hop) -> usize
    requires { Ascending hops.now }
    ensures { result ≡ lower hops.now h }
{
    lower_between(hops, h, 0, hop_count(hops))
}

// What a search returns for the place that it came to: `Ok` if the hop stands there, `Err` if it
// would stand there.
fn found_or_gap(stands: bool, at: usize) -> Result<usize, usize>
    ensures { result ≡ found stands at }
{
    if stands {
        return Ok(at);
    }
    Err(at)
}

// Where the hop stands or would stand, searched for between two places that bracket it, if it does
// not stand behind them.
pub fn find_between(hops: &[u16], h: Hop, first: usize, past: usize) -> Result<usize, usize>
    requires ascending { Ascending hops.now }
    requires bracket { Bracket hops.now h first past }
    requires absent { AbsentFrom hops.now h past }
    ensures { result ≡ placed hops.now h }
{
    let at = lower_between(hops, h, first, past);
    if at < past {
        return found_or_gap(is_hop_at(hops, at, h), at);
    }
    found_or_gap(false, at)
}

// The same by a scan from the first of the two places: for hops that are sought one after the
// other, each not far behind the one before.
pub fn find_ahead(hops: &[u16], h: Hop, first: usize, past: usize) -> Result<usize, usize>
    requires ascending { Ascending hops.now }
    requires bracket { Bracket hops.now h first past }
    requires absent { AbsentFrom hops.now h past }
    ensures { result ≡ placed hops.now h }
{
    let sought = sum_of(h);
    for at in first..past {
        let sum = sum_of(hop_at(hops, at));
        if !is_below(sum, sought) {
            return found_or_gap(sum == sought, at);
        }
    }
    found_or_gap(false, past)
}

// Where the hop stands or would stand, in the whole list.
pub fn find(hops: &[u16], h: Hop) -> Result<usize, usize>
    requires { Ascending hops.now }
    ensures { result ≡ placed hops.now h }
{
    find_between(hops, h, 0, hop_count(hops))
}

// Whether a search found its hop, and the place it came to: there the hop stands, or would stand.
pub fn is_at(found: Result<usize, usize>) -> bool
    ensures { result ≡ is_at found }
{
    found.is_ok()
}

pub fn place_of(found: Result<usize, usize>) -> usize
    ensures { result ≡ found_place found }
{
    match found {
        Ok(at) | Err(at) => at,
    }
}

// The place of the first hop of s, or where it would stand.
pub fn first_of(hops: &[u16], s: u16) -> usize
    requires { Ascending hops.now }
    ensures { result ≡ first_of hops.now s }
{
    lower_place(hops, hop_of(s, 0, 0))
}

// The place past the last hop of s.
pub fn past_of(hops: &[u16], s: u16) -> usize
    requires ascending { Ascending hops.now }
    requires state { s < 65535 }
    ensures { result ≡ past_of hops.now s }
{
    first_of(hops, s + 1)
}
