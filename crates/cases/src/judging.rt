// The judge beside plain sums.
use crate::as_bytes::ended;
use crate::tally::where_right;
use compared::buffers::first;
use search::plain::{Values, satisfied};
use search::sheet::Sheet;
use search::tried::{tuple_at, tuples_of};

// One in so many tuples is judged.
const ONE_IN: usize = 16;

pub fn judged(q: &Sheet, bytes: &[u8], values: &Values) -> bool {
    judge::judge(bytes, first(&values.variables, q.variables)) == Ok(satisfied(q, values))
}

// How many tuples of small values are judged.
pub fn judged_small(q: &Sheet, bytes: &[u8]) -> Option<usize> {
    let mut all: usize = 0;
    for number in (0..tuples_of(q.variables)).skip(ONE_IN - 1).step_by(ONE_IN) {
        if !judged(q, bytes, &tuple_at(number, q.variables)) {
            return None;
        }
        all = all.saturating_add(1);
    }
    Some(all)
}

// Whether judging says of no bytes that they end at 0.
pub fn judged_none() -> bool {
    judge::judge(b"", &[0]) == Err(ended())
}
