// judge BYTES VALUES = yes | no | refused NUMBER PLACE
use crate::numbers::{as_natural, items, list_in};
use crate::parts::{is_refused, is_said, outcome, part};
use compared::buffers::first;
use scope::Refusal;

// The most values in a line.
const VALUES: usize = 16;

fn answered(told: &[u8], answer: Result<bool, Refusal>) -> bool {
    match answer {
        Ok(true) => is_said(told, "yes", 1),
        Ok(false) => is_said(told, "no", 1),
        Err(refusal) => is_refused(told, refusal),
    }
}

pub fn judge_right(line: &[u8], bytes: &[u8]) -> bool {
    let list = part(line, 2);
    let values: [u64; VALUES] = list_in(list, 0, as_natural);
    let n = items(list);
    n <= VALUES && answered(outcome(line, 3), judge::judge(bytes, first(&values, n)))
}
