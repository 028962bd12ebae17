// The words of a line, and what they name.
use crate::numbers::{Number, as_natural, whole};
use compared::text::{rest, word};
use scope::Refusal;

// The word number k of a line.
pub fn part(line: &[u8], k: usize) -> &[u8] {
    word(line, k, b' ')
}

// The word as a natural number.
pub fn natural_part(line: &[u8], k: usize) -> u64 {
    as_natural(whole(part(line, k)))
}

// A number as a place or a size.
pub fn as_size(number: Option<Number>) -> usize {
    usize::try_from(as_natural(number)).unwrap_or(usize::MAX)
}

pub fn size_part(line: &[u8], k: usize) -> usize {
    as_size(whole(part(line, k)))
}

// The word's digits in hexadecimal; none where it is a dash.
pub fn hex_part(line: &[u8], k: usize) -> &[u8] {
    match part(line, k) {
        [b'-'] => &[],
        text => text,
    }
}

// Whether it is a name.
pub fn is_named(line: &[u8], k: usize, name: &str) -> bool {
    part(line, k) == name.as_bytes()
}

// The outcome in a line whose call and arguments are k words: what stands behind the `=`, which the lines of base.txt do without.
pub fn outcome(line: &[u8], k: usize) -> &[u8] {
    let told = rest(line, k, b' ');
    if is_named(told, 0, "=") {
        rest(told, 1, b' ')
    } else {
        told
    }
}

// How many words an outcome has.
pub fn word_count(told: &[u8]) -> usize {
    told.split(|b| *b == b' ').count()
}

// Whether it is a name and so many words in all.
pub fn is_said(told: &[u8], name: &str, count: usize) -> bool {
    is_named(told, 0, name) && word_count(told) == count
}

// The place of a refusal. Some lines of base.txt name none, and it is 0.
fn place_told(told: &[u8]) -> usize {
    match word_count(told) {
        2 => 0,
        3 => size_part(told, 2),
        _ => usize::MAX,
    }
}

// Whether an outcome is a refusal's number and place.
pub fn is_refused(told: &[u8], refusal: Refusal) -> bool {
    is_named(told, 0, "refused")
        && natural_part(told, 1) == u64::from(refusal.rule.number())
        && place_told(told) == refusal.place
}
