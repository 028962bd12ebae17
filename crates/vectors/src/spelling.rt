// spell N VARIABLE LETTERS = value V | refused NUMBER PLACE
use crate::numbers::{items, list_in, small};
use crate::parts::{is_refused, is_said, natural_part, outcome, part, size_part};
use compared::buffers::{BYTE_MARK, first};
use scope::Refusal;

// The most letters in a line.
pub const LETTERS: usize = 1_024;

// The letters of a list, at the front of marks.
pub fn letters_in(list: &[u8]) -> [u8; LETTERS] {
    list_in(list, BYTE_MARK, small)
}

fn answered(told: &[u8], answer: Result<u64, Refusal>) -> bool {
    match answer {
        Ok(value) => is_said(told, "value", 2) && natural_part(told, 1) == value,
        Err(refusal) => is_refused(told, refusal),
    }
}

pub fn spell_right(line: &[u8]) -> bool {
    let list = part(line, 3);
    let letters = letters_in(list);
    let word = first(&letters, items(list));
    answered(
        outcome(line, 4),
        words::spell(size_part(line, 1), size_part(line, 2), word),
    )
}
