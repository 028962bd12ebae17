// Whether a word of any length satisfies a question: it is spelled in pieces of 32 letters, which are the digits of its values to
// base 2^32, and both sides of every atom are summed digit by digit.
use crate::plain::{Values, satisfied_by, weighed};
use crate::sheet::{Atom, Sheet};
use std::cmp::Ordering;

// The letters of a piece.
const PIECE: usize = 32;

const BASE: u64 = 4_294_967_296;

// The order of an atom's sides. A digit decides over those before it.
fn order_by(atom: &Atom, word: &[u8]) -> Ordering {
    let mut left = atom.left.constant;
    let mut right = atom.right.constant;
    let mut order = Ordering::Equal;
    for piece in word.chunks(PIECE) {
        let mut values = Values::of(piece);
        values.constant = 0;
        left = weighed(left, &atom.left, &values);
        right = weighed(right, &atom.right, &values);
        order = (left % BASE).cmp(&(right % BASE)).then(order);
        left /= BASE;
        right /= BASE;
    }
    left.cmp(&right).then(order)
}

// Whether what a word spells satisfies the question.
pub fn word_satisfies(q: &Sheet, word: &[u8]) -> bool {
    satisfied_by(q, |atom| order_by(atom, word))
}
