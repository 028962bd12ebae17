// The key rows that a call fills: each has the cells of its state's first word, and no two of the first rows are the same.
use crate::edges::KEYS;
use crate::plain::{Values, sides_of};
use crate::sheet::{Atom, Relation, Sheet};

// The rows that are told apart from all before them.
const APART: usize = 100;

// The key cell of an entry that is dead.
pub const DEAD: i32 = i32::MIN;

// A row of an area of rows; the empty one where it has not so many.
pub fn row_of<T>(cells: &[T], width: usize, row: usize) -> &[T] {
    let from = row.saturating_mul(width);
    cells.get(from..from.saturating_add(width)).unwrap_or(&[])
}

fn with_sign(size: u64, below: bool) -> i32 {
    let number = i32::try_from(size).unwrap_or(i32::MAX);
    if below { 0 - number } else { number }
}

// An atom's entry by the word that leads to it, in one step: k less the sum, by 2 to the letters. An equation is dead where something is
// left over, and an at most rounds towards minus infinity.
fn entry(atom: &Atom, word: &Values) -> i32 {
    let (left, right) = sides_of(atom, word);
    let size = left.abs_diff(right);
    let below = right < left;
    let divided = word.power.and_then(|power| Some((
        size.checked_div(power)?,
        size.checked_rem(power)?,
    )));
    match (divided, atom.relation) {
        (Some((whole, 0)), _) => with_sign(whole, below),
        (Some((whole, _)), Relation::AtMost) => {
            with_sign(whole.saturating_add(u64::from(below)), below)
        }
        (_, Relation::Equation) | (None, _) => DEAD,
    }
}

// Whether the key row of a state is that of a word.
pub fn row_right(q: &Sheet, keys: &[i32; KEYS], state: usize, word: &Values) -> bool {
    let atoms = q.atoms();
    let row = row_of(keys, q.m, state);
    row.len() == atoms.len()
        && row
            .iter()
            .zip(atoms)
            .all(|(cell, atom)| *cell == entry(atom, word))
}

// Whether no state before one of the first has the same key row.
pub fn is_apart(keys: &[i32; KEYS], m: usize, state: usize) -> bool {
    let row = row_of(keys, m, state);
    APART < state || (0..state).all(|before| row_of(keys, m, before) != row)
}
