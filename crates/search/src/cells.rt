// The rows that a call fills, and the cells of a built table: its states come up in order, each leads where its word with one letter
// more does, and each says what its word says.
use crate::edges::{Edges, KEYS, ROWS, TABLE};
use crate::plain::{Values, satisfied};
use crate::rows::{is_apart, row_of, row_right};
use crate::sheet::Sheet;

// How many states have a word that is not too long to say, where each of these is right.
fn count_right<F: Fn(usize, &Values) -> bool>(
    edges: &Edges,
    states: usize,
    is_right: F,
) -> Option<usize>
    requires { F.IsAlwaysCallable is_right }
{
    let mut all: usize = 0;
    for state in 0..states {
        let word = edges.word_of(state);
        if word.power.is_some() {
            if !is_right(state, &word) {
                return None;
            }
            all += 1;
        }
    }
    Some(all)
}

// How many key rows of so many states are right; none where a state does not come up in order or a row is wrong.
pub fn look_rows(q: &Sheet, keys: &[i32; KEYS], edges: &Edges, states: usize) -> Option<usize> {
    if !edges.are_right(q, states) {
        return None;
    }
    count_right(edges, states, |state, word| {
        row_right(q, keys, state, word) && is_apart(keys, q.m, state)
    })
}

// Whether a state's row says what its word says, and every letter leads to the row of the word with that letter more.
fn row_leads_right(q: &Sheet, keys: &[i32; KEYS], row: &[u16], word: &Values) -> bool {
    let Some((mark, cells)) = row.split_first() else {
        return false;
    };
    (*mark == 1) == satisfied(q, word)
        && *mark <= 1
        && cells.iter().enumerate().all(|(letter, next)| {
            let next = usize::from(*next);
            next < ROWS && row_right(q, keys, next, &word.with_letter(letter as u64))
        })
}

// How many rows of a built table are right; none where a key row or a cell is not.
pub fn look_table(
    q: &Sheet,
    keys: &[i32; KEYS],
    table: &[u16; TABLE],
    states: usize,
) -> Option<usize> {
    let letters = q.letters();
    let edges = Edges::of_table(table, letters);
    look_rows(q, keys, &edges, states)?;
    count_right(&edges, states, |state, word| {
        row_leads_right(q, keys, row_of(table, letters + 1, state), word)
    })
}
