// Deciding beside the searches, row by row, and again in fewer rows and letters.
use crate::judging::{judged, judged_small};
use crate::tally::{Kind, where_right};
use compared::asked::{Fault, decided, decided_in, states_decided};
use compared::buffers::{BYTE_MARK, CELL_MARK, KEY_MARK, front, front_rows};
use scope::Decision;
use search::bound::bound_of;
use search::cells::look_rows;
use search::edges::{Edges, KEYS, PATH, ROWS};
use search::pieces::word_satisfies;
use search::plain::Values;
use search::sheet::Sheet;
use search::spelled::number_of;
use search::tried::{WORDS, first_number, tuples_of, tuples_satisfied};

// The letters of a word whose values are judged at most.
const SPELLED: usize = 40;

// How many rows that deciding fills are right.
fn rows_right(q: &Sheet, bytes: &[u8]) -> Option<usize> {
    let mut keys = [KEY_MARK; KEYS];
    let mut path = [CELL_MARK; PATH];
    let mut word = [BYTE_MARK; ROWS];
    let lent = front_rows(&mut keys, ROWS, q.m);
    let told = decided(bytes, q.m, lent, &mut path, &mut word);
    look_rows(q, &keys, &Edges::of_path(&path), states_decided(&told))
}

// Whether a verdict fits the searches, and its states the bound.
fn verdict_right(
    told: Result<Decision, Fault>,
    bound: u64,
    first: Option<u64>,
    tuples: usize,
) -> bool {
    match told {
        Ok(Decision::NoRoom { states }) => states == ROWS && (ROWS as u64) < bound,
        Ok(Decision::Never { states }) => states as u64 <= bound && first.is_none() && tuples == 0,
        Ok(Decision::Found { states, .. }) => states as u64 <= bound,
        _ => false,
    }
}

// Whether a word is judged and spelled as it is here, where it is not too long.
fn word_judged(q: &Sheet, bytes: &[u8], word: &[u8]) -> bool {
    if SPELLED < word.len() {
        return true;
    }
    let values = Values::of(word);
    let spelled = (1..=q.variables).zip(&values.variables).all(|(variable, value)| words::spell(
        q.variables,
        variable,
        word,
    ) == Ok(*value));
    spelled && judged(q, bytes, &values)
}

// Whether a word found satisfies, and is the first that the search met, where it met one.
fn word_right(q: &Sheet, bytes: &[u8], word: &[u8], first: Option<u64>) -> bool {
    first.is_none_or(|number| number_of(word, q.letters()) == number)
        && word_satisfies(q, word)
        && word_judged(q, bytes, word)
}

// What deciding tells in so many rows and letters.
fn told_by(q: &Sheet, bytes: &[u8], rows: usize, room: usize) -> Result<Decision, Fault> {
    let mut word = [BYTE_MARK; ROWS];
    decided_in(bytes, q.m, rows, front(&mut word, room))
}

// Whether deciding in no more rows tells what follows from what it told in as many or more.
fn same_in(q: &Sheet, bytes: &[u8], rows: usize, told: Result<Decision, Fault>) -> bool {
    let again = told_by(q, bytes, rows, ROWS);
    match told {
        Ok(Decision::Found { states, .. } | Decision::Never { states }) if states <= rows => {
            again == told
        }
        _ => again == Ok(Decision::NoRoom { states: rows }),
    }
}

// Whether a word buffer of one letter less is too short for the word found.
fn short_by_one(q: &Sheet, bytes: &[u8], told: Result<Decision, Fault>) -> bool {
    match told {
        Ok(Decision::Found { states, letters }) if 0 < letters => {
            told_by(q, bytes, ROWS, letters - 1) == Ok(Decision::Short { states, letters })
        }
        _ => true,
    }
}

// Whether deciding in the states told, in one less, in few rows, and in fewer letters tells what follows.
fn same_again(q: &Sheet, bytes: &[u8], told: Result<Decision, Fault>, few: usize) -> bool {
    let states = states_decided(&told);
    0 < states
        && [few, states - 1, states]
            .iter()
            .all(|rows| same_in(q, bytes, *rows, told))
        && short_by_one(q, bytes, told)
}

// What is counted of deciding, from its verdicts to the first words that satisfy.
pub fn decided_amounts(
    q: &Sheet,
    bytes: &[u8],
    told: Result<Decision, Fault>,
    word: &[u8],
    few: usize,
) -> [(Kind, Option<usize>); 7] {
    let first = first_number(q);
    let right = verdict_right(told, bound_of(q), first, tuples_satisfied(q));
    let (kind, right) = match told {
        Ok(Decision::Found { .. }) => (Kind::Found, right && word_right(q, bytes, word, first)),
        Ok(Decision::Never { .. }) => (Kind::Never, right),
        _ => (Kind::NoRoom, right),
    };
    let tried = first.unwrap_or(WORDS - 1) as usize;
    [
        (kind, where_right(right, 1)),
        (Kind::Rows, rows_right(q, bytes)),
        (Kind::Again, where_right(same_again(q, bytes, told, few), 1)),
        (Kind::Tuples, Some(tuples_of(q.variables) as usize)),
        (Kind::Judged, judged_small(q, bytes)),
        (Kind::Words, Some(tried.saturating_add(1))),
        (Kind::Met, Some(usize::from(first.is_some()))),
    ]
}
