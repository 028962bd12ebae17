// Deciding and building in so many rows of marked areas, and what they answer.
use crate::buffers::{
    BYTE_MARK, CELL_MARK, KEY_MARK, ROWS, all_marked, cells_of, front_rows, is_filled,
};
use scope::{Building, Decision, Question, Refusal};

// The cells of as many rows as are lent.
const KEYS: usize = Question::ATOMS * ROWS;

const PATH: usize = 2 * ROWS;

// Why there is nothing to compare: the call refuses, or other cells than those of its answer's states are filled.
#[derive(Clone, Copy, PartialEq, Eq, Debug)]
pub enum Fault {
    Refused(Refusal),
    Spoilt,
}

impl From<Refusal> for Fault {
    fn from(refusal: Refusal) -> Fault {
        Fault::Refused(refusal)
    }
}

// The states whose rows are filled.
pub fn states_decided<E>(answer: &Result<Decision, E>) -> usize {
    match answer {
        Ok(
            Decision::Found { states, .. }
            | Decision::Never { states }
            | Decision::NoRoom { states }
            | Decision::Short { states, .. },
        ) => *states,
        Err(_) => 0,
    }
}

// The letters of the word found.
pub fn letters_found<E>(answer: &Result<Decision, E>) -> usize {
    match answer {
        Ok(Decision::Found { letters, .. }) => *letters,
        _ => 0,
    }
}

pub fn states_built<E>(answer: &Result<Building, E>) -> usize {
    match answer {
        Ok(Building::Built { states } | Building::NoRoom { states }) => *states,
        Err(_) => 0,
    }
}

// The rows of a table that are filled.
fn table_rows<E>(answer: &Result<Building, E>) -> usize {
    match answer {
        Ok(Building::Built { states }) => *states,
        _ => 0,
    }
}

// Whether so many rows of an area are filled, and no cell else.
fn rows_filled<T: Copy + PartialEq>(cells: &[T], rows: usize, width: usize, mark: T) -> bool {
    cells_of(rows, width).is_some_and(|n| is_filled(cells, n, mark))
}

// What a call answers, where the right cells are filled.
fn where_filled<T: Copy>(answer: Result<T, Refusal>, filled: bool) -> Result<T, Fault> {
    if filled {
        Ok(answer?)
    } else {
        Err(Fault::Spoilt)
    }
}

// What deciding answers in areas that hold marks, by the entries of a key row.
pub fn decided(
    bytes: &[u8],
    m: usize,
    keys: &mut [i32],
    path: &mut [u16],
    word: &mut [u8],
) -> Result<Decision, Fault> {
    let answer = decide::decide(bytes, keys, path, word);
    let rows = states_decided(&answer);
    let beyond = word.get(letters_found(&answer)..).unwrap_or(&[]);
    where_filled(
        answer,
        rows_filled(keys, rows, m, KEY_MARK)
            && rows_filled(path, rows, 2, CELL_MARK)
            && all_marked(beyond, BYTE_MARK),
    )
}

// The same of building, by the cells of a table's row too.
pub fn built(
    bytes: &[u8],
    m: usize,
    width: usize,
    keys: &mut [i32],
    table: &mut [u16],
) -> Result<Building, Fault> {
    let answer = build::build(bytes, keys, table);
    where_filled(
        answer,
        rows_filled(keys, states_built(&answer), m, KEY_MARK)
            && rows_filled(table, table_rows(&answer), width, CELL_MARK),
    )
}

// The same in so many rows, with a key area and a path area that nothing else needs.
pub fn decided_in(bytes: &[u8], m: usize, rows: usize, word: &mut [u8]) -> Result<Decision, Fault> {
    let mut keys = [KEY_MARK; KEYS];
    let mut path = [CELL_MARK; PATH];
    decided(
        bytes,
        m,
        front_rows(&mut keys, rows, m),
        front_rows(&mut path, rows, 2),
        word,
    )
}

pub fn built_in(
    bytes: &[u8],
    m: usize,
    width: usize,
    rows: usize,
    table: &mut [u16],
) -> Result<Building, Fault> {
    let mut keys = [KEY_MARK; KEYS];
    built(
        bytes,
        m,
        width,
        front_rows(&mut keys, rows, m),
        front_rows(table, rows, width),
    )
}
