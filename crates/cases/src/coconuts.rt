// The five equations -4x_i + 5x_(i+1) = 1, joined by and, and what deciding them leaves in every key and path cell, worked by hand.
ghost use Rattle.std.specs.Prelude.{◌≤◌};

use scope::Question;
use search::rows::DEAD;

// The start, and a state for every letter where the one before does not lead to the same: variable 1 does not count while variable 2's digit is 0.
pub const STATES: usize = 49;

// The equations, which are the cells of a key row.
pub const EQUATIONS: usize = 5;

pub const KEYS: usize = 300;

pub const PATH: usize = 120;

pub fn coconuts() -> Question {
    let mut codes = [0u8; Question::NODES];
    let mut coefficients = [0i32; Question::COEFFICIENTS];
    let mut constants = [0i32; Question::ATOMS];
    codes[..9].copy_from_slice(&[4, 1, 4, 1, 4, 1, 4, 1, 1]);
    for i in 0..EQUATIONS {
        coefficients[7 * i] = -4;
        coefficients[7 * i + 1] = 5;
    }
    constants[..EQUATIONS].fill(1);
    Question {
        n: 6,
        codes,
        coefficients,
        constants,
    }
}

// The letter of a row: those that are 1 over a multiple of four are left out.
fn letter_of(row: usize) -> u16
    requires { row ≤ 48 }
{
    if row < 1 {
        return 0;
    }
    let at = row as u16 - 1;
    4 * (at / 3) + at % 3 + (at % 3 + 1) / 2
}

// Where the digits of a letter lead an equation from 1: 1 + 4 and 1 are odd, 1 - 5 is halved to -2, and 1 + 4 - 5 to 0.
fn entry(digits: u16) -> i32 {
    match digits % 4 {
        2 => -2,
        3 => 0,
        _ => DEAD,
    }
}

// The key row of the start or of a letter, whose digits are the equations' from the lowest on.
fn key_row(row: usize) -> [i32; EQUATIONS]
    requires { row ≤ 48 }
{
    let mut cells = [1i32; EQUATIONS];
    if row == 0 {
        return cells;
    }
    let mut digits = letter_of(row);
    for cell in cells.iter_mut() {
        *cell = entry(digits);
        digits >>= 1;
    }
    cells
}

// Whether the key rows are the start's and those of the letters in order.
pub fn keys_right(keys: &[i32; KEYS]) -> bool {
    let (rows, _) = keys.as_chunks::<EQUATIONS>();
    rows.iter()
        .take(STATES)
        .enumerate()
        .all(|(row, cells)| *cells == key_row(row))
}

// Whether the path rows are.
pub fn path_right(path: &[u16; PATH]) -> bool {
    let (steps, _) = path.as_chunks::<2>();
    steps
        .iter()
        .take(STATES)
        .enumerate()
        .all(|(row, step)| *step == [0, letter_of(row)])
}
