// Spelling out a word's values, and running a table on a word. A word is low digits first, and a letter has variable 1 as its lowest bit.
#![tactic(auto)]

ghost use Rattle.std.specs.Prelude.{◌≡◌, cond, ◌&&◌, ℕ, ◌+◌, ◌%◌, ◌≤◌, ◌<◌, length, leb, ltb, eqb};
ghost use Rattle.std.specs.List.{list_all};
ghost use Rattle.scope.specs.Whole.{all_from};
ghost use Rattle.scope.specs.Words.{value, spelt};
ghost use Rattle.scope.specs.Building.{table_width};
ghost use Rattle.scope.specs.Running.{cell_fits, table_fits, says_yes, ran};
ghost use Rattle.scope.specs.Sizes.{most_spelled, most_variables};
ghost use Rattle.words.specs.Tables.{TableRuns};

use scope::{Question, Refusal, Rule, letters};

// The most letters of a word that is spelled out: its value fits 64 bits.
const SPELLED: usize = 64;

// Whether a number is one from 1 to the most.
fn within(number: usize, most: usize) -> bool
    ensures { result ≡ leb 1 number && leb number most }
{
    (1..=most).contains(&number)
}

// Whether every letter of the word is below a number.
fn letters_fit(limit: usize, word: &[u8]) -> bool
    ensures { result ≡ list_all (λ (letter : ℕ). ltb letter limit) word.now }
{
    word.iter().all(|&letter| usize::from(letter) < limit)
}

// What a word of at most 64 letters spells for the variable at index j, from its last letter on.
fn value_of(j: usize, word: &[u8]) -> u64
    requires { (j < most_variables) × (length word.now ≤ most_spelled) }
    ensures { result ≡ value word.now j }
{
    let mut v: u64 = 0;
    for i in (0..word.len()).rev() {
        v = 2 * v + (u64::from(word[i]) >> j) % 2;
    }
    v
}

// What a word spells for a variable from 1 to n.
pub fn spell(n: usize, variable: usize, word: &[u8]) -> Result<u64, Refusal>
    ensures { result ≡ spelt n variable word.now }
{
    if !within(n, Question::VARIABLES) {
        return Err(Rule::BeyondLimit.at(0));
    }
    if !within(variable, n) {
        return Err(Rule::BeyondLimit.at(0));
    }
    if !letters_fit(letters(n), word) {
        return Err(Rule::Letter.at(0));
    }
    if SPELLED < word.len() {
        return Err(Rule::Values.at(0));
    }
    Ok(value_of(variable - 1, word))
}

// The cells of a table's row.
fn table_width(n: usize) -> usize
    requires { n ≤ most_variables }
    ensures { result ≡ table_width n }
{
    1 + letters(n)
}

// The column after a column of a row.
fn column_after(column: usize, width: usize) -> usize
    requires { column < width }
    ensures { result ≡ (column + 1) % width }
{
    if column + 1 == width {
        return 0;
    }
    column + 1
}

// Whether a cell is an accept mark in the first column, or one of the rows in the others.
fn cell_fits(column: usize, rows: usize, cell: u16) -> bool
    ensures { result ≡ cond (eqb column 0) (leb cell 1) (ltb cell rows) }
{
    if column == 0 {
        return cell <= 1;
    }
    usize::from(cell) < rows
}

// Whether every cell of a table fits.
fn cells_fit(width: usize, rows: usize, cells: &[u16]) -> bool
    requires { 0 < width }
    ensures { result ≡ all_from (cell_fits width rows) 0 cells.now }
{
    let mut column = 0;
    for &cell in cells {
        if !cell_fits(column, rows, cell) {
            return false;
        }
        column = column_after(column, width);
    }
    true
}

// Whether the cells are one or more whole rows, at most 65,535, of cells that fit.
fn table_fits(n: usize, cells: &[u16]) -> bool
    requires { n ≤ most_variables }
    ensures { result ≡ table_fits n cells.now }
{
    let width = table_width(n);
    let rows = cells.len() / width;
    if cells.len() % width != 0 {
        return false;
    }
    if !within(rows, Question::STATES) {
        return false;
    }
    cells_fit(width, rows, cells)
}

// Whether the word leads from row 0 to a row that accepts.
fn says_yes(n: usize, cells: &[u16], word: &[u8]) -> bool
    requires { TableRuns n cells.now word.now }
    ensures { result ≡ says_yes n cells.now word.now }
{
    let width = table_width(n);
    let mut row = 0;
    for &letter in word {
        row = usize::from(cells[row * width + 1 + usize::from(letter)]);
    }
    cells[row * width] == 1
}

// What a table says of a word: yes where the row that it leads to accepts.
pub fn run(n: usize, cells: &[u16], word: &[u8]) -> Result<bool, Refusal>
    ensures { result ≡ ran n cells.now word.now }
{
    if !within(n, Question::VARIABLES) {
        return Err(Rule::BeyondLimit.at(0));
    }
    if !table_fits(n, cells) {
        return Err(Rule::Table.at(0));
    }
    if !letters_fit(letters(n), word) {
        return Err(Rule::Letter.at(0));
    }
    Ok(says_yes(n, cells, word))
}
