// What a letter does to a key row: the letters' sums, worked once for a question, and the row's target and worths.
#![tactic(auto)]

ghost use Rattle.std.specs.Prelude.{◌≡◌, not, ◌*◌, ◌≤◌, ◌<◌, length, nat_abs, ◌-ℤ◌};
ghost use Rattle.scope.specs.Whole.{eq_z, even};
ghost use Rattle.scope.specs.States.{dead_cell};
ghost use Rattle.scope.specs.Sizes.{most_atoms, most_coefficients, most_constant, most_nodes, most_variables};
ghost use Rattle.theory.specs.Entries.KeyCells.{most_sum};
ghost use Rattle.theory.specs.Wire.Records.{kind_of_code};
ghost use Rattle.step.specs.Eight.{padded};
ghost use Rattle.step.specs.Cells.{kind_codes, live_part, step_cell, worth_cell, step_cells, worth_cells, digit_adds, CellFits, Stepping, Coefficients, Sums, Adding, SumsAdded};

use scope::{Question, is_atom, letters};
use whole::floor_half;

// Every letter's sum of every atom.
pub const SUMS: usize = Question::LETTERS * Question::ATOMS;

// The cell of a dead entry.
const DEAD: i32 = -2_147_483_648;

fn is_dead(cell: i32) -> bool
    ensures { result ≡ eq_z cell dead_cell }
{
    cell == DEAD
}

// A cell as a number that can be halved: a dead one as 0.
fn live_part(cell: i32) -> i32
    ensures { result ≡ live_part cell }
{
    if is_dead(cell) { 0 } else { cell }
}

fn is_odd(cell: i32, sum: i32) -> bool
    requires { (nat_abs cell ≤ most_constant) × (nat_abs sum ≤ most_sum) }
    ensures { result ≡ not (even (cell -ℤ sum)) }
{
    (cell - sum) % 2 != 0
}

// What a cell becomes, where the letter's sum of its atom is given. Every part is worked and none is passed over, so that eight cells are
// stepped at once.
fn step_cell(kind: u8, cell: i32, sum: i32) -> i32
    requires { CellFits cell × (nat_abs sum ≤ most_sum) }
    ensures { result ≡ step_cell (kind_of_code kind) cell sum }
{
    let live = live_part(cell);
    let half = floor_half(live, sum);
    let odd = is_odd(live, sum);
    if is_dead(cell) | ((kind == 1) & odd) {
        DEAD
    } else {
        half
    }
}

// The row to which a letter leads.
pub fn step_row(
    kinds: [u8; Question::ATOMS],
    sums: &[i32; SUMS],
    letter: usize,
    row: [i32; Question::ATOMS],
) -> [i32; Question::ATOMS]
    requires { Stepping sums.now letter row }
    ensures { result ≡ step_cells kinds most_atoms sums.now letter row }
{
    let base = Question::ATOMS * letter;
    let mut target = [0i32; Question::ATOMS];
    for i in 0..Question::ATOMS {
        target[i] = step_cell(kinds[i], row[i], sums[base + i]);
    }
    target
}

// What an atom is worth at its cell: a dead cell is below zero.
fn worth_cell(kind: u8, cell: i32) -> bool
    ensures { result ≡ worth_cell (kind_of_code kind) cell }
{
    if kind == 1 { cell == 0 } else { 0 <= cell }
}

// What each atom is worth at a row. Past the atoms there is something too, at which no formula looks.
pub fn worths_of(
    kinds: [u8; Question::ATOMS],
    row: [i32; Question::ATOMS],
) -> [bool; Question::ATOMS]
    ensures { result ≡ worth_cells kinds row }
{
    let mut worths = [false; Question::ATOMS];
    for i in 0..Question::ATOMS {
        worths[i] = worth_cell(kinds[i], row[i]);
    }
    worths
}

// The atoms' kinds in their order, 1 equation and 2 at most, with 0 past them; and how many there are.
#[derive(Clone, Copy)]
pub struct Kinds {
    pub kinds: [u8; Question::ATOMS],
    pub m: usize,
}

pub fn kinds_of(codes: &[u8; Question::NODES]) -> Kinds
    requires { (length codes.now ≡ most_nodes) × (length (kind_codes codes.now) ≤ most_atoms) }
    ensures { (result.kinds ≡ padded 0 (kind_codes codes.now)) × (result.m ≡ length (kind_codes codes.now)) }
{
    let mut kinds = [0u8; Question::ATOMS];
    let mut m = 0;
    for &code in codes {
        if is_atom(code) {
            kinds[m] = code;
            m += 1;
        }
    }
    Kinds { kinds, m }
}

// What a digit adds to each atom's sum: its coefficients, with 0 past the atoms.
fn digit_adds(
    m: usize,
    coefficients: &[i32; Question::COEFFICIENTS],
    j: usize,
) -> [i32; Question::ATOMS]
    requires { (m ≤ most_atoms) × (j < most_variables) × (length coefficients.now ≡ most_coefficients) }
    ensures { result ≡ digit_adds m coefficients.now j }
{
    let mut adds = [0i32; Question::ATOMS];
    for i in 0..m {
        adds[i] = coefficients[Question::VARIABLES * i + j];
    }
    adds
}

// The sums of one letter, with what a digit adds to them, as those of another.
fn digit_row(sums: &mut [i32; SUMS], from: usize, to: usize, adds: [i32; Question::ATOMS])
    requires { Adding adds sums.old from to most_atoms }
    ensures { SumsAdded adds sums.old sums.new from to most_atoms }
{
    for i in 0..Question::ATOMS {
        sums[to + i] = sums[from + i] + adds[i];
    }
}

// The sums of the first `count` letters, with what a digit adds to them, as those of as many letters more.
fn digit_sums(sums: &mut [i32; SUMS], count: usize, adds: [i32; Question::ATOMS])
    requires { Adding adds sums.old 0 (most_atoms * count) (most_atoms * count) }
    ensures { SumsAdded adds sums.old sums.new 0 (most_atoms * count) (most_atoms * count) }
{
    for letter in 0..count {
        digit_row(
            sums,
            Question::ATOMS * letter,
            Question::ATOMS * (count + letter),
            adds,
        );
    }
}

// Each letter's sum of each atom, that of atom i at 8 * letter + i, with 0 past the atoms. A digit more doubles the letters.
pub fn letter_sums(n: usize, m: usize, coefficients: &[i32; Question::COEFFICIENTS]) -> [i32; SUMS]
    requires { Coefficients n m coefficients.now }
    ensures { Sums n m coefficients.now result }
{
    let mut sums = [0i32; SUMS];
    for j in 0..n {
        digit_sums(&mut sums, letters(j), digit_adds(m, coefficients, j));
    }
    sums
}
