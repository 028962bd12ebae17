// What is fixed while the rows of a question are numbered, and where the numbering stands.
#![tactic(auto)]

ghost use Rattle.std.specs.Prelude.{◌≡◌, true, false, ◌+◌, ◌*◌, ◌^◌, ◌≤◌, ◌<◌, length, take};
ghost use Rattle.formula.specs.Truths.{truth_at};
ghost use Rattle.step.specs.Cells.{worth_cells};
ghost use Rattle.index.specs.Rows.{row_at};
ghost use Rattle.plan.specs.Machine.{FreshBits};
ghost use Rattle.plan.specs.Simulated.{PlanAsked, PlanMade};
ghost use Rattle.plan.specs.Moves.{explored_by, Resumed, Moved, with_rows, going_at};
ghost use Rattle.scope.specs.Sizes.{most_atoms, most_letters, most_states};

use formula::{WORDS, truth_at, truths_of};
use index::{bucket, load_row, same_row};
use scope::{Question, letters};
use step::{Kinds, SUMS, worths_of};

// The rows for which a small index has room, and its buckets: a small question does not pay for making a large one.
pub const FEW: usize = 256;

// The same of a large index, which has room for all rows that there can be.
pub const MANY: usize = 65_536;

// What is fixed while a question's rows are numbered.
#[derive(Clone, Copy)]
pub struct Plan {
    // The atoms' kinds, with 0 past them.
    pub kinds: [u8; Question::ATOMS],
    // The cells of a key row.
    pub width: usize,
    pub letters: usize,
    pub rows: usize,
    // Whether each row's path cells are written, and whether each new state is tested.
    pub noting: bool,
    pub testing: bool,
    // The formula's truths.
    pub truths: [u64; WORDS],
    // A bit for each letter: where it is 0, an earlier letter has the same sums, and leads wherever this one does.
    pub fresh: u64,
}

impl Plan {
    // The same in so many rows.
    pub fn with_rows(self, rows: usize) -> Plan
        ensures { result ≡ with_rows self rows }
    {
        let mut plan = self;
        plan.rows = rows;
        plan
    }

    // Whether a row accepts.
    pub fn accepts(self, row: [i32; Question::ATOMS]) -> bool
        ensures { result ≡ truth_at self.truths (worth_cells self.kinds row) }
    {
        let kinds = self.kinds;
        let truths = self.truths;
        truth_at(truths, worths_of(kinds, row))
    }
}

// Where exploring stands: the rows so far, and the row and the letter that come next.
#[derive(Clone, Copy)]
pub struct Stand {
    pub count: usize,
    pub row: usize,
    pub letter: usize,
}

// Why exploring goes no further: the letter at which it stands leads to a new state, which accepts and has the last row, or has no row left.
#[derive(Clone, Copy)]
pub enum Stop {
    Found(Stand),
    Full(Stand),
}

impl Stand {
    // At a letter of a row that is to be tried.
    pub fn going(count: usize, row: usize, letter: usize) -> Stand
        ensures { result ≡ going_at count row letter }
    {
        Stand { count, row, letter }
    }

    // After the letter at which it stands, with so many rows: the next letter to try, which has the lowest bit of those that are left, or the
    // next row.
    pub fn after(self, plan: Plan, count: usize) -> Stand
        requires { (self.letter < plan.letters) × (plan.letters ≤ most_letters) × (plan.fresh < 2 ^ plan.letters) × (self.row < most_states) }
        ensures { Moved plan self count result }
    {
        let left = (plan.fresh >> self.letter) >> 1;
        if left == 0 {
            return Stand::going(count, self.row + 1, 0);
        }
        Stand::going(
            count,
            self.row,
            self.letter + 1 + u64::trailing_zeros(left) as usize,
        )
    }
}

// Where exploring goes on, if it stopped for want of so few rows and there are more.
pub fn resumed(ended: Result<Stand, Stop>, few: usize, rows: usize) -> Option<Stand>
    ensures { Resumed ended few rows result }
{
    if let Err(Stop::Full(s)) = ended {
        if few < rows {
            return Some(s);
        }
    }
    None
}

// How exploring ended: at a state that accepts, to which the letter of the row leads; with a row for every reachable state; or for want of rows.
// And the rows that are filled.
#[derive(Clone, Copy)]
pub enum Explored {
    Found {
        states: usize,
        row: usize,
        letter: usize,
    },
    All {
        states: usize,
    },
    NoRoom {
        states: usize,
    },
}

impl Explored {
    // Once exploring has ended: where it did not stop, every row is expanded.
    pub fn of(ended: Result<Stand, Stop>) -> Explored
        ensures { result ≡ explored_by ended }
    {
        match ended {
            Ok(s) => Explored::All { states: s.count },
            Err(Stop::Found(s)) => Explored::Found {
                states: s.count,
                row: s.row,
                letter: s.letter,
            },
            Err(Stop::Full(s)) => Explored::NoRoom { states: s.count },
        }
    }
}

// Whether a letter has the sums, which are handed over, of an earlier one.
fn repeats(sums: &[i32; SUMS], lead: usize, letter: usize, row: &[i32; Question::ATOMS]) -> bool
    requires { (length sums.now ≡ (most_atoms * most_letters)) × (length row.now ≡ most_atoms) × (letter ≤ most_letters) }
    ensures { result ≡ true → (lead < letter) × (row_at sums.now most_atoms lead ≡ take most_atoms row.now) }
{
    if lead < letter {
        return same_row(sums, Question::ATOMS, lead, row);
    }
    false
}

// A bit for each letter, which is 0 where an earlier letter has the same sums. The last letter whose sums fell into the same place is looked at:
// letters that agree fall into one place, and a letter that was missed is tried.
fn fresh_letters(sums: &[i32; SUMS], letters: usize) -> u64
    requires { (length sums.now ≡ (most_atoms * most_letters)) × (letters ≤ most_letters) }
    ensures { FreshBits sums.now letters result }
{
    let mut last = [0usize; Question::LETTERS];
    let mut fresh: u64 = 0;
    for letter in 0..letters {
        let row = load_row(sums, Question::ATOMS, letter);
        let place = bucket(&row, Question::LETTERS);
        if !repeats(sums, last[place], letter, &row) {
            fresh += 1 << letter;
        }
        last[place] = letter;
    }
    fresh
}

// The plan of an accepted question in so many rows, where its atoms' kinds and its letters' sums are given.
pub fn plan_of(
    question: &Question,
    atoms: Kinds,
    sums: &[i32; SUMS],
    rows: usize,
    noting: bool,
    testing: bool,
) -> Plan
    requires { PlanAsked question.now atoms sums.now }
    ensures { PlanMade question.now sums.now rows noting testing result }
{
    let kinds = atoms.kinds;
    let letters = letters(usize::from(question.n));
    let truths = truths_of(&question.codes);
    Plan {
        kinds,
        width: atoms.m,
        letters,
        rows,
        noting,
        testing,
        truths,
        fresh: fresh_letters(sums, letters),
    }
}
