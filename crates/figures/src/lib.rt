// What an exported call tells of its answer, in figures: the refusal's number, and the cells behind it.
#![tactic(auto)]

ghost use Rattle.std.specs.Prelude.{◌≡◌, ℕ, [], ◌∷◌, List, ◌≤◌, Ok};
ghost use Rattle.std.proofs.Common.{rules};
ghost use Rattle.scope.specs.Refusals.{record_told, read_told, write_told, truth_told, decide_told, build_told, spell_told};
ghost use Rattle.figures.specs.Figures.{Leads, placed, read_cells, decide_cells, build_cells, number_in, cells_in};

use scope::{Building, Decision, Question, Record, Refusal, Rule};

// The verdicts.
const REFUSED: u64 = 0;

const FOUND: u64 = 1;

const NEVER: u64 = 2;

const BUILT: u64 = 3;

// What is told: the number, then the cells, 0 where an answer has no value for one.
pub const ALL: usize = 6;

// An answer, or the value of one that refuses nothing.
pub trait Told {
    // So many cells,
    ghost count: { ℕ };

    // the refusal's number,
    ghost number: { Self → ℕ };

    // and what the cells hold.
    ghost cells: { Self → List ℕ };

    fn count() -> usize
        ensures { result ≡ count };

    fn told(&self) -> [u64; ALL]
        ensures { Leads result count (number self.now) (cells self.now) };

    ghost few: { (1 ≤ count) × (count ≤ 5) };
}

fn two(value: u64) -> [u64; ALL]
    ensures { result ≡ 0 ∷ 0 ∷ value ∷ 0 ∷ 0 ∷ 0 ∷ [] }
{
    [0, 0, value, 0, 0, 0]
}

fn four(number: u8, verdict: u64, states: usize, letters: usize) -> [u64; ALL]
    ensures { result ≡ number ∷ 0 ∷ verdict ∷ states ∷ letters ∷ 0 ∷ [] }
{
    [
        u64::from(number),
        0,
        verdict,
        states as u64,
        letters as u64,
        0,
    ]
}

impl Told for Record {
    ghost count = { 5 };

    ghost number = { λ r. (record_told (Ok r)).number };

    ghost cells = { λ r. placed 4 (record_told (Ok r)) };

    fn count() -> usize {
        5
    }

    fn told(&self) -> [u64; ALL] {
        let Record {
            kind,
            start,
            len,
            next,
        } = *self;
        [0, 0, u64::from(kind), start as u64, len as u64, next as u64]
    }

    ghost few = { Prim.search rules };
}

// Of reading: beside the place, n.
impl Told for Question {
    ghost count = { 2 };

    ghost number = { λ q. (read_told (Ok q)).number };

    ghost cells = { λ q. read_cells (Ok q) };

    fn count() -> usize {
        2
    }

    fn told(&self) -> [u64; ALL] {
        two(u64::from(self.n))
    }

    ghost few = { Prim.search rules };
}

// Of writing.
impl Told for usize {
    ghost count = { 2 };

    ghost number = { λ v. (write_told (Ok v)).number };

    ghost cells = { λ v. placed 1 (write_told (Ok v)) };

    fn count() -> usize {
        2
    }

    fn told(&self) -> [u64; ALL] {
        two(*self as u64)
    }

    ghost few = { Prim.search rules };
}

// Of judging and running.
impl Told for bool {
    ghost count = { 2 };

    ghost number = { λ b. (truth_told (Ok b)).number };

    ghost cells = { λ b. placed 1 (truth_told (Ok b)) };

    fn count() -> usize {
        2
    }

    fn told(&self) -> [u64; ALL] {
        two(u64::from(*self))
    }

    ghost few = { Prim.search rules };
}

// Of spelling.
impl Told for u64 {
    ghost count = { 2 };

    ghost number = { λ v. (spell_told (Ok v)).number };

    ghost cells = { λ v. placed 1 (spell_told (Ok v)) };

    fn count() -> usize {
        2
    }

    fn told(&self) -> [u64; ALL] {
        two(*self)
    }

    ghost few = { Prim.search rules };
}

impl Told for Decision {
    ghost count = { 4 };

    ghost number = { λ d. (decide_told (Ok d)).number };

    ghost cells = { λ d. decide_cells (Ok d) };

    fn count() -> usize {
        4
    }

    fn told(&self) -> [u64; ALL] {
        match *self {
            Decision::Found { states, letters } => four(0, FOUND, states, letters),
            Decision::Never { states } => four(0, NEVER, states, 0),
            Decision::NoRoom { states } => four(Rule::NoRoom.number(), REFUSED, states, 0),
            Decision::Short { states, letters } => four(
                Rule::TooShort.number(),
                REFUSED,
                states,
                letters,
            ),
        }
    }

    ghost few = { Prim.search rules };
}

impl Told for Building {
    ghost count = { 4 };

    ghost number = { λ b. (build_told (Ok b)).number };

    ghost cells = { λ b. build_cells (Ok b) };

    fn count() -> usize {
        4
    }

    fn told(&self) -> [u64; ALL] {
        match *self {
            Building::Built { states } => four(0, BUILT, states, 0),
            Building::NoRoom { states } => four(Rule::NoRoom.number(), REFUSED, states, 0),
        }
    }

    ghost few = { Prim.search rules };
}

// Refused: the number and the place, and no value.
impl<T: Told> Told for Result<T, Refusal> {
    ghost count = { T.count };

    ghost number = { number_in T.number };

    ghost cells = { cells_in T.count T.cells };

    fn count() -> usize {
        T::count()
    }

    fn told(&self) -> [u64; ALL] {
        match self {
            Ok(value) => value.told(),
            Err(refusal) => {
                let number = u64::from(refusal.rule.number());
                [number, refusal.place as u64, 0, 0, 0, 0]
            }
        }
    }

    ghost few = { T.few };
}
