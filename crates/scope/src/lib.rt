// The question, its limits, the refusal and the answers of every public call, as document 01 has them.
// What the calls must do is defined in specs/; the calls themselves are in the crates above.
#![tactic(auto)]

ghost use Rattle.std.specs.Prelude.{◌≡◌, ◌^◌, ◌≤◌};
ghost use Rattle.scope.specs.Sizes.{limits, most_letters, most_variables};
ghost use Rattle.scope.specs.Question.{node_of, is_atom, empty_question};
ghost use Rattle.scope.specs.Refusals.{rule_number, refusal};

// A held question. Unused entries are zero.
#[derive(Clone, Copy)]
pub struct Question {
    pub n: u8,
    // In the formula's order: 0 unused, 1 equation, 2 at most, 3 not, 4 and, 5 or.
    pub codes: [u8; Question::NODES],
    // Row i of six, from 6 * i on, has the coefficients of atom i.
    pub coefficients: [i32; Question::COEFFICIENTS],
    pub constants: [i32; Question::ATOMS],
}

impl Question {
    pub const VARIABLES: usize = 6;

    pub const ATOMS: usize = 8;

    pub const NODES: usize = 64;

    pub const DEPTH: usize = 16;

    pub const COEFFICIENT: i32 = 4_096;

    pub const CONSTANT: i32 = 1_000_000;

    pub const VALUE: u64 = 1_099_511_627_775;

    pub const STATES: usize = 65_535;

    // The bytes of the longest question: the head, every node's header, every atom's numbers, the end.
    pub const BYTES: usize = 5 + 4 * Self::NODES + 4 * (Self::VARIABLES + 1) * Self::ATOMS + 4;

    // The coefficients of all atoms, a row of `VARIABLES` for each.
    pub const COEFFICIENTS: usize = Self::VARIABLES * Self::ATOMS;

    // A letter has one binary digit of every variable.
    pub const LETTERS: usize = 1 << Self::VARIABLES;

    // The empty held question.
    pub fn empty() -> Self
        ensures { result ≡ empty_question }
    {
        Question {
            n: 0,
            codes: [0u8; Self::NODES],
            coefficients: [0i32; Self::COEFFICIENTS],
            constants: [0i32; Self::ATOMS],
        }
    }

    // The limits by name: the constants above are those of the definitions.
    pub fn limits() -> Limits
        ensures { result ≡ limits }
    {
        Limits {
            variables: Self::VARIABLES,
            atoms: Self::ATOMS,
            nodes: Self::NODES,
            depth: Self::DEPTH,
            coefficient: Self::COEFFICIENT,
            constant: Self::CONSTANT,
            value: Self::VALUE,
            states: Self::STATES,
            bytes: Self::BYTES,
        }
    }
}

// Whether a node code is that of an atom.
pub fn is_atom(code: u8) -> bool
    ensures { result ≡ is_atom (node_of code) }
{
    code == 1 || code == 2
}

// How many letters there are for so many variables.
pub fn letters(n: usize) -> usize
    requires { n ≤ most_variables }
    ensures { (result ≡ 2 ^ n) × (result ≤ most_letters) }
{
    1 << n
}

// Each limit of a question, as a value.
#[derive(Clone, Copy)]
pub struct Limits {
    pub variables: usize,
    pub atoms: usize,
    pub nodes: usize,
    pub depth: usize,
    pub coefficient: i32,
    pub constant: i32,
    pub value: u64,
    pub states: usize,
    pub bytes: usize,
}

// The rules of the documents that a call is refused by, each with its number.
#[derive(Clone, Copy, PartialEq, Eq, Debug)]
pub enum Rule {
    BytesEnd = 1,
    NotDue = 2,
    BodyLength = 3,
    BeyondLimit = 4,
    TooMany = 5,
    LeftOver = 6,
    NoRoom = 7,
    TooShort = 8,
    Values = 9,
    Letter = 10,
    Table = 11,
    CoefficientBeyond = 12,
    ConstantBeyond = 13,
    NotWellFormed = 14,
    OutsideSubset = 15,
}

impl Rule {
    pub fn number(self) -> u8
        ensures { result ≡ rule_number self }
    {
        self as u8
    }

    // Broken at a place.
    pub fn at(self, place: usize) -> Refusal
        ensures { result ≡ refusal self place }
    {
        Refusal { rule: self, place }
    }
}

// Why a call was refused: the rule that was broken, and the place.
#[derive(Clone, Copy, PartialEq, Eq, Debug)]
pub struct Refusal {
    pub rule: Rule,
    pub place: usize,
}

// A record: its kind, where the body starts, its length, and where the next record starts.
#[derive(Clone, Copy, PartialEq, Eq, Debug)]
pub struct Record {
    pub kind: u16,
    pub start: usize,
    pub len: usize,
    pub next: usize,
}

// What deciding says: the states counted and, for found, the letters of the word. Short: the word buffer is too short for it.
#[derive(Clone, Copy, PartialEq, Eq, Debug)]
pub enum Decision {
    Found { states: usize, letters: usize },
    Never { states: usize },
    NoRoom { states: usize },
    Short { states: usize, letters: usize },
}

// What building says: the states counted.
#[derive(Clone, Copy, PartialEq, Eq, Debug)]
pub enum Building {
    Built { states: usize },
    NoRoom { states: usize },
}
