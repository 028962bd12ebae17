// A sheet by chance, with so many variables and atoms, and words by chance.
ghost use Rattle.std.specs.Prelude.{◌≤◌, ◌<◌};

use crate::chance::Chance;
use crate::sheet::{Atom, Node, Relation, Sheet, Side};
use scope::Question;

// The nots of a formula at most: under these and its ands and ors, one fewer than its atoms, no part is too deep.
const NOTS: usize = 8;

// The letters of a long word at most.
pub const LONG: usize = 400;

// Where a formula stands: the parts due, and the atoms and the nots so far.
#[derive(Drop)]
struct Standing {
    due: usize,
    atoms: usize,
    nots: usize,
}

impl Standing {
    // A node that is due: a not now and then, an atom where there are no more than the parts that need one each, and no atom that
    // would end the formula before its last.
    fn node(&self, m: usize, chance: &mut Chance) -> Node {
        let drawn = chance.below(6);
        let first = chance.below(2) == 0;
        let joins = self.due.saturating_add(self.atoms) < m && (self.due == 1 || drawn % 2 == 0);
        if drawn == 0 && self.nots < NOTS {
            return Node::Not;
        }
        match (joins, first) {
            (true, true) => Node::And,
            (true, false) => Node::Or,
            (false, true) => Node::Atom(Relation::Equation),
            (false, false) => Node::Atom(Relation::AtMost),
        }
    }

    // An atom is a part that was due, and an and or an or has two parts for one.
    fn add(&mut self, node: Node) {
        match node {
            Node::Atom(_) => {
                self.due = self.due.saturating_sub(1);
                self.atoms = self.atoms.saturating_add(1);
            }
            Node::Not => self.nots = self.nots.saturating_add(1),
            Node::And | Node::Or => self.due = self.due.saturating_add(1),
        }
    }
}

// Draws the nodes of a formula, each connective before its parts.
fn draw_formula(m: usize, chance: &mut Chance, q: &mut Sheet) {
    let mut standing = Standing {
        due: 1,
        atoms: 0,
        nots: 0,
    };
    for i in 0..Question::NODES {
        if standing.due == 0 {
            break;
        }
        let node = standing.node(m, chance);
        if let Node::Atom(relation) = node {
            q.rows[standing.atoms % Question::ATOMS].relation = relation;
        }
        standing.add(node);
        q.formula[i] = node;
        q.size = i + 1;
    }
}

// How large the numbers of a question are.
#[derive(Clone, Copy)]
struct Scale {
    constant: u64,
    coefficient: u64,
}

fn draw_scale(chance: &mut Chance) -> Scale
    ensures coefficient { result.coefficient ≤ 1000000 }
    ensures constant { result.constant ≤ 1000000 }
{
    let (constant, coefficient) = match chance.below(7) {
        0..=2 => (2, 1),
        3..=4 => (9, 2),
        5 => (40, 7),
        _ => (1_000_000, 4_096),
    };
    Scale {
        constant,
        coefficient,
    }
}

// Draws a number of so much at most, which stands on one side.
fn draw_number(most: u64, chance: &mut Chance) -> (u64, u64)
    requires { most ≤ 1000000 }
{
    let number = chance.below(2 * most + 1);
    if most < number {
        (0, number - most)
    } else {
        (number, 0)
    }
}

// Draws the sides of an atom.
fn draw_sides(n: usize, scale: &Scale, chance: &mut Chance) -> (Side, Side)
    requires variables { n ≤ 6 }
    requires coefficient { scale.now.coefficient ≤ 1000000 }
    requires constant { scale.now.constant ≤ 1000000 }
{
    let mut left = Side::EMPTY;
    let mut right = Side::EMPTY;
    for i in 0..n {
        let (plus, minus) = draw_number(scale.coefficient, chance);
        left.coefficients[i] = plus;
        right.coefficients[i] = minus;
    }
    let (plus, minus) = draw_number(scale.constant, chance);
    left.constant = plus;
    right.constant = minus;
    (left, right)
}

// Draws a sheet.
pub fn draw(n: usize, m: usize, chance: &mut Chance) -> Sheet
    requires { n ≤ 6 }
{
    let mut q = Sheet {
        variables: n,
        m,
        rows: [Atom::EMPTY; Question::ATOMS],
        size: 0,
        formula: [Node::Not; Question::NODES],
    };
    draw_formula(m, chance, &mut q);
    let scale = draw_scale(chance);
    for atom in q.rows.iter_mut().take(m) {
        let (left, right) = draw_sides(n, &scale, chance);
        atom.left = left;
        atom.right = right;
    }
    q
}

// How the letters of a long word are drawn.
#[derive(Clone, Copy, PartialEq, Eq, Debug)]
pub enum Drawing {
    ByChance,
    // The first letter or the last.
    AtEnds,
    // By chance up to some place, and then the first letter or the last.
    ThenFirst,
    ThenLast,
}

impl Drawing {
    pub const ALL: [Drawing; 4] = [
        Drawing::ByChance,
        Drawing::AtEnds,
        Drawing::ThenFirst,
        Drawing::ThenLast,
    ];

    fn letter(self, i: usize, drawn: u64, last: u64) -> u64 {
        match self {
            Drawing::ByChance => drawn,
            Drawing::AtEnds => if drawn % 2 == 0 { 0 } else { last },
            Drawing::ThenFirst => if i < 6 { drawn } else { 0 },
            Drawing::ThenLast => if i < 40 { drawn } else { last },
        }
    }
}

// Draws a word into the room lent for it.
pub fn draw_word<'a>(
    drawing: Drawing,
    letters: usize,
    chance: &mut Chance,
    room: &'a mut [u8; LONG],
) -> &'a [u8]
    requires letters_nonzero { 0 < letters }
    requires letters_bound { letters ≤ 64 }
{
    let len = chance.below(LONG as u64) as usize;
    for (i, cell) in room.iter_mut().take(len).enumerate() {
        let letter = drawing.letter(i, chance.below(letters as u64), letters as u64 - 1);
        *cell = (letter % 64) as u8;
    }
    &room[..len]
}
