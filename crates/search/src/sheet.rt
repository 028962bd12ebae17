// A question without signs: every term of an atom stands on the side where it is added.
ghost use Rattle.std.specs.Prelude.{◌≤◌};

use scope::Question;

// The sign between an atom's sides.
#[derive(Clone, Copy, PartialEq, Eq, Debug)]
pub enum Relation {
    Equation,
    AtMost,
}

// A node of the formula.
#[derive(Clone, Copy, PartialEq, Eq, Debug)]
pub enum Node {
    Atom(Relation),
    Not,
    And,
    Or,
}

// A node's code in a held question.
impl From<Node> for u8 {
    fn from(node: Node) -> u8 {
        match node {
            Node::Atom(Relation::Equation) => 1,
            Node::Atom(Relation::AtMost) => 2,
            Node::Not => 3,
            Node::And => 4,
            Node::Or => 5,
        }
    }
}

// What is added on one side of an atom.
#[derive(Clone, Copy)]
pub struct Side {
    pub coefficients: [u64; Question::VARIABLES],
    pub constant: u64,
}

impl Side {
    pub const EMPTY: Side = Side {
        coefficients: [0; Question::VARIABLES],
        constant: 0,
    };
}

#[derive(Clone, Copy)]
pub struct Atom {
    pub relation: Relation,
    pub left: Side,
    pub right: Side,
}

impl Atom {
    pub const EMPTY: Atom = Atom {
        relation: Relation::Equation,
        left: Side::EMPTY,
        right: Side::EMPTY,
    };
}

// The atoms and the nodes, each before its parts, of which the first so many count.
#[derive(Drop)]
pub struct Sheet {
    pub variables: usize,
    pub m: usize,
    pub rows: [Atom; Question::ATOMS],
    pub size: usize,
    pub formula: [Node; Question::NODES],
    ghost few: { variables ≤ 6 },
}

impl Sheet {
    pub fn atoms(&self) -> &[Atom] {
        self.rows.get(..self.m).unwrap_or(&[])
    }

    pub fn nodes(&self) -> &[Node] {
        self.formula.get(..self.size).unwrap_or(&[])
    }

    // How many letters its words are of.
    pub fn letters(&self) -> usize
        ensures { (1 ≤ result) × (result ≤ 64) }
    {
        scope::letters(self.variables)
    }
}
