// Whether values satisfy a question, in another way than the judge: every term is added on the side where it has no sign, and
// the formula is settled from its last node to its first.
use crate::sheet::{Atom, Node, Relation, Sheet, Side};
use scope::Question;
use std::cmp::Ordering;

// The values of the variables, the constants' value, and 2 to the letters of the word that spells them, where it is short enough.
#[derive(Clone, Copy)]
pub struct Values {
    pub variables: [u64; Question::VARIABLES],
    pub constant: u64,
    pub power: Option<u64>,
}

impl Values {
    // The values that the empty word spells.
    pub const EMPTY: Values = Values {
        variables: [0; Question::VARIABLES],
        constant: 1,
        power: Some(1),
    };
}

// A sum with what one side of an atom makes of the values.
pub fn weighed(start: u64, side: &Side, values: &Values) -> u64 {
    let constant = side.constant.saturating_mul(values.constant);
    side.coefficients.iter().zip(&values.variables).fold(
        start.saturating_add(constant),
        |sum, (coefficient, value)| { sum.saturating_add(coefficient.saturating_mul(*value)) },
    )
}

// The sums of an atom's sides.
pub fn sides_of(atom: &Atom, values: &Values) -> (u64, u64) {
    (
        weighed(0, &atom.left, values),
        weighed(0, &atom.right, values),
    )
}

impl Relation {
    // Whether it holds of sides in an order.
    fn holds(self, order: Ordering) -> bool {
        match self {
            Relation::Equation => order == Ordering::Equal,
            Relation::AtMost => order != Ordering::Greater,
        }
    }
}

// Truths, the last one pushed lowest.
#[derive(Drop)]
struct Truths {
    bits: u64,
}

impl Truths {
    fn push(&mut self, truth: bool) {
        let kept = self.bits % 4_294_967_296 * 2;
        self.bits = if truth { kept + 1 } else { kept };
    }

    fn pop(&mut self) -> bool {
        let last = self.bits % 2 == 1;
        self.bits /= 2;
        last
    }
}

// Joins the parts of a node to its truth; an atom's is the last of those left.
fn join(node: Node, parts: &mut Truths, atoms: &mut Truths) {
    let truth = match node {
        Node::Atom(_) => atoms.pop(),
        Node::Not => !parts.pop(),
        Node::And => parts.pop() & parts.pop(),
        Node::Or => parts.pop() | parts.pop(),
    };
    parts.push(truth);
}

// The formula's truth, by the order of each atom's sides.
pub fn satisfied_by<F: Fn(&Atom) -> Ordering>(q: &Sheet, order: F) -> bool
    requires { F.IsAlwaysCallable order }
{
    let mut atoms = Truths { bits: 0 };
    for atom in q.atoms() {
        atoms.push(atom.relation.holds(order(atom)));
    }
    let mut parts = Truths { bits: 0 };
    for node in q.nodes().iter().rev() {
        join(*node, &mut parts, &mut atoms);
    }
    parts.pop()
}

// Whether values, and 1 for the constants, satisfy the question.
pub fn satisfied(q: &Sheet, values: &Values) -> bool {
    satisfied_by(q, |atom| {
        let (left, right) = sides_of(atom, values);
        left.cmp(&right)
    })
}
