// Document 01's bound on the reachable states.
ghost use Rattle.std.specs.Prelude.{◌≤◌};

use crate::sheet::{Atom, Relation, Sheet, Side};

// A bound beyond this is given as this.
const MOST: u64 = 1_000_000;

// How far the entries of an atom go to a side: to its constant there, or to the sum of its coefficients there.
fn reach(side: &Side) -> u64
    ensures { result ≤ 1000000 }
{
    side.coefficients
        .iter()
        .fold(0, |sum: u64, coefficient| sum.saturating_add(*coefficient))
        .max(side.constant)
        .min(MOST)
}

// How many entries an atom has: from min(k, -P) to max(k, N), where no more than one side of k is not zero, and an equation's dead one.
fn entries(atom: &Atom) -> u64 {
    let live = reach(&atom.left) + reach(&atom.right) + 1;
    match atom.relation {
        Relation::Equation => live + 1,
        Relation::AtMost => live,
    }
}

pub fn bound_of(q: &Sheet) -> u64 {
    q.atoms().iter().fold(1, |product: u64, atom| {
        product.saturating_mul(entries(atom)).min(MOST)
    })
}
