// The two searches: for the first word in order that satisfies, and for tuples of small values that do.
ghost use Rattle.std.specs.Prelude.{◌≤◌, ◌<◌};

use crate::chance::Chance;
use crate::plain::{Values, satisfied};
use crate::sheet::Sheet;
use crate::spelled::Short;

// Half the digits of the largest value that is judged.
const HALF: u64 = 1_048_576;

// The words that are tried at most.
pub const WORDS: u64 = 1_500;

// The number of the first word that satisfies, where one of those tried does.
pub fn first_number(q: &Sheet) -> Option<u64> {
    let letters = q.letters();
    (0..WORDS).find(|number| {
        satisfied(q, &Values::of(Short::numbered(*number, letters).as_slice()))
    })
}

// How many small values are tried for each variable.
fn small_values(n: usize) -> u64
    ensures { 0 < result }
{
    match n {
        1 => 1_024,
        2 => 32,
        3 => 10,
        4 => 5,
        5 => 4,
        _ => 3,
    }
}

// How many tuples of small values there are.
pub fn tuples_of(n: usize) -> u64
    ensures { result ≤ 1024 }
{
    match n {
        3 => 1_000,
        4 => 625,
        6 => 729,
        _ => 1_024,
    }
}

// The tuple of a number, the first variable fastest.
pub fn tuple_at(number: u64, n: usize) -> Values {
    let mut values = Values::EMPTY;
    let base = small_values(n);
    let mut rest = number;
    for value in values.variables.iter_mut() {
        *value = rest % base;
        rest /= base;
    }
    values
}

// How many tuples of small values satisfy. Each is tried, as the count of those that were says.
pub fn tuples_satisfied(q: &Sheet) -> usize {
    (0..tuples_of(q.variables))
        .filter(|number| satisfied(q, &tuple_at(*number, q.variables)))
        .count()
}

// A tuple by chance of values up to the judge's limit.
pub fn large_tuple(chance: &mut Chance) -> Values {
    let mut values = Values::EMPTY;
    for value in values.variables.iter_mut() {
        let high = chance.below(HALF);
        *value = HALF * high + chance.below(HALF);
    }
    values
}
