// The parts of a list, one after the other, and what they are together by the list's head.
ghost use Rattle.std.specs.Prelude.{◌≡◌, ◌||◌, true, List, [], ◌∷◌, ◌++◌, suc, ◌≤◌, ◌<◌};
ghost use Rattle.smtlib.specs.Terms.{Head, Term, less};
ghost use Rattle.terms.specs.Heads.{word_code, head_code};
ghost use Rattle.terms.specs.Gathered.{gathered, shapely_at, product_with};
ghost use Rattle.terms.specs.Seven.{SumFits};
ghost use Rattle.terms.specs.Read.{TermSays};
ghost use Rattle.terms.specs.Gathering.{PartFits, PieceFits, GatheringFits, Gathers, NumbersBy};

use crate::sums::{Sum, added, difference, flat, multiple, within};
use crate::{Collected, HeadWord, NUMBERS};
use lexicon::{Spot, lower};

// A part's numbers, and whether it is a numeral.
#[derive(Clone, Copy)]
pub struct Piece {
    pub numeric: bool,
    pub numbers: [i64; NUMBERS],
}

// How many parts there are, three for more; the sum of all of them; the first one, and the last one behind it; the lowest fault of all of them.
#[derive(Clone, Copy)]
pub struct Gathering {
    pub count: usize,
    pub sum: Sum,
    pub first: Piece,
    pub second: Piece,
    pub fault: Spot,
}

impl Gathering {
    pub fn none() -> Gathering
        ensures fits { GatheringFits result }
        ensures gathers { Gathers [] result }
    {
        let sum = Sum {
            low: [0; NUMBERS],
            high: [0; NUMBERS],
        };
        let fault = None;
        let piece = Piece {
            numeric: false,
            numbers: [0; NUMBERS],
        };
        Gathering {
            count: 0,
            sum,
            first: piece,
            second: piece,
            fault,
        }
    }
}

// One part more.
fn next_count(count: usize) -> usize
    ensures { (count < 3 → result ≡ suc count) × (3 ≤ count → result ≡ 3) }
{
    if count < 3 { count + 1 } else { 3 }
}

// With a part behind the others.
pub fn gather(g: Gathering, part: Collected) -> Gathering
    requires { GatheringFits g × (SumFits g.sum.low g.sum.high × PartFits part) }
    ensures fits { GatheringFits result }
    ensures gathers { (ts : List Term) (t : Term) → Gathers ts g → TermSays t part → Gathers (ts ++ (t ∷ [])) result }
{
    let numbers = part.numbers;
    let old = g.sum;
    let sum = added(old, numbers);
    let earlier = g.fault;
    let later = part.fault;
    let fault = lower(earlier, later);
    let count = next_count(g.count);
    let second = Piece {
        numeric: part.numeric,
        numbers,
    };
    let first = g.first;
    if g.count == 0 {
        return Gathering {
            count,
            sum,
            first: second,
            second,
            fault,
        };
    }
    Gathering {
        count,
        sum,
        first,
        second,
        fault,
    }
}

// Whether a list with this head has so many parts; numeral: whether one of two is a numeral.
fn is_shapely(head: HeadWord, count: usize, numeral: bool) -> bool
    ensures { result ≡ shapely_at (word_code head) count numeral }
{
    match head {
        HeadWord::Plus => 2 <= count,
        HeadWord::Minus => (count == 1) | (count == 2),
        HeadWord::Times => numeral & (count == 2),
        _ => count == 2,
    }
}

// The product of two parts, one of them a numeral.
fn product(first: Piece, second: Piece) -> [i64; NUMBERS]
    requires { PieceFits first × (PieceFits second × ((first.numeric || second.numeric) ≡ true)) }
    ensures { result ≡ product_with first.numeric first.numbers second.numbers }
{
    let left = first.numbers;
    let right = second.numbers;
    if first.numeric {
        return multiple(left[0], right);
    }
    multiple(right[0], left)
}

// One part less another.
fn less(first: Piece, second: Piece) -> [i64; NUMBERS]
    requires { PieceFits first × PieceFits second }
    ensures { result ≡ less first.numbers second.numbers }
{
    let left = first.numbers;
    let right = second.numbers;
    difference(left, right)
}

// The numbers of the whole list: one beyond the limit stands for any other beyond it.
fn numbers_by(head: HeadWord, g: Gathering) -> [i64; NUMBERS]
    requires { GatheringFits g × (word_code head ≡ 2 → (g.first.numeric || g.second.numeric) ≡ true) }
    ensures { NumbersBy (word_code head) g result }
{
    let first = g.first;
    let second = g.second;
    match head {
        HeadWord::Plus => flat(g.sum),
        HeadWord::Times => product(first, second),
        HeadWord::Minus => {
            if g.count == 1 {
                return difference([0; NUMBERS], first.numbers);
            }
            less(first, second)
        }
        HeadWord::Equal | HeadWord::AtMost | HeadWord::Less => less(first, second),
        _ => less(second, first),
    }
}

// What the parts are together, at the list's place.
pub fn settled(head: HeadWord, place: usize, g: Gathering) -> Collected
    requires { GatheringFits g }
    ensures { (h : Head) (ts : List Term) → word_code head ≡ head_code h → word_code head ≤ 7 → Gathers ts g → TermSays (gathered h place ts) result }
{
    let first = g.first;
    let second = g.second;
    if !is_shapely(head, g.count, first.numeric | second.numeric) {
        return Collected::outside(place);
    }
    if g.fault.is_some() {
        return Collected::faulty(false, g.fault);
    }
    let numbers = numbers_by(head, g);
    if within(numbers) {
        return Collected::of(false, numbers);
    }
    Collected::outside(place)
}
