// The seven numbers of a term: differences, multiples, and sums of any number of terms.
ghost use Rattle.std.specs.Prelude.{◌≡◌, ◌≤◌, T, nat_abs};
ghost use Rattle.smtlib.specs.Terms.{most_numeral, most_collected, less, scaled, collected_fit};
ghost use Rattle.terms.specs.Seven.{most_low, LaneFits, LaneAdded, LaneFlat, LowFits, SumFits, SumAdded, SumFlat};

use crate::NUMBERS;

// A sum: each number is low + high * 2^50, the low part at most 2^49 either way.
#[derive(Clone, Copy)]
pub struct Sum {
    pub low: [i64; NUMBERS],
    pub high: [i64; NUMBERS],
}

// One number of a sum.
#[derive(Clone, Copy)]
struct Lane {
    low: i64,
    high: i64,
}

const HIGH_UNIT: i64 = 1_125_899_906_842_624;

const MOST_LOW: i64 = 562_949_953_421_312;

const LEAST_LOW: i64 = -562_949_953_421_312;

const MOST_COLLECTED: u64 = 1_099_511_627_776;

// A number of a sum with a part added to it.
fn added_lane(low: i64, high: i64, part: i64) -> Lane
    requires { LaneFits low high × (nat_abs part ≤ most_collected) }
    ensures { LaneAdded low high part result.low result.high }
{
    let sum = low + part;
    if MOST_LOW < sum {
        return Lane {
            low: sum - HIGH_UNIT,
            high: high + 1,
        };
    }
    if sum < LEAST_LOW {
        return Lane {
            low: sum + HIGH_UNIT,
            high: high - 1,
        };
    }
    Lane { low: sum, high }
}

// A sum with a part added to it.
pub fn added(sum: Sum, part: [i64; NUMBERS]) -> Sum
    requires { SumFits sum.low sum.high × T (collected_fit part) }
    ensures { SumAdded sum.low sum.high part result.low result.high }
{
    let mut low = sum.low;
    let mut high = sum.high;
    for i in 0..NUMBERS {
        let lane = added_lane(low[i], high[i], part[i]);
        low[i] = lane.low;
        high[i] = lane.high;
    }
    Sum { low, high }
}

// Whether every number is at most 2^40 either way.
pub fn within(numbers: [i64; NUMBERS]) -> bool
    ensures { result ≡ collected_fit numbers }
{
    numbers
        .iter()
        .all(|number| number.unsigned_abs() <= MOST_COLLECTED)
}

// A number of a sum: one beyond the limit stands for any other beyond it.
fn flat_lane(low: i64, high: i64) -> i64
    requires { nat_abs low ≤ most_low }
    ensures { LaneFlat low high result }
{
    if high == 0 { low } else { HIGH_UNIT }
}

// The numbers of a sum: one beyond the limit stands for any other beyond it.
pub fn flat(sum: Sum) -> [i64; NUMBERS]
    requires { LowFits sum.low }
    ensures { SumFlat sum.low sum.high result }
{
    let low = sum.low;
    let high = sum.high;
    let mut numbers = [0i64; NUMBERS];
    for i in 0..NUMBERS {
        numbers[i] = flat_lane(low[i], high[i]);
    }
    numbers
}

// One term less another.
pub fn difference(first: [i64; NUMBERS], second: [i64; NUMBERS]) -> [i64; NUMBERS]
    requires { T (collected_fit first) × T (collected_fit second) }
    ensures { result ≡ less first second }
{
    let mut numbers = [0i64; NUMBERS];
    for i in 0..NUMBERS {
        numbers[i] = first[i] - second[i];
    }
    numbers
}

// So many times a term.
pub fn multiple(factor: i64, of: [i64; NUMBERS]) -> [i64; NUMBERS]
    requires { (nat_abs factor ≤ most_numeral) × T (collected_fit of) }
    ensures { result ≡ scaled factor of }
{
    let mut numbers = [0i64; NUMBERS];
    for i in 0..NUMBERS {
        numbers[i] = factor * of[i];
    }
    numbers
}
