// Judging: whether a tuple of values satisfies a question, in whole-number arithmetic.
#![tactic(auto)]

ghost use Rattle.std.specs.Prelude.{◌≡◌, ℕ, ◌*◌, ◌≤◌, ◌<◌, get_or, pos, nat_abs, ◌*ℤ◌, leb};
ghost use Rattle.std.specs.List.{list_all};
ghost use Rattle.scope.specs.Sizes.{most_coefficient, most_value, most_atoms, most_variables};
ghost use Rattle.scope.specs.States.{dot, compares, satisfied};
ghost use Rattle.judge.specs.Sums.{coefficients_from, Summable};
ghost use Rattle.judge.specs.Atoms.{Judgeable, Worths};
ghost use Rattle.theory.specs.Wire.Accepted.{WithinLimits};
ghost use Rattle.scope.specs.Judging.{judged_question, judged};
ghost use Rattle.theory.specs.Wire.Records.{kind_of_code};

use formula::{truth_at, truths_of};
use scope::{Question, Refusal, Rule, is_atom};

// A coefficient times a value.
fn product(a: i32, x: u64) -> i64
    requires { (nat_abs a ≤ most_coefficient) × (x ≤ most_value) }
    ensures { result ≡ a *ℤ pos x }
{
    i64::from(a) * (x as i64)
}

// The sum of a_j x_j, where the coefficients stand from a place on: from the last variable on.
fn sum_at(coefficients: &[i32; Question::COEFFICIENTS], at: usize, values: &[u64]) -> i64
    requires { Summable coefficients.now at values.now }
    ensures { result ≡ dot (coefficients_from coefficients.now at values.now) values.now }
{
    let mut s: i64 = 0;
    for j in (0..values.len()).rev() {
        s = product(coefficients[at + j], values[j]) + s;
    }
    s
}

// Whether a sum stands to a constant as an atom's kind says: an equation's code is 1.
fn stands(code: u8, sum: i64, constant: i32) -> bool
    ensures { result ≡ compares (kind_of_code code) sum constant }
{
    let k = i64::from(constant);
    match code {
        1 => sum == k,
        _ => sum <= k,
    }
}

// Whether an atom holds for the values, by its code and its number.
fn holds(question: &Question, code: u8, atom: usize, values: &[u64]) -> bool
    requires { (atom < most_atoms) × Summable question.now.coefficients (most_variables * atom) values.now }
    ensures { result ≡ compares (kind_of_code code) (dot (coefficients_from question.now.coefficients (most_variables * atom) values.now) values.now) (get_or question.now.constants atom (pos 0)) }
{
    let sum = sum_at(&question.coefficients, Question::VARIABLES * atom, values);
    stands(code, sum, question.constants[atom])
}

// What each atom is worth to the values.
fn worths_of(question: &Question, values: &[u64]) -> [bool; Question::ATOMS]
    requires { Judgeable question.now values.now }
    ensures { Worths question.now values.now result }
{
    let mut worths = [false; Question::ATOMS];
    let mut atom = 0;
    for &code in &question.codes {
        if is_atom(code) {
            worths[atom] = holds(question, code, atom, values);
            atom += 1;
        }
    }
    worths
}

// Whether the values satisfy an accepted question.
fn satisfies(question: &Question, values: &[u64]) -> bool
    requires { Judgeable question.now values.now }
    ensures { result ≡ satisfied question.now values.now }
{
    truth_at(truths_of(&question.codes), worths_of(question, values))
}

// Whether every value is within the judge's limit.
fn values_fit(values: &[u64]) -> bool
    ensures { result ≡ list_all (λ (v : ℕ). leb v most_value) values.now }
{
    values.iter().all(|&value| value <= Question::VALUE)
}

// Judges a tuple of values by an accepted question.
fn judge_question(question: &Question, values: &[u64]) -> Result<bool, Refusal>
    requires { WithinLimits question.now }
    ensures { result ≡ judged_question question.now values.now }
{
    if values.len() != usize::from(question.n) || !values_fit(values) {
        return Err(Rule::Values.at(0));
    }
    Ok(satisfies(question, values))
}

// Judges a tuple of values by a question's bytes, which are read first.
pub fn judge(bytes: &[u8], values: &[u64]) -> Result<bool, Refusal>
    ensures { result ≡ judged bytes.now values.now }
{
    let mut question = Question::empty();
    reading::read_into(bytes, &mut question)?;
    judge_question(&question, values)
}
