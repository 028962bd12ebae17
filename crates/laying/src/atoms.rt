// Comparisons as atoms, from the collected numbers of their sides: the constant first, then a coefficient for each of six names.
ghost use Rattle.std.specs.Prelude.{◌≡◌, true, [], ◌∷◌, ◌+◌, ◌≤◌, ◌<◌, take, drop, T, nat_abs, neg_ℤ, IfErr};
ghost use Rattle.std.proofs.lemmas.List.Edits.{sets};
ghost use Rattle.std.specs.List.{list_all};
ghost use Rattle.scope.specs.Sizes.{most_variables, most_atoms, most_coefficients, most_constant, coefficient_fits, constant_fits};
ghost use Rattle.smtlib.specs.Terms.{most_collected, collected_fit};
ghost use Rattle.smtlib.specs.Formulas.{lowered};
ghost use Rattle.terms.specs.Heads.{word_code};
ghost use Rattle.laying.specs.Laid.{Layable, LaysOr, left_as};
ghost use Rattle.laying.specs.Noted.{relation_of, comparison_code, with_numbers, comparison_laid};

use crate::Laying;
use crate::nodes::{has_room, with_code};
use scope::{Question, Refusal, Rule};
use terms::HeadWord;

const NUMBERS: usize = 7;

fn coefficient_fits(number: i64) -> bool
    ensures { result ≡ coefficient_fits number }
{
    number.unsigned_abs() <= 4_096
}

fn constant_fits(number: i64) -> bool
    ensures { result ≡ constant_fits number }
{
    number.unsigned_abs() <= 1_000_000
}

// Whether each coefficient is within its limit.
fn coefficients_fit(numbers: [i64; NUMBERS]) -> bool
    ensures { result ≡ list_all coefficient_fits (drop 1 numbers) }
{
    // By index: of the list that `numbers[1..].iter()` goes over no element's range is known, and the proof of `all` needs it.
    for i in 1..NUMBERS {
        if !coefficient_fits(numbers[i]) {
            return false;
        }
    }
    true
}

// The constant behind a comparison, on its other side; a strict comparison's is lowered by 1.
fn constant_for(head: HeadWord, collected: i64) -> i64
    requires { (3 ≤ word_code head) × ((word_code head ≤ 7) × (nat_abs collected ≤ most_collected)) }
    ensures { result ≡ lowered (relation_of (word_code head)) (neg_ℤ collected) }
{
    let constant = 0 - collected;
    match head {
        HeadWord::Less | HeadWord::Greater => constant - 1,
        _ => constant,
    }
}

// The code of a comparison: 1 an equation, 2 at most.
fn kind_code(head: HeadWord) -> u8
    ensures { result ≡ comparison_code (word_code head) }
{
    match head {
        HeadWord::Equal => 1,
        _ => 2,
    }
}

fn narrow(number: i64) -> i32
    requires { nat_abs number ≤ most_constant }
    ensures { result ≡ number }
{
    // The limit is the contract's: `i32::try_from` would add a case that cannot come.
    number as i32
}

// The first n coefficients, from a cell on.
fn with_row(
    coefficients: [i32; Question::COEFFICIENTS],
    cell: usize,
    n: usize,
    numbers: [i64; NUMBERS],
) -> [i32; Question::COEFFICIENTS]
    requires { (n ≤ most_variables) × ((cell + n ≤ most_coefficients) × (list_all coefficient_fits (drop 1 numbers) ≡ true)) }
    ensures { result ≡ sets coefficients cell (take n (drop 1 numbers)) }
{
    let mut row = coefficients;
    for i in 0..n {
        row[cell + i] = narrow(numbers[i + 1]);
    }
    row
}

// One atom more: its row and its constant.
fn with_numbers(laying: &mut Laying, numbers: [i64; NUMBERS], constant: i64)
    requires { (laying.old.n ≤ most_variables) × ((laying.old.atoms < most_atoms) × ((list_all coefficient_fits (drop 1 numbers) ≡ true) × (constant_fits constant ≡ true))) }
    ensures { laying.new ≡ with_numbers laying.old (drop 1 numbers) constant }
{
    let atoms = laying.atoms;
    laying.coefficients = with_row(
        laying.coefficients,
        Question::VARIABLES * atoms,
        laying.n,
        numbers,
    );
    laying.constants[atoms] = narrow(constant);
    laying.atoms = atoms + 1;
}

// A comparison by its head, from the collected numbers of its sides: an atom at the depth at hand.
pub fn lay_atom(
    laying: &mut Laying,
    head: HeadWord,
    place: usize,
    numbers: [i64; NUMBERS],
) -> Result<(), Refusal>
    requires { Layable laying.old × ((3 ≤ word_code head) × ((word_code head ≤ 7) × T (collected_fit numbers))) }
    ensures laid { LaysOr (comparison_laid laying.old.depth (word_code head) place numbers ∷ []) laying.old (left_as laying.new result) }
    ensures kept { IfErr result (λ refused. laying.new ≡ laying.old) }
{
    if !has_room(true, laying.nodes, laying.atoms, laying.depth) {
        return Err(Rule::TooMany.at(place));
    }
    if !coefficients_fit(numbers) {
        return Err(Rule::CoefficientBeyond.at(place));
    }
    let constant = constant_for(head, numbers[0]);
    if !constant_fits(constant) {
        return Err(Rule::ConstantBeyond.at(place));
    }
    with_numbers(laying, numbers, constant);
    with_code(laying, kind_code(head));
    Ok(())
}
