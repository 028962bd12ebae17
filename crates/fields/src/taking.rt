// The numbers of an atom, taken from its body.
ghost use Rattle.std.specs.Prelude.{◌+◌, ◌*◌, ◌≤◌, length};
ghost use Rattle.scope.specs.Wire.{number_at, numbers_at};
ghost use Rattle.records.specs.Parts.{AtomHeld};
ghost use Rattle.fields.specs.Fields.{RowTaken, AtomTaken};

use records::{coefficient_fits, constant_fits};
use scope::{Question, Refusal, Rule};
use whole::number_at;

// The n coefficients from a byte on are put from a cell on, up to the first that is beyond its limit: its index is the answer.
fn take_row(
    bytes: &[u8],
    start: usize,
    n: usize,
    coefficients: &mut [i32],
    cell: usize,
) -> Option<usize>
    requires { (start + 4 * n ≤ length bytes.now) × (cell + n ≤ length coefficients.old) }
    ensures { RowTaken (numbers_at n bytes.now start) cell coefficients.old result coefficients.new }
{
    for i in 0..n {
        let number = number_at(bytes, start + 4 * i);
        if !coefficient_fits(number) {
            return Some(i);
        }
        coefficients[cell + i] = number;
    }
    None
}

// The numbers of an atom, whose record starts at a byte: the first beyond its limit is refused at its own first byte.
pub fn take_atom(
    bytes: &[u8],
    at: usize,
    code: u8,
    atom: usize,
    question: &mut Question,
) -> Result<u8, Refusal>
    requires { AtomHeld question.old atom × (at + 4 + 4 * (question.old.n + 1) ≤ length bytes.now) }
    ensures { AtomTaken (numbers_at question.old.n bytes.now (at + 4)) (number_at bytes.now (at + 4 + 4 * question.old.n)) (at + 4) code atom question.old result question.new }
{
    let start = at + 4;
    let n = usize::from(question.n);
    let constant = number_at(bytes, start + 4 * n);
    question.constants[atom] = constant;
    let row = Question::VARIABLES * atom;
    if let Some(beyond) = take_row(bytes, start, n, &mut question.coefficients, row) {
        return Err(Rule::CoefficientBeyond.at(start + 4 * beyond));
    }
    if !constant_fits(constant) {
        return Err(Rule::ConstantBeyond.at(start + 4 * n));
    }
    Ok(code)
}
