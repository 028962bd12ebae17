// The numbers of an atom that is held: checked, and put into its body.
ghost use Rattle.std.specs.Prelude.{◌≡◌, ◌+◌, ◌*◌, ◌≤◌, length};
ghost use Rattle.std.specs.List.{list_all};
ghost use Rattle.std.proofs.lemmas.List.Edits.{sets};
ghost use Rattle.scope.specs.Sizes.{coefficient_fits};
ghost use Rattle.scope.specs.Question.{coefficients_of, constant_of};
ghost use Rattle.scope.specs.Writing.{atom_body};
ghost use Rattle.records.specs.Parts.{AtomHeld};
ghost use Rattle.fields.specs.Fields.{numbers_answer};

use records::{coefficient_fits, constant_fits};
use scope::{Question, Refusal, Rule};
use whole::put_number;

fn row_fits(row: &[i32]) -> bool
    ensures { result ≡ list_all coefficient_fits row.now }
{
    row.iter().all(|&number| coefficient_fits(number))
}

// The numbers of an atom: one beyond its limit is refused at the node.
pub fn atom_at(question: &Question, atom: usize, node: usize, code: u8) -> Result<u8, Refusal>
    requires { AtomHeld question.now atom }
    ensures { result ≡ numbers_answer question.now atom node code }
{
    let first = Question::VARIABLES * atom;
    let row = &question.coefficients[first..first + usize::from(question.n)];
    if !row_fits(row) {
        return Err(Rule::CoefficientBeyond.at(node));
    }
    if !constant_fits(question.constants[atom]) {
        return Err(Rule::ConstantBeyond.at(node));
    }
    Ok(code)
}

// The body of an atom.
pub fn put_atom(question: &Question, atom: usize, bytes: &mut [u8], at: usize)
    requires { AtomHeld question.now atom × (at + 4 * (question.now.n + 1) ≤ length bytes.old) }
    ensures { bytes.new ≡ sets bytes.old at (atom_body (coefficients_of question.now atom) (constant_of question.now atom)) }
{
    let n = usize::from(question.n);
    let row = Question::VARIABLES * atom;
    for j in 0..n {
        put_number(bytes, at + 4 * j, question.coefficients[row + j]);
    }
    put_number(bytes, at + 4 * n, question.constants[atom]);
}
