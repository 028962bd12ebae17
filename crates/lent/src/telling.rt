// What an exported call tells of its answer: the refusal's number, which it returns, and the cells of `told`.
ghost use Rattle.std.specs.Prelude.{◌≡◌};
ghost use Rattle.std.proofs.lemmas.List.Edits.{sets};
ghost use Rattle.scope.specs.Refusals.{read_told};
ghost use Rattle.figures.specs.Figures.{import_cells};
ghost use Rattle.lent.specs.Told.{Tells};

use crate::lending::copy;
use figures::Told;
use scope::{Question, Refusal};

// The cell of the first name: behind the place and n.
const NAMES: usize = 2;

// Puts the cells of an answer, as far as cells are lent. It returns the number.
pub fn tell<A: Told>(answer: &A, told: &mut [u64]) -> u64
    ensures { Tells (A.number answer.now) (A.cells answer.now) told.old result told.new }
{
    let all = answer.told();
    copy(&all[1..1 + A::count()], told);
    all[0]
}

// Puts the bounds of the names from the third cell on, as far as cells are lent.
fn put_names(names: &[usize], told: &mut [u64])
    ensures { told.new ≡ sets told.old 2 names.now }
{
    let count = names.len().min(told.len().saturating_sub(NAMES));
    for (i, &name) in names[..count].iter().enumerate() {
        told[NAMES + i] = name as u64;
    }
}

// Of an import: what is told of a question that was read, and behind it the bounds of the names. Beside `tell`, since these are more cells than any answer of its own has.
pub fn tell_import(answer: &Result<Question, Refusal>, names: &[usize], told: &mut [u64]) -> u64
    ensures { Tells (read_told answer.now).number (import_cells answer.now names.now) told.old result told.new }
{
    let number = tell(answer, told);
    put_names(names, told);
    number
}
