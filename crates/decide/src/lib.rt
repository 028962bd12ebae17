// Deciding a question: the first word that its machine accepts, or that there is none, or that the areas lent have no room to tell.
#![tactic(auto)]

ghost use Rattle.std.specs.Prelude.{Ok, ◌≡◌, ◌/◌, ◌≤◌, ◌<◌, min, length};
ghost use Rattle.scope.specs.Sizes.{most_states, most_atoms};
ghost use Rattle.scope.specs.Deciding.{decided_question, decided};
ghost use Rattle.theory.specs.Wire.Accepted.{WithinLimits};
ghost use Rattle.decide.specs.Decides.{Decides};
ghost use Rattle.decide.specs.Lends.{DecideLends};
ghost use Rattle.decide.specs.Start.{StartPut};

use index::store_row;
use numbering::number_rows;
use path::answer;
use plan::plan_of;
use scope::{Decision, Question, Refusal};
use step::{Kinds, kinds_of, letter_sums};

// R: how many rows are lent.
fn room(keys: usize, path: usize, width: usize) -> usize
    requires { 0 < width }
    ensures { result ≡ min (min (keys / width) (path / 2)) most_states }
{
    (keys / width).min(path / 2).min(Question::STATES)
}

// The start as row 0.
fn put_start(constants: &[i32; Question::ATOMS], width: usize, keys: &mut [i32], path: &mut [u16])
    requires { (width ≤ most_atoms) × (width ≤ length constants.now) × (width ≤ length keys.old) × (2 ≤ length path.old) }
    ensures { StartPut constants.now width keys.old keys.new path.old path.new }
{
    store_row(keys, width, 0, constants);
    path[0] = 0;
    path[1] = 0;
}

// Decides an accepted question in so many rows, of which there are some. The start's word has no letter.
fn decide_rows(
    question: &Question,
    atoms: Kinds,
    rows: usize,
    keys: &mut [i32],
    path: &mut [u16],
    word: &mut [u8],
) -> Decision
    requires { DecideLends question.now atoms rows keys.old path.old }
    ensures { Decides (decided_question question.now keys.old path.old word.old) (Ok result) keys.new path.new word.new }
{
    let sums = letter_sums(usize::from(question.n), atoms.m, &question.coefficients);
    let plan = plan_of(question, atoms, &sums, rows, true, true);
    put_start(&question.constants, plan.width, keys, path);
    if plan.accepts(question.constants) {
        return Decision::Found {
            states: 1,
            letters: 0,
        };
    }
    let explored = number_rows(plan, &sums, keys, path);
    answer(explored, path, word)
}

// Decides a question that was accepted.
fn decide_question(
    question: &Question,
    keys: &mut [i32],
    path: &mut [u16],
    word: &mut [u8],
) -> Decision
    requires { WithinLimits question.now }
    ensures { Decides (decided_question question.now keys.old path.old word.old) (Ok result) keys.new path.new word.new }
{
    let atoms = kinds_of(&question.codes);
    let rows = room(keys.len(), path.len(), atoms.m);
    if rows == 0 {
        return Decision::NoRoom { states: 0 };
    }
    decide_rows(question, atoms, rows, keys, path, word)
}

// Decides the question that the bytes say.
pub fn decide(
    bytes: &[u8],
    keys: &mut [i32],
    path: &mut [u16],
    word: &mut [u8],
) -> Result<Decision, Refusal>
    ensures { Decides (decided bytes.now keys.old path.old word.old) result keys.new path.new word.new }
{
    let mut question = Question::empty();
    reading::read_into(bytes, &mut question)?;
    Ok(decide_question(&question, keys, path, word))
}
