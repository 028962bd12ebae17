// Reading a question from its bytes: whole, or from a place on, as document 01 has it.
#![tactic(auto)]

ghost use Rattle.std.specs.Prelude.{◌≡◌, ◌≤◌, length};
ghost use Rattle.scope.specs.Sizes.{most_variables};
ghost use Rattle.scope.specs.Question.{empty_question};
ghost use Rattle.scope.specs.Wire.{read_from, read_held};
ghost use Rattle.reading.specs.Answers.{part_read, headed, FromSays, HeldSays, formula_read, end_answer};

mod frames;
mod nodes;

use frames::{frame_at, head_at};
use nodes::node_at;
use records::{Shape, body_length};
use scope::{Question, Refusal, Rule};

// What reading from a place gives: the question, and the place after the end record.
#[derive(Clone, Copy)]
pub struct ReadPart {
    pub question: Question,
    pub next: usize,
}

// The end record: the place after it.
fn end_from(bytes: &[u8], at: usize) -> Result<usize, Refusal>
    ensures { result ≡ end_answer bytes.now at }
{
    frame_at(bytes, at, 0x00FF, 0)?;
    Ok(at + 4)
}

// The formula into the question of which the head alone is read, and the end.
fn formula_from(bytes: &[u8], at: usize, question: &mut Question) -> Result<usize, Refusal>
    requires { (question.old ≡ headed question.old.n) × ((question.old.n ≤ most_variables) × (at ≤ length bytes.now)) }
    ensures { FromSays (formula_read bytes.now question.old.n at) result question.new }
{
    let n = usize::from(question.n);
    let mut shape = Shape::unread();
    let mut place = at;
    while let Some(depth) = shape.depth() {
        let code = node_at(bytes, place, &shape, depth, question)?;
        shape.grow(code);
        place += 4 + body_length(n, code);
    }
    end_from(bytes, place)
}

// Reads the question that starts at a place, up to its end record, into one that is lent empty: the place after it. Where it is refused, the
// question holds what was read so far.
fn part_into(bytes: &[u8], at: usize, question: &mut Question) -> Result<usize, Refusal>
    requires { question.old ≡ empty_question }
    ensures { FromSays (read_from bytes.now at) result question.new }
{
    question.n = head_at(bytes, at)?;
    formula_from(bytes, at + 5, question)
}

// Reads the question that starts at a place, up to its end record. What comes after is the caller's.
pub fn read_from(bytes: &[u8], at: usize) -> Result<ReadPart, Refusal>
    ensures { result ≡ part_read (read_from bytes.now at) }
{
    let mut question = Question::empty();
    let next = part_into(bytes, at, &mut question)?;
    Ok(ReadPart { question, next })
}

// Reads a question that is all there is, into one that is lent empty. Where it is refused, that holds what was read so far.
pub fn read_into(bytes: &[u8], question: &mut Question) -> Result<(), Refusal>
    requires { question.old ≡ empty_question }
    ensures { HeldSays (read_held bytes.now) result question.new }
{
    let next = part_into(bytes, 0, question)?;
    if next < bytes.len() {
        return Err(Rule::LeftOver.at(next));
    }
    Ok(())
}

// Reads a question that is all there is.
pub fn read(bytes: &[u8]) -> Result<Question, Refusal>
    ensures { result ≡ read_held bytes.now }
{
    let mut question = Question::empty();
    read_into(bytes, &mut question)?;
    Ok(question)
}
