// Writing a held question's bytes, as document 01 has it.
#![tactic(auto)]

ghost use Rattle.writing.specs.Writes.{Writes};

mod checks;
mod putting;

use checks::checked;
use putting::put_question;
use scope::{Question, Refusal, Rule};

// Every check comes before the first byte, so a refused call leaves the buffer as it was.
pub fn write(question: &Question, bytes: &mut [u8]) -> Result<usize, Refusal>
    ensures { Writes question.now bytes.old result bytes.new }
{
    let formula = checked(question)?;
    let all = formula.len + 4;
    if bytes.len() < all {
        return Err(Rule::TooShort.at(0));
    }
    put_question(question, formula.nodes, bytes);
    Ok(all)
}
