// What an import gives.
ghost use Rattle.std.specs.Prelude.{◌≡◌, ◌≤◌};
ghost use Rattle.scope.specs.Sizes.{most_variables};
ghost use Rattle.laying.specs.Laid.{laid_question};

use laying::Laying;
use scope::Question;

// The bounds of all names: of each the place of its first byte and the one behind its last.
pub const BOUNDS: usize = 2 * Question::VARIABLES;

// The question of a text; and of each variable where its name is spelt in the text: the place of the first byte and the one behind the last, two for each, zeros behind them.
#[derive(Clone, Copy)]
pub struct Import {
    pub question: Question,
    pub names: [usize; BOUNDS],
}

impl Import {
    // The question that is laid.
    pub fn accepted(laying: Laying, names: [usize; BOUNDS]) -> Import
        requires { laying.n ≤ most_variables }
        ensures { result ≡ record { question = laid_question laying; names = names } }
    {
        let codes = laying.codes;
        let coefficients = laying.coefficients;
        let constants = laying.constants;
        let question = Question {
            // At most six: `u8::try_from` would add a case that cannot come.
            n: laying.n as u8,
            codes,
            coefficients,
            constants,
        };
        Import { question, names }
    }
}
