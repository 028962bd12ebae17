// SMT-LIB text byte by byte: what each byte does, whether the text is well formed, and whether a stretch of it is a word.
#![tactic(auto)]

mod moves;
mod spelling;

ghost use Rattle.std.specs.Prelude.{◌≡◌, ℕ};
ghost use Rattle.std.proofs.Math.Option.{Option};
ghost use Rattle.smtlib.specs.Lexicon.{broken_at};
ghost use Rattle.smtlib.specs.Laws.{lower_of};
ghost use Rattle.lexicon.specs.Spots.{spot_of};

use moves::{complete, depth_then};
pub use moves::{State, Step, is_digit, move_of, symbol_first};
pub use spelling::{is_reserved, is_theory_word, same_stretch, spelt};

// The most lists that may be open.
const NESTING: usize = 32;

// A place in the text, where there is one.
pub type Spot = Option<usize>;

// Where the text is broken: at the first byte that cannot go on, or at the end.
pub fn broken_at(text: &[u8]) -> Spot
    ensures { result ≡ spot_of (broken_at text.now) }
{
    let mut state = State::Apart;
    let mut depth = 0;
    for (i, byte) in text.iter().enumerate() {
        let step = move_of(state, *byte);
        let Some(behind) = depth_then(step, depth) else {
            return Some(i);
        };
        depth = behind;
        state = step.state();
    }
    if complete(state) && depth == 0 {
        return None;
    }
    Some(text.len())
}

// The lower of two places, where there is one.
pub fn lower(a: Spot, b: Spot) -> Spot
    ensures { (x y : Option ℕ) → a ≡ spot_of x → b ≡ spot_of y → result ≡ spot_of (lower_of x y) }
{
    match (a, b) {
        (Some(first), Some(second)) => Some(first.min(second)),
        (None, _) => b,
        (_, None) => a,
    }
}
