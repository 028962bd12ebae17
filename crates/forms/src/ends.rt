// Where what is at hand ends, byte by byte.
ghost use Rattle.std.specs.Prelude.{◌≤◌, length};
ghost use Rattle.lexicon.specs.Steps.{hand_of};
ghost use Rattle.forms.specs.WordRead.{BlankEnd, TokenEnd};

use lexicon::{State, Step, move_of};

// Behind white space and comments.
pub fn blank_end(text: &[u8], at: usize) -> usize
    requires { at ≤ length text.now }
    ensures { BlankEnd text.now at result }
{
    let mut state = State::Apart;
    for i in at..text.len() {
        let Step::Skips(after) = move_of(state, text[i]) else {
            return i;
        };
        state = after;
    }
    text.len()
}

// Behind the token at hand, whose bytes before the place have led to this state.
pub fn token_end(text: &[u8], at: usize, first: State) -> usize
    requires { at ≤ length text.now }
    ensures { TokenEnd text.now at (hand_of first) result }
{
    let mut state = first;
    for i in at..text.len() {
        let Step::GoesOn(after) = move_of(state, text[i]) else {
            return i;
        };
        state = after;
    }
    text.len()
}
