// The forms of SMT-LIB text, one after the other, each from a place on.
#![tactic(auto)]

ghost use Rattle.std.specs.Prelude.{◌≡◌, ◌+◌, ◌^◌, ◌≤◌, ◌<◌, length};
ghost use Rattle.lexicon.specs.Steps.{move_said};
ghost use Rattle.forms.specs.Read.{ListEnds, FormReads, FormStands, RestBehind};
ghost use Rattle.forms.specs.Closing.{left_after};

mod ends;
mod words;

use ends::{blank_end, token_end};
use lexicon::{State, Step, move_of};
use words::{bare, word_at};

// A form, or the end of the list or of the text: where its first byte is, and where what follows it starts. A symbol and a reserved word are spelt
// from one place up to another; the value of a numeral above 1,000,000 is 1,000,001.
#[derive(Clone, Copy)]
pub struct Form {
    pub kind: u8,
    pub place: usize,
    pub from: usize,
    pub to: usize,
    pub value: u64,
    pub next: usize,
}

impl Form {
    pub const END: u8 = 0;

    pub const CLOSE: u8 = 1;

    pub const OPEN: u8 = 2;

    pub const NUMERAL: u8 = 3;

    pub const SYMBOL: u8 = 4;

    pub const RESERVED: u8 = 5;

    pub const OTHER: u8 = 6;
}

// The form that stands next, from a place on.
pub fn form_at(text: &[u8], at: usize) -> Form
    requires { at ≤ length text.now }
    ensures stands { FormStands text.now at result }
    ensures read { FormReads text.now at result }
{
    let place = blank_end(text, at);
    if text.len() <= place {
        return bare(Form::END, place, place, place, place);
    }
    let behind = place + 1;
    match move_of(State::Apart, text[place]) {
        Step::Starts(state) => {
            let next = token_end(text, behind, state);
            word_at(text, place, next, state)
        }
        Step::Opens => bare(Form::OPEN, place, place, place, behind),
        Step::Closes => bare(Form::CLOSE, place, place, place, behind),
        _ => bare(Form::END, place, place, place, place),
    }
}

// The lists that are open behind a byte, unless it closes the list at hand.
#[tactic(auto, unfolding(crate::specs::Closing::left_after))]
fn left_after(left: usize, step: Step) -> Option<usize>
    requires { left + 1 < 2 ^ 64 }
    ensures { result ≡ left_after (move_said step) left }
{
    match step {
        Step::Opens => Some(left + 1),
        Step::Closes => left.checked_sub(1),
        Step::Skips(_) | Step::Starts(_) | Step::GoesOn(_) | Step::Stuck => Some(left),
    }
}

// The place behind the list at hand.
pub fn list_end(text: &[u8], at: usize) -> usize
    requires { at ≤ length text.now }
    ensures stands { (at ≤ result) × (result ≤ length text.now) }
    ensures closed { ListEnds text.now at result }
{
    let mut state = State::Apart;
    let mut left = 0;
    for i in at..text.len() {
        let step = move_of(state, text[i]);
        let Some(more) = left_after(left, step) else {
            return i + 1;
        };
        left = more;
        state = step.state();
    }
    text.len()
}

// The place behind a form: a list's is behind its parenthesis.
pub fn form_end(text: &[u8], form: Form) -> usize
    requires { form.next ≤ length text.now }
    ensures stands { (form.next ≤ result) × (result ≤ length text.now) }
    ensures behind { RestBehind text.now form result }
{
    if form.kind != Form::OPEN {
        return form.next;
    }
    list_end(text, form.next)
}
