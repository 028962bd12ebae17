// A word that starts at a place and ends before another one.
ghost use Rattle.std.specs.Prelude.{◌≡◌, ◌+◌, ◌*◌, ◌-◌, ◌≤◌, ◌<◌, true};
ghost use Rattle.smtlib.specs.Terms.{most_numeral};
ghost use Rattle.smtlib.specs.Lexicon.{is_digit};
ghost use Rattle.lexicon.specs.Steps.{hand_of};
ghost use Rattle.forms.specs.Read.{clipped};
ghost use Rattle.forms.specs.WordRead.{formed, NumeralStarts, SymbolStarts, WordStarts, WordRead};

use crate::Form;
use lexicon::{State, is_digit, is_reserved};

// A form of no value.
pub fn bare(kind: u8, place: usize, from: usize, to: usize, next: usize) -> Form
    ensures { result ≡ formed kind place from to 0 next }
{
    Form {
        kind,
        place,
        from,
        to,
        value: 0,
        next,
    }
}

// A numeral's value with one more digit; above 1,000,000 it is 1,000,001.
fn grown(value: u64, byte: u8) -> u64
    requires { (value ≤ most_numeral + 1) × (is_digit byte ≡ true) }
    ensures { result ≡ clipped (10 * value + (byte - 48)) }
{
    let more = 10 * value + u64::from(byte - b'0');
    if 1000000 < more {
        return 1000001;
    }
    more
}

// A word that starts with a digit: a numeral where all its bytes are digits.
fn numeral_at(text: &[u8], place: usize, next: usize) -> Form
    requires { NumeralStarts text.now place next }
    ensures { WordRead text.now place next result }
{
    let mut value: u64 = 0;
    for i in place..next {
        let byte = text[i];
        if !is_digit(byte) {
            return bare(Form::OTHER, place, place, place, next);
        }
        value = grown(value, byte);
    }
    Form {
        kind: Form::NUMERAL,
        place,
        from: place,
        to: place,
        value,
        next,
    }
}

// Where a symbol between bars ends, from the place behind the first one on.
fn bar_before(from: usize, next: usize) -> usize
    requires { from ≤ next }
    ensures { (from ≤ result) × (result ≤ next) × (result - from ≡ next - from - 1) }
{
    if from < next {
        return next - 1;
    }
    next
}

fn symbol_at(text: &[u8], place: usize, next: usize) -> Form
    requires { SymbolStarts text.now place next }
    ensures { WordRead text.now place next result }
{
    if is_reserved(text, place, next) {
        return bare(Form::RESERVED, place, place, next, next);
    }
    bare(Form::SYMBOL, place, place, next, next)
}

// The word, by the state behind its first byte.
pub fn word_at(text: &[u8], place: usize, next: usize, state: State) -> Form
    requires { WordStarts text.now place next (hand_of state) }
    ensures { WordRead text.now place next result }
{
    match state {
        State::Symbol => symbol_at(text, place, next),
        State::Nought | State::Digits => numeral_at(text, place, next),
        State::Bars => {
            let from = place + 1;
            bare(Form::SYMBOL, place, from, bar_before(from, next), next)
        }
        _ => bare(Form::OTHER, place, place, place, next),
    }
}
