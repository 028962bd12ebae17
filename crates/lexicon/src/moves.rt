// What each byte does, by the state at hand.
#![tactic(auto, unfolding(crate::proofs::Opened::moves))]

ghost use Rattle.std.specs.Prelude.{◌≡◌, ◌≤◌};
ghost use Rattle.smtlib.specs.Spelling.{spelling};
ghost use Rattle.smtlib.specs.Lexicon.{among, white, is_digit, is_letter, symbol_first, symbol_next, hex_digit, printable, fresh, leaves_token, move_of, state_after, complete, most_nesting};
ghost use Rattle.lexicon.specs.Steps.{hand_of, move_said, depth_then};

use crate::NESTING;

// What is at hand: no token; a comment; 0 or other digits, a point and digits behind it; #, #x, #b and digits behind them; a colon that a symbol
// follows; a symbol; a string, a quote in it, which ends it or is the first of two; what stands between bars.
#[derive(Clone, Copy, PartialEq, Eq)]
pub enum State {
    Apart,
    Comment,
    Nought,
    Digits,
    Point,
    Decimals,
    Hash,
    HexStart,
    Hexes,
    BitStart,
    Bits,
    Colon,
    Symbol,
    String,
    Quote,
    Bars,
}

// What a byte does: it is no byte of a token, the first one of a token, or another one of the token at hand, with the state behind it; or it opens or
// closes a list, or cannot go on.
#[derive(Clone, Copy, PartialEq, Eq)]
pub enum Step {
    Skips(State),
    Starts(State),
    GoesOn(State),
    Opens,
    Closes,
    Stuck,
}

impl Step {
    // The state behind it.
    pub fn state(self) -> State
        ensures { hand_of result ≡ state_after (move_said self) }
    {
        match self {
            Step::Skips(state) | Step::Starts(state) | Step::GoesOn(state) => state,
            Step::Opens | Step::Closes | Step::Stuck => State::Apart,
        }
    }
}

fn white(byte: u8) -> bool
    ensures { result ≡ white byte }
{
    matches!(byte, b'\t' | b'\n' | b'\r' | b' ')
}

pub fn is_digit(byte: u8) -> bool
    ensures { result ≡ is_digit byte }
{
    byte.is_ascii_digit()
}

fn is_letter(byte: u8) -> bool
    ensures { result ≡ is_letter byte }
{
    byte.is_ascii_alphabetic()
}

// Whether a symbol may have this sign: one of ~!@$%^&*_-+=<>.?/
fn is_sign(byte: u8) -> bool
    ensures { result ≡ among (spelling "~!@$%^&*_-+=<>.?/") byte }
{
    matches!(
        byte,
        b'<'..=b'@' | b'-'..=b'/' | b'$'..=b'&' | b'*' | b'+' | b'^' | b'_' | b'!' | b'~'
    )
}

pub fn symbol_first(byte: u8) -> bool
    ensures { result ≡ symbol_first byte }
{
    is_letter(byte) | is_sign(byte)
}

fn symbol_next(byte: u8) -> bool
    ensures { result ≡ symbol_next byte }
{
    is_letter(byte) || is_sign(byte) || is_digit(byte)
}

fn hex_digit(byte: u8) -> bool
    ensures { result ≡ hex_digit byte }
{
    byte.is_ascii_hexdigit()
}

fn printable(byte: u8) -> bool
    ensures { result ≡ printable byte }
{
    white(byte) || matches!(byte, b' '..=b'~' | 128..)
}

// A byte where no token is at hand. Letters and white space, the most of a text, are tried first.
fn fresh(byte: u8) -> Step
    ensures { move_said result ≡ fresh byte }
{
    match byte {
        b'A'..=b'Z' | b'a'..=b'z' => Step::Starts(State::Symbol),
        b'\t' | b'\n' | b'\r' | b' ' => Step::Skips(State::Apart),
        b'0' => Step::Starts(State::Nought),
        b'1'..=b'9' => Step::Starts(State::Digits),
        b'(' => Step::Opens,
        b')' => Step::Closes,
        b';' => Step::Skips(State::Comment),
        b'#' => Step::Starts(State::Hash),
        b':' => Step::Starts(State::Colon),
        b'"' => Step::Starts(State::String),
        b'|' => Step::Starts(State::Bars),
        _ if is_sign(byte) => Step::Starts(State::Symbol),
        _ => Step::Stuck,
    }
}

// A byte behind a token that does not end itself.
fn leaves_token(byte: u8) -> Step
    ensures { move_said result ≡ leaves_token byte }
{
    match byte {
        b'\t' | b'\n' | b'\r' | b' ' => Step::Skips(State::Apart),
        b'(' => Step::Opens,
        b')' => Step::Closes,
        b';' => Step::Skips(State::Comment),
        b'"' => Step::Starts(State::String),
        b'|' => Step::Starts(State::Bars),
        _ => Step::Stuck,
    }
}

// What a byte does in a state.
pub fn move_of(state: State, byte: u8) -> Step
    ensures { move_said result ≡ move_of (hand_of state) byte }
{
    match (state, byte) {
        (State::Apart, _) => fresh(byte),
        (State::Comment, b'\n' | b'\r') => Step::Skips(State::Apart),
        (State::Comment, _) => Step::Skips(State::Comment),
        (State::Nought, b'.') => Step::GoesOn(State::Point),
        (State::Nought, _) => leaves_token(byte),
        (State::Digits, b'0'..=b'9') => Step::GoesOn(State::Digits),
        (State::Digits, b'.') => Step::GoesOn(State::Point),
        (State::Digits, _) => leaves_token(byte),
        (State::Point, b'0'..=b'9') => Step::GoesOn(State::Decimals),
        (State::Decimals, b'0'..=b'9') => Step::GoesOn(State::Decimals),
        (State::Decimals, _) => leaves_token(byte),
        (State::Hash, b'x') => Step::GoesOn(State::HexStart),
        (State::Hash, b'b') => Step::GoesOn(State::BitStart),
        (State::HexStart, _) if hex_digit(byte) => Step::GoesOn(State::Hexes),
        (State::Hexes, _) if hex_digit(byte) => Step::GoesOn(State::Hexes),
        (State::Hexes, _) => leaves_token(byte),
        (State::BitStart, b'0' | b'1') => Step::GoesOn(State::Bits),
        (State::Bits, b'0' | b'1') => Step::GoesOn(State::Bits),
        (State::Bits, _) => leaves_token(byte),
        (State::Colon, _) if symbol_first(byte) => Step::GoesOn(State::Symbol),
        (State::Symbol, _) if symbol_next(byte) => Step::GoesOn(State::Symbol),
        (State::Symbol, _) => leaves_token(byte),
        (State::String, b'"') => Step::GoesOn(State::Quote),
        (State::String, _) if printable(byte) => Step::GoesOn(State::String),
        (State::Quote, b'"') => Step::GoesOn(State::String),
        (State::Quote, _) => fresh(byte),
        (State::Bars, b'|') => Step::GoesOn(State::Apart),
        (State::Bars, b'\\') => Step::Stuck,
        (State::Bars, _) if printable(byte) => Step::GoesOn(State::Bars),
        _ => Step::Stuck,
    }
}

// The lists that are open behind a move, where it is possible.
pub fn depth_then(step: Step, depth: usize) -> Option<usize>
    requires { depth ≤ most_nesting }
    ensures { result ≡ depth_then (move_said step) depth }
{
    match step {
        Step::Opens if depth < NESTING => Some(depth + 1),
        Step::Closes => depth.checked_sub(1),
        Step::Opens | Step::Stuck => None,
        Step::Skips(_) | Step::Starts(_) | Step::GoesOn(_) => Some(depth),
    }
}

// Whether the text may end in a state.
pub fn complete(state: State) -> bool
    ensures { result ≡ complete (hand_of state) }
{
    !matches!(
        state,
        State::Point
            | State::Hash
            | State::HexStart
            | State::BitStart
            | State::Colon
            | State::String
            | State::Bars
    )
}
