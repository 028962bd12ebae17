// The text of an answer, as the asking program prints it. Writers put text at a place of a buffer and answer the place after it.
#![tactic(auto)]

ghost use Rattle.std.specs.Prelude.{◌≡◌, [], ◌∷◌, ◌+◌, ◌-◌, ◌*◌, ◌≤◌, ◌<◌, length, take};
ghost use Rattle.scope.specs.Words.{value, spelled};
ghost use Rattle.told.specs.Decimal.{digit_byte, decimal};
ghost use Rattle.told.specs.Text.{spaced, numbers, values_said, values_line, letters_said, letters_line, states_line, found_text, short_text, never_text, no_room_text, refused_text, longest, text_of, TextTells};
ghost use Rattle.told.specs.Writers.{Put};
ghost use Rattle.told.specs.Values.{Spellable};

use scope::{Decision, Refusal};

// The most letters of a word that is told: the asking program's word buffer.
const LETTERS: usize = 1_024;

// Room for every text: 1,024 letters of up to three digits, six values and the states of up to twenty, and the words.
const LONGEST: usize = 4_352;

pub fn put_byte(byte: u8, out: &mut [u8], at: usize) -> usize
    requires { at < length out.old }
    ensures { Put (byte ∷ []) at out.old result out.new }
{
    out[at] = byte;
    at + 1
}

pub fn put_bytes(bytes: &[u8], out: &mut [u8], at: usize) -> usize
    requires { at + length bytes.now ≤ length out.old }
    ensures { Put bytes.now at out.old result out.new }
{
    let next = at + bytes.len();
    out[at..next].copy_from_slice(bytes);
    next
}

fn digit(d: u64) -> u8
    requires { d < 10 }
    ensures { result ≡ digit_byte d }
{
    b'0' + d as u8
}

pub fn put_decimal(v: u64, out: &mut [u8], at: usize) -> usize
    requires { at + length (decimal v) ≤ length out.old }
    ensures { Put (decimal v) at out.old result out.new }
{
    if v < 10 {
        return put_byte(digit(v), out, at);
    }
    let next = put_decimal(v / 10, out, at);
    put_byte(digit(v % 10), out, next)
}

// A number after a space.
pub fn put_number(v: u64, out: &mut [u8], at: usize) -> usize
    requires { at + 21 ≤ length out.old }
    ensures { Put (spaced v) at out.old result out.new × (result ≤ at + 21) }
{
    let start = put_byte(b' ', out, at);
    put_decimal(v, out, start)
}

fn put_letters(word: &[u8], out: &mut [u8], at: usize) -> usize
    requires { at + 4 * length word.now ≤ length out.old }
    ensures { Put (numbers word.now) at out.old result out.new × (result ≤ at + 4 * length word.now) }
{
    let mut next = at;
    for &letter in word {
        let start = put_byte(b' ', out, next);
        next = put_decimal(u64::from(letter), out, start);
    }
    next
}

fn letters_said(word: &[u8], out: &mut [u8], at: usize) -> usize
    requires { at + 4096 ≤ length out.old }
    ensures { Put (letters_said word.now) at out.old result out.new × (result ≤ at + 4096) }
{
    if word.is_empty() {
        return put_bytes(b" none", out, at);
    }
    if LETTERS < word.len() {
        return put_bytes(b" long", out, at);
    }
    put_letters(word, out, at)
}

fn letters_line(word: &[u8], out: &mut [u8], at: usize) -> usize
    requires { at + 4104 ≤ length out.old }
    ensures { Put (letters_line word.now) at out.old result out.new × (result ≤ at + 4104) }
{
    let start = put_bytes(b"letters", out, at);
    let end = letters_said(word, out, start);
    put_byte(b'\n', out, end)
}

// The value of a variable, from a word that spelling takes.
pub fn value_of(n: usize, variable: usize, word: &[u8]) -> u64
    requires { Spellable n word.now × (1 ≤ variable) × (variable ≤ n) }
    ensures { result ≡ value word.now (variable - 1) }
{
    let Ok(v) = words::spell(n, variable, word) else {
        return 0;
    };
    v
}

fn put_values(n: usize, word: &[u8], out: &mut [u8], at: usize) -> usize
    requires { Spellable n word.now × (at + 126 ≤ length out.old) }
    ensures { Put (numbers (spelled n word.now)) at out.old result out.new × (result ≤ at + 126) }
{
    let mut next = at;
    for j in 0..n {
        next = put_number(value_of(n, j + 1, word), out, next);
    }
    next
}

fn values_said(n: usize, word: &[u8], out: &mut [u8], at: usize) -> usize
    requires { at + 126 ≤ length out.old }
    ensures { Put (values_said n word.now) at out.old result out.new × (result ≤ at + 126) }
{
    match words::spell(n, 1, word) {
        Ok(_) => put_values(n, word, out, at),
        Err(_) => put_bytes(b" long", out, at),
    }
}

fn values_line(n: usize, word: &[u8], out: &mut [u8], at: usize) -> usize
    requires { at + 133 ≤ length out.old }
    ensures { Put (values_line n word.now) at out.old result out.new × (result ≤ at + 133) }
{
    let start = put_bytes(b"values", out, at);
    let end = values_said(n, word, out, start);
    put_byte(b'\n', out, end)
}

fn states_line(states: usize, out: &mut [u8], at: usize) -> usize
    requires { at + 28 ≤ length out.old }
    ensures { Put (states_line states) at out.old result out.new × (result ≤ at + 28) }
{
    let start = put_bytes(b"states", out, at);
    let end = put_number(states as u64, out, start);
    put_byte(b'\n', out, end)
}

fn found_text(n: usize, states: usize, word: &[u8], out: &mut [u8]) -> usize
    requires { longest ≤ length out.old }
    ensures { Put (found_text n states word.now) 0 out.old result out.new × (result ≤ longest) }
{
    let values = put_bytes(b"verdict found\n", out, 0);
    let letters = values_line(n, word, out, values);
    let end = letters_line(word, out, letters);
    states_line(states, out, end)
}

fn short_text(states: usize, out: &mut [u8]) -> usize
    requires { longest ≤ length out.old }
    ensures { Put (short_text states) 0 out.old result out.new × (result ≤ longest) }
{
    let end = put_bytes(b"verdict found\nvalues long\nletters long\n", out, 0);
    states_line(states, out, end)
}

fn never_text(states: usize, out: &mut [u8]) -> usize
    requires { longest ≤ length out.old }
    ensures { Put (never_text states) 0 out.old result out.new × (result ≤ longest) }
{
    let end = put_bytes(b"verdict never\n", out, 0);
    states_line(states, out, end)
}

fn no_room_text(states: usize, out: &mut [u8]) -> usize
    requires { longest ≤ length out.old }
    ensures { Put (no_room_text states) 0 out.old result out.new × (result ≤ longest) }
{
    let end = put_bytes(b"verdict no-room\n", out, 0);
    states_line(states, out, end)
}

fn refused_text(refusal: Refusal, out: &mut [u8]) -> usize
    requires { longest ≤ length out.old }
    ensures { Put (refused_text refusal) 0 out.old result out.new × (result ≤ longest) }
{
    let start = put_bytes(b"refused", out, 0);
    let said = put_number(u64::from(refusal.rule.number()), out, start);
    let before = put_bytes(b" at", out, said);
    let end = put_number(refusal.place as u64, out, before);
    put_byte(b'\n', out, end)
}

// The word at the front of its buffer.
pub fn word_of<'a>(word: &'a [u8], letters: usize) -> &'a [u8]
    ensures { result.now ≡ take letters word.now }
{
    &word[..letters.min(word.len())]
}

fn put_text(n: usize, answer: Result<Decision, Refusal>, word: &[u8], out: &mut [u8]) -> usize
    requires { longest ≤ length out.old }
    ensures { Put (text_of n answer word.now) 0 out.old result out.new × (result ≤ longest) }
{
    match answer {
        Ok(Decision::Found { states, letters }) => found_text(
            n,
            states,
            word_of(word, letters),
            out,
        ),
        Ok(Decision::Never { states }) => never_text(states, out),
        Ok(Decision::NoRoom { states }) => no_room_text(states, out),
        Ok(Decision::Short { states, letters: _ }) => short_text(states, out),
        Err(refusal) => refused_text(refusal, out),
    }
}

// Puts the text of an answer at the front of out and answers its length; 0, and out as it was, where out is too short. The word is at the
// front of its buffer.
pub fn tell(n: usize, answer: Result<Decision, Refusal>, word: &[u8], out: &mut [u8]) -> usize
    ensures { TextTells n answer word.now out.old result out.new }
{
    let mut text = [0u8; LONGEST];
    let length = put_text(n, answer, word, &mut text);
    if out.len() < length {
        return 0;
    }
    out[..length].copy_from_slice(&text[..length]);
    length
}
