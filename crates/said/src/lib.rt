// What the program smt prints of an answer. Writers put text at a place of a buffer and answer the place after it.
#![tactic(auto)]

ghost use Rattle.std.specs.Prelude.{◌≡◌, ◌+◌, ◌-◌, ◌*◌, ◌≤◌, length, take, drop};
ghost use Rattle.scope.specs.Words.{spelled};
ghost use Rattle.told.specs.Writers.{Put};
ghost use Rattle.told.specs.Values.{Spellable};
ghost use Rattle.said.specs.Said.{barred, name_said, define_line, define_lines, error_line, model_lines, model_said, sat_said, short_said, said_of, say_room, BoundsStand};

use scope::{Decision, Refusal, Rule};
use told::{put_byte, put_bytes, put_decimal, put_number, value_of, word_of};

// The bytes from a place up to another, as far as the text has them.
fn stretch_of<'a>(text: &'a [u8], from: usize, to: usize) -> &'a [u8]
    ensures { result.now ≡ take (to - from) (drop from text.now) }
{
    let end = to.min(text.len());
    &text[from.min(end)..end]
}

// Whether a bar stands before a name's spelling.
fn has_bars(text: &[u8], from: usize) -> bool
    ensures { result ≡ barred text.now from }
{
    0 < from && from <= text.len() && text[from - 1] == b'|'
}

// A name as the text has it.
fn put_name(text: &[u8], from: usize, to: usize, out: &mut [u8], at: usize) -> usize
    requires { at + length text.now + 2 ≤ length out.old }
    ensures { Put (name_said text.now from to) at out.old result out.new × (result ≤ at + length text.now + 2) }
{
    let bars = has_bars(text, from);
    let name = stretch_of(text, from, to);
    if bars {
        let start = put_byte(b'|', out, at);
        let end = put_bytes(name, out, start);
        return put_byte(b'|', out, end);
    }
    put_bytes(name, out, at)
}

// A name and its value.
fn define_line(text: &[u8], from: usize, to: usize, value: u64, out: &mut [u8], at: usize) -> usize
    requires { at + length text.now + 64 ≤ length out.old }
    ensures { Put (define_line (name_said text.now from to) value) at out.old result out.new × (result ≤ at + length text.now + 64) }
{
    let name = put_bytes(b"(define-fun ", out, at);
    let sort = put_name(text, from, to, out, name);
    let start = put_bytes(b" () Int", out, sort);
    let end = put_number(value, out, start);
    put_bytes(b")\n", out, end)
}

// A line for each of n names.
fn define_lines(
    text: &[u8],
    bounds: &[usize],
    n: usize,
    word: &[u8],
    out: &mut [u8],
    at: usize,
) -> usize
    requires { Spellable n word.now × (BoundsStand bounds.now n × (at + n * (length text.now + 64) ≤ length out.old)) }
    ensures { Put (define_lines text.now bounds.now 0 (spelled n word.now)) at out.old result out.new × (result ≤ at + n * (length text.now + 64)) }
{
    let mut next = at;
    for i in 0..n {
        let value = value_of(n, i + 1, word);
        let from = bounds[2 * i];
        let to = bounds[2 * i + 1];
        next = define_line(text, from, to, value, out, next);
    }
    next
}

fn error_line(refusal: Refusal, out: &mut [u8], at: usize) -> usize
    requires { at + 64 ≤ length out.old }
    ensures { Put (error_line refusal) at out.old result out.new }
{
    let start = put_bytes(b"(error \"", out, at);
    let said = put_decimal(u64::from(refusal.rule.number()), out, start);
    let before = put_bytes(b" at", out, said);
    // u64 has no From<usize>, and a fallible one would add a case that cannot come.
    let end = put_number(refusal.place as u64, out, before);
    put_bytes(b"\")\n", out, end)
}

fn model(text: &[u8], bounds: &[usize], n: usize, word: &[u8], out: &mut [u8], at: usize) -> usize
    requires { Spellable n word.now × (BoundsStand bounds.now n × (at + n * (length text.now + 64) + 4 ≤ length out.old)) }
    ensures { Put (model_lines text.now bounds.now n word.now) at out.old result out.new }
{
    let start = put_bytes(b"(\n", out, at);
    let end = define_lines(text, bounds, n, word, out, start);
    put_bytes(b")\n", out, end)
}

fn model_said(
    text: &[u8],
    bounds: &[usize],
    n: usize,
    word: &[u8],
    out: &mut [u8],
    at: usize,
) -> usize
    requires { BoundsStand bounds.now n × (at + say_room (length text.now) ≤ length out.old + 4) }
    ensures { Put (model_said text.now bounds.now n word.now) at out.old result out.new }
{
    match words::spell(n, 1, word) {
        Ok(_) => model(text, bounds, n, word, out, at),
        Err(refusal) => error_line(refusal, out, at),
    }
}

fn sat(text: &[u8], bounds: &[usize], n: usize, word: &[u8], out: &mut [u8]) -> usize
    requires { BoundsStand bounds.now n × (say_room (length text.now) ≤ length out.old) }
    ensures { Put (sat_said text.now bounds.now n word.now) 0 out.old result out.new }
{
    let next = put_bytes(b"sat\n", out, 0);
    model_said(text, bounds, n, word, out, next)
}

// Found, and the word buffer was too short for the word.
fn sat_short(out: &mut [u8]) -> usize
    requires { 72 ≤ length out.old }
    ensures { Put short_said 0 out.old result out.new }
{
    let next = put_bytes(b"sat\n", out, 0);
    error_line(Rule::TooShort.at(0), out, next)
}

// Puts what is said of an answer for n names at the front of out and answers its length. The bounds are two for each name: where its spelling starts in the text, and
// where it ends. The word is at the front of its buffer.
pub fn say(
    text: &[u8],
    bounds: &[usize],
    n: usize,
    answer: Result<Decision, Refusal>,
    word: &[u8],
    out: &mut [u8],
) -> usize
    requires { BoundsStand bounds.now n × (say_room (length text.now) ≤ length out.old) }
    ensures { Put (said_of text.now bounds.now n answer word.now) 0 out.old result out.new }
{
    match answer {
        Ok(Decision::Found { states: _, letters }) => sat(
            text,
            bounds,
            n,
            word_of(word, letters),
            out,
        ),
        Ok(Decision::Never { states: _ }) => put_bytes(b"unsat\n", out, 0),
        Ok(Decision::NoRoom { states: _ }) => put_bytes(b"unknown\n", out, 0),
        Ok(
            Decision::Short {
                states: _,
                letters: _,
            },
        ) => sat_short(out),
        Err(refusal) => error_line(refusal, out, 0),
    }
}
