// The program smt: reads SMT-LIB text from standard input, decides its question and prints what other solvers print. A text of more than 65,536 bytes is unknown.
#![tactic(auto)]

ghost use Rattle.std.specs.Prelude.{◌≤◌, length, replicate};
ghost use Rattle.told.specs.Writers.{Put};
ghost use Rattle.said.specs.Said.{said_of, say_room, BoundsStand};
ghost use Rattle.smt.specs.Solved.{said_in, HeldSaid, Solved};

use decide::decide;
use importing::import;
use said::say;
use scope::{Decision, Question, Refusal};
use std::io;
use std::io::Write;
use writing::write;

// The bytes of a text that is decided.
const TEXT: usize = 65_536;

// Room for 8,191 states, for any number of atoms, and for every word found in it.
const STATES: usize = 8_191;

const KEYS: usize = Question::ATOMS * STATES;

const PATH: usize = 2 * STATES;

const WORD: usize = STATES;

// Room for all that is said of a text of these bytes, or of one byte more.
const OUT: usize = 6 * (TEXT + 1 + 64) + 72;

// Decides a question's bytes, and says of the text what was decided.
fn decide_bytes(text: &[u8], names: &[usize], n: usize, bytes: &[u8], out: &mut [u8]) -> usize
    requires { BoundsStand names.now n × (say_room (length text.now) ≤ length out.old) }
    ensures { Put (said_in text.now names.now n bytes.now) 0 out.old result out.new }
{
    let mut keys = [0i32; KEYS];
    let mut path = [0u16; PATH];
    let mut word = [0u8; WORD];
    let answer = decide(bytes, &mut keys, &mut path, &mut word);
    say(text, names, n, answer, &word, out)
}

// Decides a held question, and says of the text what was decided.
fn decide_held(text: &[u8], names: &[usize], question: Question, out: &mut [u8]) -> usize
    requires { BoundsStand names.now question.n × (say_room (length text.now) ≤ length out.old) }
    ensures { HeldSaid text.now names.now question out.old result out.new }
{
    let n = usize::from(question.n);
    let mut bytes = [0u8; Question::BYTES];
    match write(&question, &mut bytes) {
        Ok(count) => decide_bytes(text, names, n, &bytes[..count], out),
        // No question that is imported comes here.
        Err(refusal) => say(text, names, n, Err(refusal), &bytes, out),
    }
}

// Says an answer that tells no value.
fn say_alone(text: &[u8], answer: Result<Decision, Refusal>, out: &mut [u8]) -> usize
    requires { say_room (length text.now) ≤ length out.old }
    ensures { Put (said_of text.now (replicate 2 0) 0 answer text.now) 0 out.old result out.new }
{
    let names = [0usize; 2];
    say(text, &names, 0, answer, text, out)
}

// Puts what is printed of a text at the front of out, which has room for it, and answers its length.
fn answer_to(text: &[u8], out: &mut [u8]) -> usize
    requires { say_room (length text.now) ≤ length out.old }
    ensures { Solved text.now result out.new }
{
    if TEXT < text.len() {
        return say_alone(text, Ok(Decision::NoRoom { states: 0 }), out);
    }
    match import(text) {
        Ok(given) => decide_held(text, &given.names, given.question, out),
        Err(refusal) => say_alone(text, Err(refusal), out),
    }
}

fn main(rt: HostRuntime) -> io::Result<()> {
    let mut text = [0u8; TEXT + 1];
    let count = input::read_full(&mut rt.stdin(), &mut text)?;
    let mut out = [0u8; OUT];
    let length = answer_to(&text[..count], &mut out);
    rt.stdout().write_all(&out[..length])
}
