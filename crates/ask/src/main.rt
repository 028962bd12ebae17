// The asking program: reads a question from standard input, decides it and prints the answer. What is printed is told of the first 1,024 bytes.
#![tactic(auto)]

ghost use Rattle.std.specs.Prelude.{◌≡◌, ◌≤◌, length};
ghost use Rattle.told.specs.Text.{longest};
ghost use Rattle.ask.specs.Asked.{Asked, variables};

use scope::Question;
use std::io;
use std::io::Write;

// The bytes that decide.
const QUESTION: usize = 1_024;

// Room for 1,024 states, for any number of atoms, and for 1,024 letters.
const STATES: usize = 1_024;

const KEYS: usize = Question::ATOMS * STATES;

const PATH: usize = 2 * STATES;

const WORD: usize = 1_024;

// Room for every text.
const TEXT: usize = 4_352;

// The n of a question; 0 where it is refused.
fn variables(question: &[u8]) -> usize
    ensures { result ≡ variables question.now }
{
    match reading::read(question) {
        Ok(held) => usize::from(held.n),
        Err(_) => 0,
    }
}

// Puts the text of the answer to a question at the front of out, which has room for every text, and answers its length.
fn answer_to(question: &[u8], out: &mut [u8]) -> usize
    requires { longest ≤ length out.old }
    ensures { Asked question.now result out.new }
{
    let mut keys = [0i32; KEYS];
    let mut path = [0u16; PATH];
    let mut word = [0u8; WORD];
    let answer = decide::decide(question, &mut keys, &mut path, &mut word);
    told::tell(variables(question), answer, &word, out)
}

fn main(rt: HostRuntime) -> io::Result<()> {
    let mut question = [0u8; QUESTION];
    let count = input::read_full(&mut rt.stdin(), &mut question)?;
    let mut text = [0u8; TEXT];
    let length = answer_to(&question[..count], &mut text);
    rt.stdout().write_all(&text[..length])
}
