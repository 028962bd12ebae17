// ask BYTES = TEXT, its lines joined by |
// The asking program's own function cannot be called: what it does is done here too.
use crate::parts::outcome;
use compared::buffers::first;
use scope::Question;

// The asking program's room.
const STATES: usize = 1_024;

const KEYS: usize = Question::ATOMS * STATES;

const PATH: usize = 2 * STATES;

const LETTERS: usize = 1_024;

const TEXT: usize = 4_352;

// Puts the text of the answer to a question at the front of out, and answers its length.
fn answer_to(bytes: &[u8], out: &mut [u8]) -> usize {
    let mut keys = [0i32; KEYS];
    let mut path = [0u16; PATH];
    let mut word = [0u8; LETTERS];
    let answer = decide::decide(bytes, &mut keys, &mut path, &mut word);
    let n = reading::read(bytes).map_or(0, |question| usize::from(question.n));
    told::tell(n, answer, &word, out)
}

// Whether a text is that of joined lines.
fn is_text(lines: &[u8], text: &[u8]) -> bool {
    let Some((last, body)) = text.split_last() else {
        return false;
    };
    let same = body.len() == lines.len()
        && body.iter().zip(lines).all(|(b, told)| *b == if *told == b'|' { b'\n' } else { *told });
    same && *last == b'\n'
}

pub fn ask_right(line: &[u8], bytes: &[u8]) -> bool {
    let mut text = [0u8; TEXT];
    let n = answer_to(bytes, &mut text);
    is_text(outcome(line, 2), first(&text, n))
}
