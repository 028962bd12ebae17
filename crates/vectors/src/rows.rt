// Deciding and building as base.txt has them, in so many rows, and with no lists of cells:
// decide BYTES ROWS WORDCELLS found STATES LETTERS | never STATES | no-room STATES | refused 8 STATES
// build BYTES ROWS built STATES CELLS | no-room STATES
// Where no list is told, the third word is empty.
use crate::areas::{CELLS, Verdict, verdict_right, word_right};
use crate::cells::cells_hold;
use crate::parts::{outcome, part, size_part, word_count};
use crate::spelling::LETTERS;
use compared::asked::{Fault, built_in, decided_in};
use compared::buffers::{BYTE_MARK, CELL_MARK, ROWS, cells_of, front};
use scope::{Decision, Question, Rule, is_atom};

// The question read; the empty one where it is refused.
fn question_of(bytes: &[u8]) -> Question {
    reading::read(bytes).unwrap_or(Question::empty())
}

// The atoms of a question.
fn atoms_of(question: &Question) -> usize {
    question.codes.iter().filter(|code| is_atom(**code)).count()
}

// The cells of a row of its table.
fn width_of(question: &Question) -> usize {
    let n = usize::from(question.n);
    if n <= Question::VARIABLES {
        scope::letters(n) + 1
    } else {
        0
    }
}

// Too short a buffer for the word is told as a refusal, with the states for its place.
fn as_told(answer: Result<Decision, Fault>) -> Result<Verdict, Fault> {
    match answer? {
        Decision::Short { states, .. } => Err(Fault::Refused(Rule::TooShort.at(states))),
        decision => Ok(Verdict::from(decision)),
    }
}

pub fn decide_rows_right(line: &[u8], bytes: &[u8]) -> bool {
    let question = question_of(bytes);
    let rows = size_part(line, 2);
    let room = size_part(line, 3);
    if ROWS < rows || LETTERS < room {
        return false;
    }
    let told = outcome(line, 4);
    let mut word = [BYTE_MARK; LETTERS];
    let answer = as_told(decided_in(bytes, atoms_of(&question), rows, front(&mut word, room)));
    word_count(told) == 3 && verdict_right(told, answer) && word_right(told, answer, &word)
}

pub fn build_rows_right(line: &[u8], bytes: &[u8]) -> bool {
    let question = question_of(bytes);
    let width = width_of(&question);
    let rows = size_part(line, 2);
    if cells_of(rows, width).is_none_or(|cells| CELLS < cells) {
        return false;
    }
    let told = outcome(line, 3);
    let mut table = [CELL_MARK; CELLS];
    let answer = built_in(bytes, atoms_of(&question), width, rows, &mut table).map(Verdict::from);
    word_count(told) == 3
        && verdict_right(told, answer)
        && cells_hold(part(told, 2), &table, CELL_MARK)
}
