// decide BYTES KEYCELLS PATHCELLS WORDCELLS = found STATES LETTERS | never STATES | no-room STATES | short STATES | refused NUMBER PLACE, then keys LIST path LIST
// build BYTES KEYCELLS TABLECELLS = built STATES | no-room STATES | refused NUMBER PLACE, then keys LIST table LIST
// Where a question is refused, no area is named, and all hold marks alone; so does a word's buffer where no word is found.
use crate::cells::cells_hold;
use crate::numbers::items;
use crate::parts::{is_named, natural_part, outcome, part, size_part, word_count};
use crate::spelling::{LETTERS, letters_in};
use compared::asked::Fault;
use compared::buffers::{BYTE_MARK, CELL_MARK, KEY_MARK, all_marked, front};
use compared::text::rest;
use scope::{Building, Decision};

// The most cells that a line lends.
const KEYS: usize = 20_000;

pub const CELLS: usize = 50_000;

// A verdict by its name, its states, and the letters of a word that is found.
#[derive(Clone, Copy)]
pub struct Verdict {
    name: &'static str,
    states: usize,
    letters: Option<usize>,
}

impl From<Decision> for Verdict {
    fn from(decision: Decision) -> Verdict {
        let (name, states, letters) = match decision {
            Decision::Found { states, letters } => ("found", states, Some(letters)),
            Decision::Never { states } => ("never", states, None),
            Decision::NoRoom { states } => ("no-room", states, None),
            Decision::Short { states, .. } => ("short", states, None),
        };
        Verdict {
            name,
            states,
            letters,
        }
    }
}

impl From<Building> for Verdict {
    fn from(building: Building) -> Verdict {
        let (name, states) = match building {
            Building::Built { states } => ("built", states),
            Building::NoRoom { states } => ("no-room", states),
        };
        Verdict {
            name,
            states,
            letters: None,
        }
    }
}

// Whether an outcome begins with a name and a number.
fn begins(told: &[u8], name: &str, number: usize) -> bool {
    is_named(told, 0, name) && size_part(told, 1) == number
}

// Whether an outcome begins with a verdict and its numbers.
pub fn verdict_right(told: &[u8], answer: Result<Verdict, Fault>) -> bool {
    match answer {
        Ok(verdict) => begins(told, verdict.name, verdict.states),
        Err(Fault::Refused(refusal)) => {
            begins(told, "refused", usize::from(refusal.rule.number()))
                && size_part(told, 2) == refusal.place
        }
        Err(Fault::Spoilt) => false,
    }
}

// Whether a buffer has the word found, which is an outcome's third word, and nothing where none is.
pub fn word_right(told: &[u8], answer: Result<Verdict, Fault>, word: &[u8; LETTERS]) -> bool {
    match answer {
        Ok(
            Verdict {
                letters: Some(letters),
                ..
            },
        ) => {
            let list = part(told, 2);
            items(list) == letters && letters_in(list) == *word
        }
        _ => all_marked(word, BYTE_MARK),
    }
}

// The names and lists behind a verdict and its numbers.
fn lists_of(told: &[u8], answer: Result<Verdict, Fault>) -> &[u8] {
    let words = match answer {
        Ok(Verdict { letters: None, .. }) => 2,
        _ => 3,
    };
    rest(told, words, b' ')
}

// Whether that is a list of keys and one of other cells; where it is refused, nothing.
fn are_lists(lists: &[u8], answer: Result<Verdict, Fault>, name: &str) -> bool {
    match answer {
        Err(_) => lists.is_empty(),
        Ok(_) => word_count(lists) == 4 && is_named(lists, 0, "keys") && is_named(lists, 2, name),
    }
}

// Whether an outcome is an answer, and the areas hold what it tells of them.
fn areas_right(
    told: &[u8],
    answer: Result<Verdict, Fault>,
    keys: &[i32],
    name: &str,
    cells: &[u16],
) -> bool {
    let lists = lists_of(told, answer);
    are_lists(lists, answer, name)
        && verdict_right(told, answer)
        && cells_hold(part(lists, 1), keys, KEY_MARK)
        && cells_hold(part(lists, 3), cells, CELL_MARK)
}

pub fn decide_right(line: &[u8], bytes: &[u8]) -> bool {
    let rooms = [size_part(line, 2), size_part(line, 3), size_part(line, 4)];
    let mut keys = [KEY_MARK; KEYS];
    let mut path = [CELL_MARK; CELLS];
    let mut word = [BYTE_MARK; LETTERS];
    if KEYS < rooms[0] || CELLS < rooms[1] || LETTERS < rooms[2] {
        return false;
    }
    let told = outcome(line, 5);
    let answer = decide::decide(
        bytes,
        front(&mut keys, rooms[0]),
        front(&mut path, rooms[1]),
        front(&mut word, rooms[2]),
    )
    .map(Verdict::from)
    .map_err(Fault::from);
    areas_right(told, answer, &keys, "path", &path) && word_right(told, answer, &word)
}

pub fn build_right(line: &[u8], bytes: &[u8]) -> bool {
    let rooms = [size_part(line, 2), size_part(line, 3)];
    let mut keys = [KEY_MARK; KEYS];
    let mut table = [CELL_MARK; CELLS];
    if KEYS < rooms[0] || CELLS < rooms[1] {
        return false;
    }
    let answer = build::build(
        bytes,
        front(&mut keys, rooms[0]),
        front(&mut table, rooms[1]),
    )
    .map(Verdict::from)
    .map_err(Fault::from);
    areas_right(outcome(line, 4), answer, &keys, "table", &table)
}
