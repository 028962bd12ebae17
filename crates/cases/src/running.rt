// A built table run on words, short ones in their order and long ones by chance, beside what the words spell.
use search::chance::Chance;
use search::drawn::{Drawing, LONG, draw_word};
use search::pieces::word_satisfies;
use search::sheet::Sheet;
use search::spelled::Short;

// The short words run, and the long ones.
pub const SHORT_WORDS: u64 = 70;

const TIMES: usize = 2;

pub const LONG_WORDS: usize = TIMES * Drawing::ALL.len();

// Runs a table on a word: whether it satisfies, where the table says so.
pub fn run_word(q: &Sheet, table: &[u16], word: &[u8]) -> Option<bool> {
    let yes = word_satisfies(q, word);
    words::run(q.variables, table, word)
        .ok()
        .filter(|said| *said == yes)
}

// How many of the short words satisfy.
pub fn run_short(q: &Sheet, table: &[u16]) -> Option<usize> {
    let mut all: usize = 0;
    for number in 0..SHORT_WORDS {
        let word = Short::numbered(number, q.letters());
        all = all.saturating_add(usize::from(run_word(q, table, word.as_slice())?));
    }
    Some(all)
}

// How many of the long words satisfy.
pub fn run_long(q: &Sheet, table: &[u16], chance: &mut Chance) -> Option<usize> {
    let mut right = true;
    let mut all: usize = 0;
    for _ in 0..TIMES {
        for drawing in Drawing::ALL {
            let mut room = [0u8; LONG];
            let word = draw_word(drawing, q.letters(), chance, &mut room);
            match run_word(q, table, word) {
                Some(yes) => all = all.saturating_add(usize::from(yes)),
                None => right = false,
            }
        }
    }
    if right { Some(all) } else { None }
}
