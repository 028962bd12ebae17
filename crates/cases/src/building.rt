// Building beside what deciding told, row by row, and again in fewer rows.
use crate::running::{LONG_WORDS, SHORT_WORDS, run_long, run_short, run_word};
use crate::tally::{Kind, where_right};
use compared::asked::{Fault, built, built_in, states_built};
use compared::buffers::{CELL_MARK, KEY_MARK, cells_of, first, front_rows};
use scope::{Building, Decision};
use search::bound::bound_of;
use search::cells::look_table;
use search::chance::Chance;
use search::edges::{KEYS, ROWS, TABLE};
use search::sheet::Sheet;

// The cells of a table's row.
fn width_of(q: &Sheet) -> usize {
    q.letters() + 1
}

// What building makes in so many rows of a marked table.
fn made_in(q: &Sheet, bytes: &[u8], rows: usize, table: &mut [u16]) -> Result<Building, Fault> {
    built_in(bytes, q.m, width_of(q), rows, table)
}

fn made_by(q: &Sheet, bytes: &[u8], rows: usize) -> Result<Building, Fault> {
    let mut table = [CELL_MARK; TABLE];
    made_in(q, bytes, rows, &mut table)
}

// How many rows of a table that is built are right.
fn rows_right(q: &Sheet, bytes: &[u8]) -> Option<usize> {
    let width = width_of(q);
    let mut keys = [KEY_MARK; KEYS];
    let mut table = [CELL_MARK; TABLE];
    let made = built(
        bytes,
        q.m,
        width,
        front_rows(&mut keys, ROWS, q.m),
        front_rows(&mut table, ROWS, width),
    );
    look_table(q, &keys, &table, states_built(&made))
}

// Whether the states built fit what deciding told: as many where nothing satisfies, and at least as many where a word is found.
fn fits(made: Result<Building, Fault>, told: Result<Decision, Fault>, bound: u64) -> bool {
    match (made, told) {
        (Ok(Building::NoRoom { .. }), Ok(Decision::Never { .. })) => false,
        (Ok(Building::NoRoom { states }), _) => states == ROWS && (ROWS as u64) < bound,
        (Ok(Building::Built { states }), Ok(Decision::Found { states: least, .. })) => {
            states as u64 <= bound && least <= states
        }
        (Ok(Building::Built { states }), Ok(Decision::Never { states: all })) => {
            states as u64 <= bound && states == all
        }
        _ => false,
    }
}

// Whether building in the states made and in one less makes what follows.
fn same_again(q: &Sheet, bytes: &[u8], made: Result<Building, Fault>) -> bool {
    match made {
        Ok(Building::NoRoom { .. }) => true,
        Ok(Building::Built { states }) => {
            let fewer = states.saturating_sub(1);
            made_by(q, bytes, states) == made
                && made_by(q, bytes, fewer) == Ok(Building::NoRoom { states: fewer })
        }
        Err(_) => false,
    }
}

fn right_amount(
    q: &Sheet,
    bytes: &[u8],
    told: Result<Decision, Fault>,
    made: Result<Building, Fault>,
) -> Option<usize> {
    where_right(
        fits(made, told, bound_of(q)) && same_again(q, bytes, made),
        1,
    )
}

// How many words are run, where a table says of the word found that it satisfies.
fn words_run(
    q: &Sheet,
    table: &[u16],
    told: Result<Decision, Fault>,
    found: &[u8],
) -> Option<usize> {
    let met = match told {
        Ok(Decision::Found { .. }) => run_word(q, table, found) == Some(true),
        _ => true,
    };
    where_right(met, SHORT_WORDS as usize + LONG_WORDS)
}

// What is counted of building, from tables built to words run that satisfy.
pub fn built_amounts(
    q: &Sheet,
    bytes: &[u8],
    told: Result<Decision, Fault>,
    found: &[u8],
    chance: &mut Chance,
) -> [(Kind, Option<usize>); 4] {
    let mut table = [CELL_MARK; TABLE];
    let made = made_in(q, bytes, ROWS, &mut table);
    let right = right_amount(q, bytes, told, made);
    let Ok(Building::Built { states }) = made else {
        let none = (Kind::NotBuilt, Some(0));
        return [(Kind::NotBuilt, right), none, none, none];
    };
    let cells = first(&table, cells_of(states, width_of(q)).unwrap_or(0));
    let short = run_short(q, cells);
    let long = run_long(q, cells, chance);
    [
        (Kind::Built, right),
        (Kind::TableRows, rows_right(q, bytes)),
        (Kind::Run, words_run(q, cells, told, found)),
        (
            Kind::RunMet,
            short
                .zip(long)
                .map(|(short, long)| short.saturating_add(long)),
        ),
    ]
}
