// The cases of document 01 that are worked by hand and not proved: the coconuts, no bytes at all, and no rows.
use crate::as_bytes::{ended, read_none, written};
use crate::coconuts::{EQUATIONS, KEYS, PATH, STATES, coconuts, keys_right, path_right};
use crate::judging::judged_none;
use crate::tally::say;
use compared::asked::{Fault, built, decided};
use compared::buffers::{BYTE_MARK, CELL_MARK, KEY_MARK, front};
use scope::{Building, Decision};
use std::io;
use std::io::Write;

const BYTES: usize = 256;

const LETTERS: usize = 8;

// The cells of a row of the coconuts' table.
const WIDTH: usize = 65;

// Whether deciding finds the word of the letter 63, and every cell is as worked by hand.
fn found_one_letter(bytes: &[u8]) -> bool {
    let mut keys = [KEY_MARK; KEYS];
    let mut path = [CELL_MARK; PATH];
    let mut word = [BYTE_MARK; LETTERS];
    let told = decided(bytes, EQUATIONS, &mut keys, &mut path, &mut word);
    let found = Decision::Found {
        states: STATES,
        letters: 1,
    };
    told == Ok(found) && word[0] == 63 && keys_right(&keys) && path_right(&path)
}

// Whether deciding in so many cells of either area tells what is told here, and leaves them as they were.
fn decided_none(bytes: &[u8], entries: usize, steps: usize, none: Result<Decision, Fault>) -> bool {
    let mut keys = [KEY_MARK; KEYS];
    let mut path = [CELL_MARK; PATH];
    let mut word = [BYTE_MARK; LETTERS];
    let keys = front(&mut keys, entries);
    let path = front(&mut path, steps);
    decided(bytes, EQUATIONS, keys, path, &mut word) == none
}

// The same of building.
fn built_none(bytes: &[u8], entries: usize, cells: usize, none: Result<Building, Fault>) -> bool {
    let mut keys = [KEY_MARK; KEYS];
    let mut table = [CELL_MARK; PATH];
    let keys = front(&mut keys, entries);
    let table = front(&mut table, cells);
    built(bytes, EQUATIONS, WIDTH, keys, table) == none
}

// Whether there is no room in some cells of either area and no whole row of both: five key cells, two path cells, 65 table cells.
fn no_rows(bytes: &[u8]) -> bool {
    [(0, 0, 0), (4, PATH, PATH), (KEYS, 1, 64)].iter().all(|(entries, steps, cells)| {
        decided_none(bytes, *entries, *steps, Ok(Decision::NoRoom { states: 0 }))
            && built_none(bytes, *entries, *cells, Ok(Building::NoRoom { states: 0 }))
    })
}

// Whether every call says 1 at 0 of no bytes.
fn no_bytes() -> bool {
    let refused = Fault::Refused(ended());
    read_none()
        && judged_none()
        && decided_none(b"", KEYS, PATH, Err(refused))
        && built_none(b"", KEYS, PATH, Err(refused))
}

pub fn run<W: Write>(out: &mut W) -> io::Result<()> {
    let mut room = [0u8; BYTES];
    let bytes = written(&coconuts(), &mut room);
    say(out, "five coconut equations", found_one_letter(bytes))?;
    say(out, "no bytes at all", no_bytes())?;
    say(out, "no rows", no_rows(bytes))
}
