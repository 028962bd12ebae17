// The questions by chance, one by one.
ghost use Rattle.std.specs.Prelude.{◌≤◌};

use crate::as_bytes::{reads_back, written};
use crate::building::built_amounts;
use crate::deciding::decided_amounts;
use crate::judging::judged;
use crate::tally::{Kind, Tally, where_right};
use compared::asked::{decided_in, letters_found};
use compared::buffers::{BYTE_MARK, first};
use scope::Question;
use search::chance::Chance;
use search::drawn::draw;
use search::edges::ROWS;
use search::held::question_of;
use search::sheet::Sheet;
use search::tried::large_tuple;
use std::io;
use std::io::Write;

const SEED: u64 = 20_260_101;

// The questions for each n and m, and the bytes of one at most.
const TIMES: usize = 20;

const BYTES: usize = 512;

// Compares what the calls say of a question's bytes.
fn compare<W: Write>(
    out: &mut W,
    q: &Sheet,
    bytes: &[u8],
    chance: &mut Chance,
    tally: &mut Tally,
) -> io::Result<()> {
    let mut word = [BYTE_MARK; ROWS];
    let told = decided_in(bytes, q.m, ROWS, &mut word);
    let found = first(&word, letters_found(&told));
    let few = chance.below(30) as usize;
    tally.add_all(out, &decided_amounts(q, bytes, told, found, few))?;
    tally.add_all(out, &built_amounts(q, bytes, told, found, chance))?;
    let right = judged(q, bytes, &large_tuple(chance));
    tally.add(out, Kind::Judged, where_right(right, 0))
}

// Draws a question with n variables and m atoms, writes it, reads it back, and compares.
fn ask<W: Write>(
    out: &mut W,
    n: usize,
    m: usize,
    chance: &mut Chance,
    tally: &mut Tally,
) -> io::Result<()>
    requires { n ≤ 6 }
{
    let q = draw(n, m, chance);
    let question = question_of(&q);
    let mut room = [0u8; BYTES];
    let bytes = written(&question, &mut room);
    let same = reads_back(bytes, &question);
    tally.add(out, Kind::Questions, where_right(same, 1))?;
    compare(out, &q, bytes, chance, tally)
}

// Asks every question and prints the counts.
pub fn run<W: Write>(out: &mut W) -> io::Result<()> {
    let mut tally = Tally::new();
    let mut chance = Chance::from_seed(SEED);
    for _ in 0..TIMES {
        for m in 1..=Question::ATOMS {
            for n in 1..=Question::VARIABLES {
                ask(out, n, m, &mut chance, &mut tally)?;
                tally.question = tally.question.saturating_add(1);
            }
        }
    }
    tally.print(out)
}
