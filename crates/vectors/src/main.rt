// Runs the outside vectors, a call and its outcome a line, through the compiled calls, and counts by file and kind those that come out as the line says.
// A line that cannot be taken apart counts as wrong. What a program prints is tested and not proved; that it is safe and ends is proved.
#![tactic(auto)]

mod areas;
mod as_bytes;
mod asking;
mod cells;
mod judging;
mod numbers;
mod parts;
mod rows;
mod spelling;
mod tally;

use compared::buffers::first;
use std::fs::File;
use std::io;
use std::io::Write;

// The most bytes of a file of vectors.
const TEXT: usize = 500_000;

// Runs the vectors of an open file.
fn run_open<W: Write>(out: &mut W, file: &mut File) -> io::Result<()> {
    let mut text = [0u8; TEXT];
    let n = input::read_full(file, &mut text)?;
    if n == TEXT {
        writeln!(out, "too long")
    } else {
        tally::run(out, first(&text, n))
    }
}

fn run_file(rt: &HostRuntime, name: &str) -> io::Result<()> {
    let mut file = File::open(rt, name)?;
    let mut out = rt.stdout();
    writeln!(out, "{name}:")?;
    run_open(&mut out, &mut file)
}

fn main(rt: HostRuntime) -> io::Result<()> {
    for name in ["base.txt", "e1.txt", "e2.txt"] {
        run_file(&rt, name)?;
    }
    Ok(())
}
