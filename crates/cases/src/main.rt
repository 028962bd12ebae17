// Runs the cases of document 01 that are not proved, and asks questions by chance, whose answers are compared with a search that is
// written another way. What a program prints is tested and not proved; that it is safe and ends is proved.
#![tactic(auto)]

mod as_bytes;
mod building;
mod coconuts;
mod deciding;
mod hand;
mod judging;
mod questions;
mod running;
mod tally;

use std::io;

fn main(rt: HostRuntime) -> io::Result<()> {
    let mut out = rt.stdout();
    hand::run(&mut out)?;
    questions::run(&mut out)
}
