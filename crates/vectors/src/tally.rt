// The lines of a file one by one, the call of each, and the counts.
use crate::areas::{build_right, decide_right};
use crate::as_bytes::{import_right, read_right, record_right, write_right};
use crate::asking::ask_right;
use crate::judging::judge_right;
use crate::numbers::{BYTES, bytes_in};
use crate::parts::{hex_part, part};
use crate::rows::{build_rows_right, decide_rows_right};
use crate::spelling::spell_right;
use std::io::Write;
use std::{fmt, io};

// The kinds of line: the calls, then deciding and building as base.txt has them, in rows, importing, and the last for a line of no kind.
#[derive(Clone, Copy, PartialEq, Eq, Debug)]
enum Kind {
    Read,
    Write,
    Record,
    Judge,
    Spell,
    Ask,
    Decide,
    Build,
    DecideRows,
    BuildRows,
    Import,
    Other,
}

impl Kind {
    const ALL: [Kind; 12] = [
        Kind::Read,
        Kind::Write,
        Kind::Record,
        Kind::Judge,
        Kind::Spell,
        Kind::Ask,
        Kind::Decide,
        Kind::Build,
        Kind::DecideRows,
        Kind::BuildRows,
        Kind::Import,
        Kind::Other,
    ];

    fn name(self) -> &'static str {
        match self {
            Kind::Read => "read",
            Kind::Write => "write",
            Kind::Record => "record",
            Kind::Judge => "judge",
            Kind::Spell => "spell",
            Kind::Ask => "ask",
            Kind::Decide | Kind::DecideRows => "decide",
            Kind::Build | Kind::BuildRows => "build",
            Kind::Import => "import",
            Kind::Other => "other",
        }
    }

    // Whether lines of the kind have an `=`: only those of base.txt and e2.txt have none.
    fn is_told_by(self, sign: bool) -> bool {
        match self {
            Kind::Read | Kind::Write | Kind::Judge | Kind::Spell => true,
            Kind::Record | Kind::Ask | Kind::Decide | Kind::Build => sign,
            Kind::DecideRows | Kind::BuildRows | Kind::Import => !sign,
            Kind::Other => false,
        }
    }

    fn of(line: &[u8]) -> Kind {
        let call = part(line, 0);
        let sign = line.contains(&b'=');
        // A line that begins with its sign is taken for one of deciding in rows.
        if call == b"=".as_slice() {
            return Kind::DecideRows;
        }
        for kind in Kind::ALL {
            if call == kind.name().as_bytes() && kind.is_told_by(sign) {
                return kind;
            }
        }
        Kind::Other
    }

    // The calls of some bytes, which a line has first.
    fn asked_right(self, line: &[u8], bytes: &[u8]) -> bool {
        match self {
            Kind::Read => read_right(line, bytes),
            Kind::Record => record_right(line, bytes),
            Kind::Judge => judge_right(line, bytes),
            Kind::Ask => ask_right(line, bytes),
            Kind::Decide => decide_right(line, bytes),
            Kind::Build => build_right(line, bytes),
            Kind::DecideRows => decide_rows_right(line, bytes),
            Kind::BuildRows => build_rows_right(line, bytes),
            Kind::Import => import_right(line, bytes),
            Kind::Write | Kind::Spell | Kind::Other => false,
        }
    }

    fn is_right(self, line: &[u8]) -> bool {
        let mut room = [0u8; BYTES];
        match self {
            Kind::Write => write_right(line),
            Kind::Spell => spell_right(line),
            _ => bytes_in(hex_part(line, 1), &mut room).is_some_and(|bytes| self.asked_right(
                line, bytes,
            )),
        }
    }
}

impl fmt::Display for Kind {
    fn fmt<W: fmt::Write>(&self, f: &mut fmt::Formatter<W>) -> fmt::Result {
        f.write_str(self.name())
    }
}

// How many lines of a kind are right, and how many wrong.
#[derive(Clone, Copy)]
struct Count {
    right: usize,
    wrong: usize,
}

impl Count {
    fn add(&mut self, right: bool) {
        if right {
            self.right = self.right.saturating_add(1);
        } else {
            self.wrong = self.wrong.saturating_add(1);
        }
    }
}

impl fmt::Display for Count {
    fn fmt<W: fmt::Write>(&self, f: &mut fmt::Formatter<W>) -> fmt::Result {
        write!(f, "{} right, {} wrong", self.right, self.wrong)
    }
}

// Runs a line, and counts it.
fn run_line<W: Write>(
    out: &mut W,
    line: &[u8],
    number: usize,
    counts: &mut [Count; Kind::ALL.len()],
) -> io::Result<()> {
    let called = Kind::of(line);
    let right = called.is_right(line);
    for (kind, count) in Kind::ALL.iter().zip(counts.iter_mut()) {
        if *kind == called {
            count.add(right);
        }
    }
    if right {
        return Ok(());
    }
    writeln!(out, "wrong: line {number}")
}

// Runs every line of a text and prints the counts. A kind that it has no line of is passed over.
pub fn run<W: Write>(out: &mut W, text: &[u8]) -> io::Result<()> {
    let mut counts = [Count { right: 0, wrong: 0 }; Kind::ALL.len()];
    let lines = text.iter().filter(|b| **b == b'\n').count();
    for (number, line) in (1..=lines).zip(text.split(|b| *b == b'\n')) {
        run_line(out, line, number, &mut counts)?;
    }
    for (kind, count) in Kind::ALL.iter().zip(&counts) {
        if 0 < count.right || 0 < count.wrong {
            writeln!(out, "{kind} {count}")?;
        }
    }
    Ok(())
}
