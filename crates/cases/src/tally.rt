// What is counted, and what is said where something differs. What is looked at is a count, or none where it differs.
use std::io::Write;
use std::{fmt, io};

#[derive(Clone, Copy, PartialEq, Eq, Debug)]
pub enum Kind {
    Questions,
    Found,
    Never,
    NoRoom,
    Rows,
    Again,
    Tuples,
    Judged,
    Words,
    Met,
    Built,
    NotBuilt,
    TableRows,
    Run,
    RunMet,
    Differences,
}

impl Kind {
    const ALL: [Kind; 16] = [
        Kind::Questions,
        Kind::Found,
        Kind::Never,
        Kind::NoRoom,
        Kind::Rows,
        Kind::Again,
        Kind::Tuples,
        Kind::Judged,
        Kind::Words,
        Kind::Met,
        Kind::Built,
        Kind::NotBuilt,
        Kind::TableRows,
        Kind::Run,
        Kind::RunMet,
        Kind::Differences,
    ];
}

impl fmt::Display for Kind {
    fn fmt<W: fmt::Write>(&self, f: &mut fmt::Formatter<W>) -> fmt::Result {
        f.write_str(match self {
            Kind::Questions => "questions by chance",
            Kind::Found => "decided found",
            Kind::Never => "decided never",
            Kind::NoRoom => "decided no room",
            Kind::Rows => "rows looked at",
            Kind::Again => "decided again in fewer rows or letters",
            Kind::Tuples => "tuples tried",
            Kind::Judged => "tuples judged",
            Kind::Words => "words tried in order",
            Kind::Met => "first words that satisfy",
            Kind::Built => "tables built",
            Kind::NotBuilt => "tables not built for want of room",
            Kind::TableRows => "table rows looked at",
            Kind::Run => "words run",
            Kind::RunMet => "words run that satisfy",
            Kind::Differences => "differences",
        })
    }
}

// What is counted where it is right.
pub fn where_right(right: bool, amount: usize) -> Option<usize> {
    if right { Some(amount) } else { None }
}

// The counts, and the number of the question that is asked.
#[derive(Drop)]
pub struct Tally {
    counts: [usize; Kind::ALL.len()],
    pub question: usize,
}

impl Tally {
    pub fn new() -> Tally {
        Tally {
            counts: [0; Kind::ALL.len()],
            question: 0,
        }
    }

    fn count(&mut self, counted: Kind, amount: usize) {
        for (kind, count) in Kind::ALL.iter().zip(self.counts.iter_mut()) {
            if *kind == counted {
                *count = count.saturating_add(amount);
            }
        }
    }

    // Counts an amount of a kind, or a difference.
    pub fn add<W: Write>(
        &mut self,
        out: &mut W,
        kind: Kind,
        amount: Option<usize>,
    ) -> io::Result<()> {
        if let Some(amount) = amount {
            self.count(kind, amount);
            return Ok(());
        }
        self.count(Kind::Differences, 1);
        writeln!(out, "{kind} differs in question {}", self.question)
    }

    // Counts amounts of some kinds.
    pub fn add_all<W: Write>(
        &mut self,
        out: &mut W,
        amounts: &[(Kind, Option<usize>)],
    ) -> io::Result<()> {
        for (kind, amount) in amounts {
            self.add(out, *kind, *amount)?;
        }
        Ok(())
    }

    pub fn print<W: Write>(&self, out: &mut W) -> io::Result<()> {
        for (kind, count) in Kind::ALL.iter().zip(&self.counts) {
            writeln!(out, "{kind} {count}")?;
        }
        Ok(())
    }
}

// Says whether a case is right.
pub fn say<W: Write>(out: &mut W, name: &str, right: bool) -> io::Result<()> {
    let verdict = if right { "right" } else { "wrong" };
    writeln!(out, "{name} {verdict}")
}
