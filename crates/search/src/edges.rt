// Where each state comes up first: the state that leads to it and the letter that does.
ghost use Rattle.std.specs.Prelude.{◌<◌};

use crate::plain::Values;
use crate::sheet::Sheet;
use scope::Question;

// The rows of which the states are looked at, and the cells of all of them.
pub const ROWS: usize = 600;

pub const KEYS: usize = Question::ATOMS * ROWS;

pub const PATH: usize = 2 * ROWS;

pub const TABLE: usize = (1 + Question::LETTERS) * ROWS;

// An edge is before another where its state is, and by one state where its letter is.
#[derive(Clone, Copy, PartialEq, Eq, PartialOrd, Ord, Debug)]
pub struct Edge {
    from: usize,
    letter: usize,
}

impl Edge {
    // Whether it is from an earlier state than one and by a letter.
    fn leads_to(self, state: usize, letters: usize) -> bool {
        self.from < state && self.letter < letters
    }
}

// The edges by which the states come up, one for each state that does; the first state's says nothing.
#[derive(Drop)]
pub struct Edges {
    all: [Option<Edge>; ROWS],
}

impl Edges {
    // The edges that a path area has.
    pub fn of_path(path: &[u16; PATH]) -> Edges {
        let (pairs, _) = path.as_chunks::<2>();
        let mut all = [None; ROWS];
        for (edge, [from, letter]) in all.iter_mut().zip(pairs) {
            *edge = Some(Edge {
                from: usize::from(*from),
                letter: usize::from(*letter),
            });
        }
        Edges { all }
    }

    // The edges of a table with rows of a mark and so many letters: a state comes up first after the state before it.
    pub fn of_table(table: &[u16; TABLE], letters: usize) -> Edges
        requires { letters < 65 }
    {
        let mut all = [None; ROWS];
        let mut next: usize = 1;
        for (from, row) in table.chunks_exact(letters + 1).enumerate() {
            for (letter, cell) in row.iter().skip(1).enumerate() {
                if usize::from(*cell) == next && next < ROWS {
                    all[next] = Some(Edge { from, letter });
                    next += 1;
                }
            }
        }
        Edges { all }
    }

    // Whether so many states come up in order, each by an edge from an earlier state that comes after the edge of the state before it.
    pub fn are_right(&self, q: &Sheet, states: usize) -> bool {
        let letters = q.letters();
        let Some(edges) = self.all.get(..states) else {
            return false;
        };
        let mut led = edges.iter().enumerate().skip(1);
        let mut steps = edges.windows(2).skip(1);
        led.all(|(state, edge)| edge.is_some_and(|edge| edge.leads_to(state, letters)))
            && steps.all(|two| two[0] < two[1])
    }

    // What the first word of a state spells, from its last letter back.
    pub fn word_of(&self, state: usize) -> Values {
        let mut values = Values::EMPTY;
        let mut at = state;
        // From state to state, not through a list.
        while 0 < at {
            let Some(edge) = self.all[at % ROWS] else {
                return values;
            };
            values.put_letter(edge.letter as u64);
            at = edge.from.min(at - 1);
        }
        values
    }
}
