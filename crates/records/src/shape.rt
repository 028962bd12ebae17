// The formula as far as it is known, which reading and writing both walk along.
ghost use Rattle.std.specs.Prelude.{◌≡◌};
ghost use Rattle.records.specs.Formula.{first_due, Open, Grown, Unread};

use scope::Question;

// Room for the parts that can be due: no more than there are nodes, and one.
pub const DUE: usize = Question::NODES + 2;

// Its nodes and atoms so far. The depths of the parts still due stand in due from top on, the next one first.
#[derive(Clone, Copy)]
pub struct Shape {
    pub nodes: usize,
    pub atoms: usize,
    top: usize,
    due: [u8; DUE],
}

impl Shape {
    // One formula is due, its root at depth 1.
    pub fn unread() -> Self
        ensures { Unread result }
    {
        Shape {
            nodes: 0,
            atoms: 0,
            top: DUE - 1,
            due: [1; DUE],
        }
    }

    // The depth of the part that is due first.
    pub fn depth(&self) -> Option<usize>
        ensures { result ≡ first_due self.now }
    {
        self.due.get(self.top).map(|&depth| usize::from(depth))
    }

    // A node takes the place of the part that was due first, and its own parts are due before the others, one deeper.
    pub fn grow(&mut self, code: u8)
        requires { Open self.old code }
        ensures { Grown self.old code self.new }
    {
        self.nodes += 1;
        match code {
            1 | 2 => {
                self.atoms += 1;
                self.top += 1;
            }
            3 => self.due[self.top] += 1,
            _ => {
                let deeper = self.due[self.top] + 1;
                let below = self.top - 1;
                self.due[self.top] = deeper;
                self.due[below] = deeper;
                self.top = below;
            }
        }
    }
}
