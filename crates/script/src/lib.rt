// The commands of SMT-LIB text in their order: what is declared and asserted, and the lowest place that is outside the subset or beyond its limits.
#![tactic(auto)]

mod changes;
mod commands;
mod listed;
mod missing;

ghost use Rattle.std.specs.Prelude.{ℕ, List};
ghost use Rattle.smtlib.specs.Script.{no_script, script_of};
ghost use Rattle.forms.specs.Places.{forms_at, Unbroken};
ghost use Rattle.script.specs.Kept.{Keeps};

pub use commands::{command, head_of};
use forms::{Form, form_at, form_end};
use lexicon::Spot;
pub use listed::{command_at, signed_name};
pub use missing::fault_of;

// A seventh name is kept, since its sign assertion may be missing.
pub const NAMES: usize = 7;

// The parts of a list: four are more than any command has.
#[derive(Clone, Copy)]
pub enum Parts {
    Zero,
    One(Form),
    Two(Form, Form),
    Three(Form, Form, Form),
    More,
}

#[derive(Clone, Copy)]
pub enum CommandName {
    SetLogic,
    DeclareConst,
    Assert,
    CheckSat,
    Other,
}

// A command by its name, and where its parts start.
#[derive(Clone, Copy)]
pub struct CommandHead {
    pub name: CommandName,
    pub next: usize,
}

// Where a script stands: set-logic is due; under the logic; or behind check-sat, which is at this place.
#[derive(Clone, Copy)]
pub enum Phase {
    Start,
    Under,
    Checked(usize),
}

// What is kept of a script: where it stands; how many names there are, and of each where its spelling starts and ends (bounds), the place of its
// command, that of its token, and whether it has a sign assertion; how many other assertions there are; and the lowest place that is a 15 and that is a 4.
#[derive(Clone, Copy)]
pub struct Kept {
    pub phase: Phase,
    pub count: usize,
    pub bounds: [usize; 2 * NAMES],
    pub places: [usize; NAMES],
    pub tokens: [usize; NAMES],
    pub signed: [bool; NAMES],
    pub asserted: usize,
    pub outside: Spot,
    pub beyond: Spot,
}

impl Kept {
    // Before the first command.
    pub fn none() -> Kept
        ensures { (text : List ℕ) → Keeps text no_script result }
    {
        let none = None;
        Kept {
            phase: Phase::Start,
            count: 0,
            bounds: [0; 2 * NAMES],
            places: [0; NAMES],
            tokens: [0; NAMES],
            signed: [false; NAMES],
            asserted: 0,
            outside: none,
            beyond: none,
        }
    }
}

// The script of a text that is not broken.
pub fn script_of(text: &[u8]) -> Kept
    requires { Unbroken text.now 0 0 }
    ensures { Keeps text.now (script_of (forms_at text.now 0)) result }
{
    let mut kept = Kept::none();
    let mut next = 0;
    loop {
        let form = form_at(text, next);
        if form.kind < Form::OPEN {
            return kept;
        }
        let more = command(text, form, kept);
        kept = more;
        next = form_end(text, form);
    }
}
