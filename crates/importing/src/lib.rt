// Importing a question from SMT-LIB text, as document 02, E2 has it.
#![tactic(auto)]

pub mod answer;
mod commands;

ghost use Rattle.std.specs.Prelude.{◌≡◌, ◌*◌, ◌≤◌, take, replicate};
ghost use Rattle.std.proofs.Math.Option.{none};
ghost use Rattle.scope.specs.Whole.{at_front};
ghost use Rattle.scope.specs.Sizes.{most_variables};
ghost use Rattle.smtlib.specs.Lexicon.{broken_at};
ghost use Rattle.smtlib.specs.Cases.{script_in, fault_in};
ghost use Rattle.script.specs.Kept.{Keeps};
ghost use Rattle.importing.specs.Given.{import_given};

use answer::{BOUNDS, Import};
use commands::lay_commands;
use lexicon::broken_at;
use scope::{Refusal, Rule};
use script::{Kept, NAMES, fault_of, script_of};

// The bounds of the first so many names, zeros behind them.
fn first_bounds(bounds: [usize; 2 * NAMES], count: usize) -> [usize; BOUNDS]
    requires { count ≤ most_variables }
    ensures { result ≡ at_front (take (2 * count) bounds) (replicate (2 * most_variables) 0) }
{
    let mut names = [0; BOUNDS];
    names[..2 * count].copy_from_slice(&bounds[..2 * count]);
    names
}

// Imports a text whose script has no fault.
fn import_faultless(text: &[u8], kept: Kept) -> Result<Import, Refusal>
    requires { Keeps text.now (script_in text.now) kept × ((broken_at text.now ≡ none) × (fault_in text.now ≡ none)) }
    ensures { result ≡ import_given text.now }
{
    let bounds = kept.bounds;
    let laying = lay_commands(text, &bounds, kept.count, kept.asserted)?;
    Ok(Import::accepted(laying, first_bounds(bounds, kept.count)))
}

// Imports the question of a text.
pub fn import(text: &[u8]) -> Result<Import, Refusal>
    ensures { result ≡ import_given text.now }
{
    if let Some(place) = broken_at(text) {
        return Err(Rule::NotWellFormed.at(place));
    }
    let kept = script_of(text);
    fault_of(kept, text.len())?;
    import_faultless(text, kept)
}
