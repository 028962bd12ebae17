// What is missing at the text's end, and the fault that is told.
ghost use Rattle.std.specs.Prelude.{◌≤◌};
ghost use Rattle.script.specs.Faults.{UnsignedPlace, MissingForm, MissingName, LowerTold, FaultTold};

use crate::changes::unless;
use crate::{Kept, Phase};
use lexicon::{Spot, lower};
use scope::{Refusal, Rule};

// The lowest place of a declaration whose name has no sign assertion.
fn unsigned_place(kept: Kept) -> Spot
    requires { kept.count ≤ 7 }
    ensures { UnsignedPlace kept result }
{
    let count = kept.count;
    let places = kept.places;
    let signed = kept.signed;
    let mut spot = None;
    for i in 0..count {
        spot = lower(spot, unless(signed[i], places[i]));
    }
    spot
}

// No check-sat, at the end; no other assertion, at check-sat.
fn missing_form(kept: Kept, end: usize) -> Spot
    ensures { MissingForm kept end result }
{
    match kept.phase {
        Phase::Checked(at) => unless(0 < kept.asserted, at),
        _ => unless(false, end),
    }
}

// No name, at check-sat.
fn missing_name(kept: Kept) -> Spot
    ensures { MissingName kept result }
{
    match kept.phase {
        Phase::Checked(at) => unless(0 < kept.count, at),
        _ => unless(true, 0),
    }
}

// The lower of a 15 and a 4; at one byte the 15.
fn told(outside: Spot, beyond: Spot) -> Result<(), Refusal>
    ensures { LowerTold outside beyond result }
{
    match (outside, beyond) {
        (Some(place), Some(later)) if later < place => Err(Rule::BeyondLimit.at(later)),
        (Some(place), Some(_)) => Err(Rule::OutsideSubset.at(place)),
        (Some(place), None) => Err(Rule::OutsideSubset.at(place)),
        (None, Some(place)) => Err(Rule::BeyondLimit.at(place)),
        (None, None) => Ok(()),
    }
}

// The fault of a script, of a text with so many bytes: the lowest place, 15 before 4.
pub fn fault_of(kept: Kept, end: usize) -> Result<(), Refusal>
    requires { kept.count ≤ 7 }
    ensures { FaultTold kept end result }
{
    let outside = kept.outside;
    let beyond = kept.beyond;
    told(
        lower(
            outside,
            lower(unsigned_place(kept), missing_form(kept, end)),
        ),
        lower(beyond, missing_name(kept)),
    )
}
