// What a command changes in what is kept.
ghost use Rattle.std.specs.Prelude.{◌≡◌, [], ◌∷◌, ◌+◌, ◌^◌, ◌≤◌, ◌<◌};
ghost use Rattle.smtlib.specs.Script.{unless, lowest_of};
ghost use Rattle.lexicon.specs.Spots.{spot_of};
ghost use Rattle.script.specs.Changes.{MovesOn, FaultsOn, NamesOn, SignsOn, AssertsOn};

use crate::{Kept, NAMES, Phase};
use forms::Form;
use lexicon::{Spot, lower};
use scope::Question;

// A place, unless.
pub fn unless(holds: bool, place: usize) -> Spot
    ensures { result ≡ spot_of (lowest_of (unless holds place)) }
{
    if holds { None } else { Some(place) }
}

// Another phase, and the lowest of more 15s.
pub fn moved(kept: Kept, phase: Phase, fault: Spot) -> Kept
    ensures { MovesOn kept phase fault result }
{
    let outside = lower(kept.outside, fault);
    Kept {
        phase,
        outside,
        ..kept
    }
}

// More 15s, by the lowest of them.
pub fn with_faults(kept: Kept, fault: Spot) -> Kept
    ensures { FaultsOn kept fault result }
{
    moved(kept, kept.phase, fault)
}

// A 15 at a place.
pub fn with_fault(kept: Kept, place: usize) -> Kept
    ensures { FaultsOn kept (spot_of (lowest_of (place ∷ []))) result }
{
    with_faults(kept, unless(false, place))
}

// A new name, declared at a place. From the seventh on a name is a 4; the seventh is kept, and none behind it.
pub fn with_name(kept: Kept, place: usize, name: Form) -> Kept
    requires { kept.count ≤ 7 }
    ensures { NamesOn kept place name result }
{
    let count = kept.count;
    let earlier = kept.beyond;
    let beyond = lower(earlier, unless(count < Question::VARIABLES, name.place));
    let mut next = kept;
    next.beyond = beyond;
    if NAMES <= count {
        return next;
    }
    next.bounds[2 * count] = name.from;
    next.bounds[2 * count + 1] = name.to;
    next.places[count] = place;
    next.tokens[count] = name.place;
    next.signed[count] = false;
    next.count = count + 1;
    next
}

// A sign assertion of a name.
pub fn with_sign(kept: Kept, i: usize) -> Kept
    requires { i < 7 }
    ensures { SignsOn kept i result }
{
    let mut next = kept;
    next.signed[i] = true;
    next
}

// Another assertion, with the lowest of its faults.
pub fn with_assertion(kept: Kept, fault: Spot) -> Kept
    requires { kept.asserted + 1 < 2 ^ 64 }
    ensures { AssertsOn kept fault result }
{
    let outside = lower(kept.outside, fault);
    Kept {
        asserted: kept.asserted + 1,
        outside,
        ..kept
    }
}
