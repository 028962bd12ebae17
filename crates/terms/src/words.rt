// Words as terms: a numeral, or a name that is declared.
ghost use Rattle.std.specs.Prelude.{◌≡◌, List, ℕ, ◌≤◌, length, pos};
ghost use Rattle.smtlib.specs.Terms.{most_numeral, constantly, one_of, index_from, word_term};
ghost use Rattle.smtlib.specs.Forms.{numeral, symbol};
ghost use Rattle.lexicon.specs.Spots.{stretch};
ghost use Rattle.forms.specs.Read.{OTHER, clipped};
ghost use Rattle.terms.specs.Names.{names_in, NamesStand, IndexOf};
ghost use Rattle.terms.specs.Read.{TermSays, WordTermed};

use crate::{Collected, NUMBERS, TermPart};
use forms::Form;
use lexicon::{Spot, same_stretch};

// The number of a name among those declared so far.
pub fn name_index(
    text: &[u8],
    from: usize,
    to: usize,
    names: &[usize],
    count: usize,
) -> Option<usize>
    requires { NamesStand text.now names.now count × ((from ≤ to) × (to ≤ length text.now)) }
    ensures { IndexOf (index_from 0 (stretch text.now from to) (names_in text.now names.now count)) count result }
{
    for i in 0..count {
        if same_stretch(text, from, to, names[2 * i], names[2 * i + 1]) {
            return Some(i);
        }
    }
    None
}

// A constant alone.
fn constant(value: u64) -> [i64; NUMBERS]
    requires { value ≤ most_numeral }
    ensures { result ≡ constantly (pos value) }
{
    let mut numbers = [0i64; NUMBERS];
    // i64 has no From<u64>.
    numbers[0] = value as i64;
    numbers
}

// One of a name: a seventh has no place.
fn one_of(i: usize) -> [i64; NUMBERS]
    ensures { result ≡ one_of i }
{
    let mut numbers = [0i64; NUMBERS];
    if i < NUMBERS - 1 {
        numbers[i + 1] = 1;
    }
    numbers
}

const MOST_NUMERAL: u64 = 1_000_000;

// A numeral as a term.
fn numeral_term(value: u64, place: usize) -> Collected
    ensures { (names : List (List ℕ)) (v : ℕ) → value ≡ clipped v → TermSays (word_term names place (numeral v)) result }
{
    if value <= MOST_NUMERAL {
        return Collected::of(true, constant(value));
    }
    Collected::faulty(true, Some(place))
}

// A symbol as a term.
fn name_term(
    text: &[u8],
    from: usize,
    to: usize,
    place: usize,
    names: &[usize],
    count: usize,
) -> Collected
    requires { NamesStand text.now names.now count × ((from ≤ to) × (to ≤ length text.now)) }
    ensures { TermSays (word_term (names_in text.now names.now count) place (symbol (stretch text.now from to))) result }
{
    match name_index(text, from, to, names, count) {
        Some(i) => Collected::of(false, one_of(i)),
        None => Collected::outside(place),
    }
}

// A word as a term; no word is the end of the list.
pub fn word_term(text: &[u8], form: Form, names: &[usize], count: usize) -> TermPart
    requires { NamesStand text.now names.now count × ((form.from ≤ form.to) × (form.to ≤ length text.now) × (form.kind ≤ OTHER)) }
    ensures { WordTermed text.now (names_in text.now names.now count) form result }
{
    if form.kind < Form::NUMERAL {
        return TermPart {
            term: None,
            next: form.next,
        };
    }
    if form.kind == Form::NUMERAL {
        let numeral = numeral_term(form.value, form.place);
        return TermPart::of(numeral, form.next);
    }
    if form.kind == Form::SYMBOL {
        let name = name_term(text, form.from, form.to, form.place, names, count);
        return TermPart::of(name, form.next);
    }
    TermPart::of(Collected::outside(form.place), form.next)
}
