// Terms of SMT-LIB text as collected numbers: the constant, then a coefficient for each of six names.
#![tactic(auto)]

mod gather;
mod heads;
mod sums;
mod words;

ghost use Rattle.std.specs.Prelude.{◌≡◌, false, Some, ◌≤◌, ◌-◌, ◌<◌, length};
ghost use Rattle.std.proofs.Math.Option.{none, some};
ghost use Rattle.smtlib.specs.Lexicon.{most_nesting};
ghost use Rattle.smtlib.specs.Terms.{no_numbers};
ghost use Rattle.lexicon.specs.Spots.{spot_of};
ghost use Rattle.terms.specs.Names.{names_in, NamesStand};
ghost use Rattle.terms.specs.Heads.{word_code, HeadReads};
ghost use Rattle.terms.specs.Read.{PartRead, ListReads, Inside};

use forms::{Form, form_at, list_end};
use gather::{Gathering, gather, settled};
use heads::head_between;
pub use heads::{HeadWord, ListKind};
use lexicon::Spot;
pub use words::name_index;
use words::word_term;

// The numbers of a term.
const NUMBERS: usize = 7;

// A term that was read: its numbers, which count where it has no fault; and the lowest of its faults.
#[derive(Clone, Copy)]
pub struct Collected {
    pub numeric: bool,
    pub numbers: [i64; NUMBERS],
    pub fault: Spot,
}

impl Collected {
    // Without a fault.
    fn of(numeric: bool, numbers: [i64; NUMBERS]) -> Collected
        ensures { result ≡ record { numeric = numeric; numbers = numbers; fault = spot_of none } }
    {
        Collected {
            numeric,
            numbers,
            fault: None,
        }
    }

    fn faulty(numeric: bool, fault: Spot) -> Collected
        ensures { result ≡ record { numeric = numeric; numbers = no_numbers; fault = fault } }
    {
        Collected {
            numeric,
            numbers: [0; NUMBERS],
            fault,
        }
    }

    // What is outside the subset, at its place.
    fn outside(place: usize) -> Collected
        ensures { result ≡ record { numeric = false; numbers = no_numbers; fault = spot_of (some place) } }
    {
        Collected::faulty(false, Some(place))
    }
}

// What stands next in a list: a term, or the list's end; and the place where what follows it starts.
#[derive(Clone, Copy)]
pub struct TermPart {
    pub term: Option<Collected>,
    pub next: usize,
}

impl TermPart {
    fn of(term: Collected, next: usize) -> TermPart
        ensures { result ≡ record { term = Some term; next = next } }
    {
        TermPart {
            term: Some(term),
            next,
        }
    }
}

// A list as a term, and the place where what follows the list starts.
#[derive(Clone, Copy)]
pub struct ListTerm {
    pub term: Collected,
    pub next: usize,
}

// The head of a list, and where the parts behind it start.
#[derive(Clone, Copy)]
pub struct ListHead {
    pub word: HeadWord,
    pub next: usize,
}

// The head of a list from the place behind its parenthesis.
pub fn head_at(text: &[u8], at: usize) -> ListHead
    requires { at ≤ length text.now }
    ensures stands { (at ≤ result.next) × (result.next ≤ length text.now) }
    ensures read { HeadReads text.now at result }
{
    let form = form_at(text, at);
    if form.kind == Form::SYMBOL {
        return ListHead {
            word: head_between(text, form.from, form.to),
            next: form.next,
        };
    }
    ListHead {
        word: HeadWord::Other,
        next: at,
    }
}

// The term that stands next in a list, or the list's end.
#[cycle(term_from_terms_from)]
fn term_from(text: &[u8], at: usize, names: &[usize], count: usize, nesting: usize) -> TermPart
    requires { NamesStand text.now names.now count × Inside text.now at nesting }
    ensures inside { (at < result.next) × (result.next ≤ length text.now) }
    ensures read { PartRead text.now at (most_nesting - nesting) (names_in text.now names.now count) result }
{
    let form = form_at(text, at);
    if form.kind != Form::OPEN {
        return word_term(text, form, names, count);
    }
    let head = head_at(text, form.next);
    match head.word.kind() {
        ListKind::Term => {
            let left = nesting - 1;
            let list = terms_from(text, head.next, head.word, form.place, names, count, left);
            TermPart::of(list.term, list.next)
        }
        _ => {
            let outside = Collected::outside(form.place);
            TermPart::of(outside, list_end(text, form.next))
        }
    }
}

// The terms that follow in a list up to its end, gathered by the list's head: a term's, or a comparison's two sides. The place is the list's.
#[cycle(term_from_terms_from)]
pub fn terms_from(
    text: &[u8],
    at: usize,
    head: HeadWord,
    place: usize,
    names: &[usize],
    count: usize,
    nesting: usize,
) -> ListTerm
    requires { NamesStand text.now names.now count × (Inside text.now at nesting × (word_code head ≤ 7)) }
    ensures inside { (at < result.next) × (result.next ≤ length text.now) }
    ensures read { ListReads text.now at (most_nesting - nesting) (names_in text.now names.now count) (word_code head) place result }
{
    let mut gathering = Gathering::none();
    let mut next = at;
    loop {
        let part = term_from(text, next, names, count, nesting);
        let Some(term) = part.term else {
            return ListTerm {
                term: settled(head, place, gathering),
                next: part.next,
            };
        };
        let more = gather(gathering, term);
        gathering = more;
        next = part.next;
    }
}
