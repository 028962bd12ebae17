// Formulas of SMT-LIB text: the lowest place at which one is outside the subset.
#![tactic(auto)]

ghost use Rattle.std.specs.Prelude.{◌≡◌, Some, cond, ◌≤◌, ◌-◌, ◌<◌, length};
ghost use Rattle.std.proofs.Math.Option.{some};
ghost use Rattle.smtlib.specs.Lexicon.{most_nesting};
ghost use Rattle.lexicon.specs.Spots.{spot_of};
ghost use Rattle.terms.specs.Names.{names_in, NamesStand};
ghost use Rattle.terms.specs.Heads.{word_code};
ghost use Rattle.terms.specs.Read.{Inside};
ghost use Rattle.clauses.specs.Read.{takes_parts, ClausePartRead, ClauseReads};

use forms::{Form, form_at, list_end};
use lexicon::{Spot, lower};
use terms::{HeadWord, ListKind, head_at, terms_from};

// What stands next in a list: a formula, by the lowest of its faults, or the list's end; and the place where what follows it starts.
#[derive(Clone, Copy)]
pub struct ClausePart {
    pub formula: Option<Spot>,
    pub next: usize,
}

impl ClausePart {
    fn of(fault: Spot, next: usize) -> ClausePart
        ensures { result ≡ record { formula = Some fault; next = next } }
    {
        ClausePart {
            formula: Some(fault),
            next,
        }
    }
}

// Whether a connective takes so many parts.
fn takes_parts(head: HeadWord, number: usize) -> bool
    ensures { result ≡ takes_parts (word_code head) number }
{
    match head {
        HeadWord::Not => number == 1,
        _ => number != 0,
    }
}

// A connective's fault: the lowest of its parts' where it takes so many, else its place.
fn connected(head: HeadWord, number: usize, place: usize, fault: Spot) -> Spot
    ensures { result ≡ cond (takes_parts (word_code head) number) fault (spot_of (some place)) }
{
    if takes_parts(head, number) {
        return fault;
    }
    Some(place)
}

// A comparison's two sides, up to the list's end. The place is the list's.
fn sides_from(
    text: &[u8],
    at: usize,
    head: HeadWord,
    place: usize,
    names: &[usize],
    count: usize,
    nesting: usize,
) -> ClausePart
    requires { NamesStand text.now names.now count × (Inside text.now at nesting × ((3 ≤ word_code head) × (word_code head ≤ 7))) }
    ensures inside { (at < result.next) × (result.next ≤ length text.now) }
    ensures read { ClauseReads text.now at (most_nesting - nesting) (names_in text.now names.now count) (word_code head) place result }
{
    let sides = terms_from(text, at, head, place, names, count, nesting);
    ClausePart::of(sides.term.fault, sides.next)
}

// The formula that stands next in a list, or the list's end.
#[cycle(clause_from_clauses_from)]
pub fn clause_from(
    text: &[u8],
    at: usize,
    names: &[usize],
    count: usize,
    nesting: usize,
) -> ClausePart
    requires { NamesStand text.now names.now count × Inside text.now at nesting }
    ensures inside { (at < result.next) × (result.next ≤ length text.now) }
    ensures read { ClausePartRead text.now at (most_nesting - nesting) (names_in text.now names.now count) result }
{
    let form = form_at(text, at);
    if form.kind < Form::OPEN {
        return ClausePart {
            formula: None,
            next: form.next,
        };
    }
    if form.kind != Form::OPEN {
        return ClausePart::of(Some(form.place), form.next);
    }
    let head = head_at(text, form.next);
    let left = nesting - 1;
    match head.word.kind() {
        ListKind::Comparison => {
            sides_from(text, head.next, head.word, form.place, names, count, left)
        }
        ListKind::Connective => {
            clauses_from(text, head.next, head.word, form.place, names, count, left)
        }
        _ => ClausePart::of(Some(form.place), list_end(text, form.next)),
    }
}

// The formulas that follow in a list up to its end, as its head (not, and, or) has them. The place is the list's.
#[cycle(clause_from_clauses_from)]
fn clauses_from(
    text: &[u8],
    at: usize,
    head: HeadWord,
    place: usize,
    names: &[usize],
    count: usize,
    nesting: usize,
) -> ClausePart
    requires { NamesStand text.now names.now count × (Inside text.now at nesting × ((8 ≤ word_code head) × (word_code head ≤ 10))) }
    ensures inside { (at < result.next) × (result.next ≤ length text.now) }
    ensures read { ClauseReads text.now at (most_nesting - nesting) (names_in text.now names.now count) (word_code head) place result }
{
    let mut fault = None;
    let mut number = 0;
    let mut next = at;
    loop {
        let part = clause_from(text, next, names, count, nesting);
        let Some(found) = part.formula else {
            let all = connected(head, number, place, fault);
            return ClausePart::of(all, part.next);
        };
        let least = lower(fault, found);
        fault = least;
        number += 1;
        next = part.next;
    }
}
