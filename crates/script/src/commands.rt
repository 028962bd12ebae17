// What each command does to what is kept.
ghost use Rattle.std.specs.Prelude.{◌≡◌, [], ◌∷◌, ◌+◌, ◌^◌, ◌<◌, eqb, length};
ghost use Rattle.smtlib.specs.Formulas.{clauses_of};
ghost use Rattle.smtlib.specs.Script.{unless, parts_of, checked, under, names_of, moved, logic_faults, logic_due, declared, signs, asserted_only, asserted_as, under_logic, at_stage, lowest_of};
ghost use Rattle.lexicon.specs.Spots.{spot_of};
ghost use Rattle.forms.specs.Places.{forms_at};
ghost use Rattle.terms.specs.Names.{NamesStand};
ghost use Rattle.terms.specs.Read.{Inside};
ghost use Rattle.script.specs.Parts.{part_in, PartSays};
ghost use Rattle.script.specs.Commands.{command_in, forms_behind, CommandHere, command_nesting, CommandSays, CommandInside};
ghost use Rattle.script.specs.Changes.{KeepsOn, CommandsOn};

use crate::changes::{
    moved, unless, with_assertion, with_fault, with_faults, with_name, with_sign,
};
use crate::listed::{command_at, is_new, parts_at, says_word, signed_name};
use crate::{CommandHead, CommandName, Kept, Parts, Phase};
use clauses::clause_from;
use forms::{Form, form_at};
use lexicon::{Spot, lower};

// The nestings left in a command's list.
const NESTING: usize = 31;

// The fault in the parts of set-logic: one part, QF_LIA.
fn logic_fault(text: &[u8], place: usize, at: usize) -> Spot
    requires { Inside text.now at command_nesting }
    ensures { result ≡ spot_of (lowest_of (logic_faults place (parts_of (forms_at text.now at)))) }
{
    let Parts::One(first) = parts_at(text, at) else {
        return unless(false, place);
    };
    unless(says_word(text, first, b"QF_LIA"), first.place)
}

// The first command.
fn logic_due(text: &[u8], place: usize, head: CommandHead, kept: Kept) -> Kept
    requires { CommandInside text.now head }
    ensures { CommandsOn text.now head kept (λ c parts s. moved under (logic_due c place parts) s) result }
{
    let CommandName::SetLogic = head.name else {
        return moved(kept, Phase::Under, unless(false, place));
    };
    moved(kept, Phase::Under, logic_fault(text, place, head.next))
}

// A name and a sort.
fn declare_as(text: &[u8], place: usize, name: Form, sort: Form, kept: Kept) -> Kept
    requires { PartSays text.now name × (PartSays text.now sort × NamesStand text.now kept.bounds kept.count) }
    ensures { KeepsOn text.now kept (λ s. declared place (part_in text.now name ∷ part_in text.now sort ∷ []) s) result }
{
    let bounds = kept.bounds;
    let new = is_new(text, name, &bounds, kept.count);
    let int = says_word(text, sort, b"Int");
    if new & int {
        return with_name(kept, place, name);
    }
    with_faults(
        kept,
        lower(unless(new, name.place), unless(int, sort.place)),
    )
}

// declare-const.
fn declare(text: &[u8], place: usize, at: usize, kept: Kept) -> Kept
    requires { Inside text.now at command_nesting × NamesStand text.now kept.bounds kept.count }
    ensures { KeepsOn text.now kept (λ s. declared place (parts_of (forms_at text.now at)) s) result }
{
    let Parts::Two(name, sort) = parts_at(text, at) else {
        return with_fault(kept, place);
    };
    declare_as(text, place, name, sort, kept)
}

// An assertion that is no sign assertion: one formula.
fn assert_formula(text: &[u8], place: usize, at: usize, kept: Kept) -> Kept
    requires { Inside text.now at command_nesting × (NamesStand text.now kept.bounds kept.count × (kept.asserted + 1 < 2 ^ 64)) }
    ensures { KeepsOn text.now kept (λ s. asserted_only place (clauses_of (names_of s.declarations) (forms_at text.now at)) s) result }
{
    let bounds = kept.bounds;
    let clause = clause_from(text, at, &bounds, kept.count, NESTING);
    let Some(fault) = clause.formula else {
        return with_fault(kept, place);
    };
    let rest = form_at(text, clause.next);
    if Form::OPEN <= rest.kind {
        return with_fault(kept, place);
    }
    with_assertion(kept, fault)
}

// assert.
fn assert_any(text: &[u8], place: usize, at: usize, kept: Kept) -> Kept
    requires { Inside text.now at command_nesting × (NamesStand text.now kept.bounds kept.count × (kept.asserted + 1 < 2 ^ 64)) }
    ensures { KeepsOn text.now kept (λ s. asserted_as (signs (names_of s.declarations) (forms_at text.now at)) place (forms_at text.now at) s) result }
{
    let bounds = kept.bounds;
    if let Some(i) = signed_name(text, at, &bounds, kept.count) {
        return with_sign(kept, i);
    }
    assert_formula(text, place, at, kept)
}

// check-sat: no part.
fn check_sat(text: &[u8], place: usize, at: usize, kept: Kept) -> Kept
    requires { Inside text.now at command_nesting }
    ensures { KeepsOn text.now kept (λ s. moved (checked place) (unless (eqb (length (parts_of (forms_at text.now at))) 0) place) s) result }
{
    let first = form_at(text, at);
    moved(
        kept,
        Phase::Checked(place),
        unless(first.kind < Form::OPEN, place),
    )
}

// A command under the logic.
fn under_logic(text: &[u8], place: usize, head: CommandHead, kept: Kept) -> Kept
    requires { CommandInside text.now head × (NamesStand text.now kept.bounds kept.count × (kept.asserted + 1 < 2 ^ 64)) }
    ensures { CommandsOn text.now head kept (λ c parts s. under_logic c place parts s) result }
{
    match head.name {
        CommandName::DeclareConst => declare(text, place, head.next, kept),
        CommandName::Assert => assert_any(text, place, head.next, kept),
        CommandName::CheckSat => check_sat(text, place, head.next, kept),
        _ => with_fault(kept, place),
    }
}

// The command of a form; a word is another one.
pub fn head_of(text: &[u8], form: Form) -> CommandHead
    requires { CommandHere text.now form }
    ensures inside { CommandInside text.now result }
    ensures says { CommandSays text.now (command_in text.now form) (forms_behind text.now form) result }
{
    if form.kind == Form::OPEN {
        return command_at(text, form.next);
    }
    CommandHead {
        name: CommandName::Other,
        next: form.next,
    }
}

// What a form among the commands does.
pub fn command(text: &[u8], form: Form, kept: Kept) -> Kept
    requires { CommandHere text.now form × (NamesStand text.now kept.bounds kept.count × (kept.asserted + 1 < 2 ^ 64)) }
    ensures { KeepsOn text.now kept (λ s. at_stage s.stage (command_in text.now form) form.place (forms_behind text.now form) s) result }
{
    let head = head_of(text, form);
    match kept.phase {
        Phase::Start => logic_due(text, form.place, head, kept),
        Phase::Under => under_logic(text, form.place, head, kept),
        Phase::Checked(_) => with_fault(kept, form.place),
    }
}
