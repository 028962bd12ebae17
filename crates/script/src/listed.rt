// What stands in a list: its first parts, its command, a sign assertion.
ghost use Rattle.std.specs.Prelude.{◌≡◌, ◌≢◌, not, ◌&&◌, List, ◌∷◌, ℕ, ◌≤◌, ◌<◌, length};
ghost use Rattle.smtlib.specs.Script.{parts_of, says_word, says_one, nameable, is_nought, command_named, signs, signs_name};
ghost use Rattle.lexicon.specs.Spots.{stretch};
ghost use Rattle.forms.specs.Places.{forms_at};
ghost use Rattle.terms.specs.Names.{names_in, NamesStand};
ghost use Rattle.script.specs.declared.CommandName.{CommandName};
ghost use Rattle.script.specs.Parts.{ListHere, word_in, part_in, PartSays, PartsAre};
ghost use Rattle.script.specs.Commands.{command_name, CommandReads, NameOf, SignedBy};

use crate::{CommandHead, CommandName, Parts};
use forms::{Form, form_at, form_end};
use lexicon::{is_theory_word, spelt};
use terms::name_index;

// The parts from a place on, behind two others.
fn parts_behind(text: &[u8], at: usize, first: Form, second: Form) -> Parts
    requires { ListHere text.now at × (PartSays text.now first × PartSays text.now second) }
    ensures { PartsAre text.now result (part_in text.now first ∷ part_in text.now second ∷ parts_of (forms_at text.now at)) }
{
    let third = form_at(text, at);
    if third.kind < Form::OPEN {
        return Parts::Two(first, second);
    }
    let fourth = form_at(text, form_end(text, third));
    if fourth.kind < Form::OPEN {
        return Parts::Three(first, second, third);
    }
    Parts::More
}

// The parts of the list at hand.
pub fn parts_at(text: &[u8], at: usize) -> Parts
    requires { ListHere text.now at }
    ensures { PartsAre text.now result (parts_of (forms_at text.now at)) }
{
    let first = form_at(text, at);
    if first.kind < Form::OPEN {
        return Parts::Zero;
    }
    let second = form_at(text, form_end(text, first));
    if second.kind < Form::OPEN {
        return Parts::One(first);
    }
    parts_behind(text, form_end(text, second), first, second)
}

// Whether a form is this symbol.
pub fn says_word(text: &[u8], form: Form, word: &[u8]) -> bool
    requires { PartSays text.now form }
    ensures { result ≡ says_word (word_in text.now form) word.now }
{
    if form.kind != Form::SYMBOL {
        return false;
    }
    spelt(text, form.from, form.to, word)
}

// Whether a form is the numeral 0.
fn is_nought(form: Form) -> bool
    ensures { (text : List ℕ) → PartSays text form → result ≡ is_nought (word_in text form) }
{
    if form.kind != Form::NUMERAL {
        return false;
    }
    form.value == 0
}

// Whether a form is a name that may be declared, and is not yet.
pub fn is_new(text: &[u8], form: Form, names: &[usize], count: usize) -> bool
    requires { PartSays text.now form × NamesStand text.now names.now count }
    ensures { result ≡ nameable (word_in text.now form) && not (says_one (word_in text.now form) (names_in text.now names.now count)) }
{
    if form.kind != Form::SYMBOL {
        return false;
    }
    if is_theory_word(text, form.from, form.to) {
        return false;
    }
    name_index(text, form.from, form.to, names, count).is_none()
}

// The command that is spelt from a place up to another.
fn command_name(text: &[u8], from: usize, to: usize) -> CommandName
    requires { (from ≤ to) × (to ≤ length text.now) }
    ensures { result ≡ command_name (command_named (stretch text.now from to)) }
{
    if spelt(text, from, to, b"set-logic") {
        return CommandName::SetLogic;
    }
    if spelt(text, from, to, b"declare-const") {
        return CommandName::DeclareConst;
    }
    if spelt(text, from, to, b"assert") {
        return CommandName::Assert;
    }
    if spelt(text, from, to, b"check-sat") {
        return CommandName::CheckSat;
    }
    CommandName::Other
}

// The command of the list at hand.
pub fn command_at(text: &[u8], at: usize) -> CommandHead
    requires { at ≤ length text.now }
    ensures inside { (result.next ≤ length text.now) × (result.name ≢ CommandName.Other → at < result.next) }
    ensures read { CommandReads text.now at result }
{
    let form = form_at(text, at);
    if form.kind != Form::RESERVED {
        return CommandHead {
            name: CommandName::Other,
            next: form.next,
        };
    }
    CommandHead {
        name: command_name(text, form.from, form.to),
        next: form.next,
    }
}

// The number of the name that a form says, where it says one that is declared.
fn name_of(text: &[u8], form: Form, names: &[usize], count: usize) -> Option<usize>
    requires { PartSays text.now form × NamesStand text.now names.now count }
    ensures { NameOf (word_in text.now form) (names_in text.now names.now count) count result }
{
    if form.kind != Form::SYMBOL {
        return None;
    }
    name_index(text, form.from, form.to, names, count)
}

// The name that `>= name 0`, the list at hand, signs.
fn signed_in(text: &[u8], at: usize, names: &[usize], count: usize) -> Option<usize>
    requires { ListHere text.now at × NamesStand text.now names.now count }
    ensures { SignedBy (names_in text.now names.now count) (signs_name (names_in text.now names.now count) (parts_of (forms_at text.now at))) count result }
{
    let Parts::Three(head, name, bound) = parts_at(text, at) else {
        return None;
    };
    if says_word(text, head, b">=") & is_nought(bound) {
        return name_of(text, name, names, count);
    }
    None
}

// The name that a sign assertion signs, by its number, from the place of the assertion's parts on.
pub fn signed_name(text: &[u8], at: usize, names: &[usize], count: usize) -> Option<usize>
    requires { ListHere text.now at × NamesStand text.now names.now count }
    ensures { SignedBy (names_in text.now names.now count) (signs (names_in text.now names.now count) (forms_at text.now at)) count result }
{
    let form = form_at(text, at);
    if form.kind != Form::OPEN {
        return None;
    }
    let rest = form_at(text, form_end(text, form));
    if Form::OPEN <= rest.kind {
        return None;
    }
    signed_in(text, form.next, names, count)
}
