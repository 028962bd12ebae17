// The assertions of a text without fault, laid command by command.
ghost use Rattle.std.specs.Prelude.{◌≡◌, ◌≤◌, ◌<◌, length, IfOk};
ghost use Rattle.smtlib.specs.Formulas.{clauses_of};
ghost use Rattle.smtlib.specs.Cases.{script_in};
ghost use Rattle.forms.specs.Places.{forms_at};
ghost use Rattle.terms.specs.Names.{names_in, NamesStand};
ghost use Rattle.terms.specs.Read.{Inside};
ghost use Rattle.laying.specs.Laid.{Layable};
ghost use Rattle.laying.specs.Texts.{FirstFaultless};
ghost use Rattle.importing.specs.Underway.{FaultlessText, AssertionLays, Underway, LaidSoFarOr, WholeLaidOr};

use forms::{form_at, list_end};
use laying::{Laying, deepen_if, lay_from};
use scope::Refusal;
use script::{CommandName, command_at, signed_name};

// The code of a conjunction.
const AND: u8 = 4;

// So many nestings are left inside a command.
const INNER: usize = 31;

// How far the commands are laid: the names declared so far, the assertions left, and the place of the next command.
#[derive(Clone, Copy)]
pub struct Progress {
    pub laying: Laying,
    pub count: usize,
    pub left: usize,
    pub next: usize,
}

// The formula that an assertion has, from a place on; with more to come it is joined to that.
fn lay_assertion(
    text: &[u8],
    at: usize,
    names: &[usize],
    count: usize,
    more: bool,
    laying: Laying,
) -> Result<Laying, Refusal>
    requires { NamesStand text.now names.now count × (Inside text.now at 31 × (Layable laying × FirstFaultless (clauses_of (names_in text.now names.now count) (forms_at text.now at)))) }
    ensures { AssertionLays text.now at (names_in text.now names.now count) more laying result }
{
    let formula = form_at(text, at);
    let begun = deepen_if(more, laying, AND, formula.place)?;
    let laid = lay_from(text, at, names, count, INNER, begun)?;
    Ok(laid.laying)
}

// One command.
fn lay_command(text: &[u8], names: &[usize], progress: Progress) -> Result<Progress, Refusal>
    requires { FaultlessText text.now names.now progress.laying.n × (Underway text.now progress × (0 < progress.left)) }
    ensures further { IfOk result (λ p. (progress.next < p.next) × (p.next ≤ length text.now)) }
    ensures laid { LaidSoFarOr text.now progress.laying.n result }
{
    let form = form_at(text, progress.next);
    let command = command_at(text, form.next);
    let next = list_end(text, form.next);
    let count = progress.count;
    let left = progress.left;
    if let CommandName::DeclareConst = command.name {
        return Ok(Progress {
            count: count + 1,
            next,
            ..progress
        });
    }
    let CommandName::Assert = command.name else {
        return Ok(Progress { next, ..progress });
    };
    if signed_name(text, command.next, names, count).is_some() {
        return Ok(Progress { next, ..progress });
    }
    let laying = lay_assertion(text, command.next, names, count, 1 < left, progress.laying)?;
    Ok(Progress {
        laying,
        left: left - 1,
        next,
        ..progress
    })
}

// All assertions of a text that has n names and so many assertions: the nodes of the question, or the first refusal among them.
pub fn lay_commands(
    text: &[u8],
    names: &[usize],
    n: usize,
    asserted: usize,
) -> Result<Laying, Refusal>
    requires { FaultlessText text.now names.now n × (asserted ≡ length (script_in text.now).asserted) }
    ensures { WholeLaidOr text.now n result }
{
    let mut progress = Progress {
        laying: Laying::empty(n),
        count: 0,
        left: asserted,
        next: 0,
    };
    // How many commands there are is known at the end alone: a walk from form to form, and no iterator.
    while 0 < progress.left {
        // A `match` and no `?`: a must-fail edit plants its wrong program in the arm of the refusal.
        match lay_command(text, names, progress) {
            Ok(further) => progress = further,
            Err(refusal) => return Err(refusal),
        }
    }
    Ok(progress.laying)
}
