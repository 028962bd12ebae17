// A node's limits, its code; and connectives.
ghost use Rattle.std.specs.Prelude.{◌≡◌, [], ◌∷◌, ◌≤◌, ◌<◌, IfOk, IfErr};
ghost use Rattle.scope.specs.Sizes.{most_nodes, most_depth};
ghost use Rattle.scope.specs.Question.{node_of};
ghost use Rattle.smtlib.specs.Imported.{connective};
ghost use Rattle.laying.specs.Laid.{node_room, Layable, LaysOr, left_as};
ghost use Rattle.laying.specs.Noted.{with_code, at_depth};
ghost use Rattle.laying.specs.Deeper.{DeepenedOr, DeepenedIfOr};

use crate::Laying;
use scope::{Question, Refusal, Rule};

// Whether there is room for a node behind so many nodes and atoms, at this depth.
pub fn has_room(atom: bool, nodes: usize, atoms: usize, depth: usize) -> bool
    ensures { result ≡ node_room atom nodes atoms depth }
{
    nodes < Question::NODES && (!atom || atoms < Question::ATOMS) && depth <= Question::DEPTH
}

// One node more, by its code.
pub fn with_code(laying: &mut Laying, code: u8)
    requires { laying.old.nodes < most_nodes }
    ensures { laying.new ≡ with_code laying.old code }
{
    laying.codes[laying.nodes] = code;
    laying.nodes += 1;
}

// A connective (3 not, 4 and, 5 or) at the depth at hand.
pub fn lay_connective(laying: &mut Laying, code: u8, place: usize) -> Result<(), Refusal>
    requires { Layable laying.old × ((3 ≤ code) × (code ≤ 5)) }
    ensures laid { LaysOr (connective place laying.old.depth (node_of code) ∷ []) laying.old (left_as laying.new result) }
    ensures low { IfOk result (λ done. laying.old.depth ≤ most_depth) }
    ensures kept { IfErr result (λ refused. laying.new ≡ laying.old) }
{
    if !has_room(false, laying.nodes, laying.atoms, laying.depth) {
        return Err(Rule::TooMany.at(place));
    }
    with_code(laying, code);
    Ok(())
}

pub fn at_depth(laying: &mut Laying, depth: usize)
    ensures { laying.new ≡ at_depth laying.old depth }
{
    laying.depth = depth;
}

// A connective, and then one level deeper.
fn deepen(laying: &mut Laying, code: u8, place: usize) -> Result<(), Refusal>
    requires { Layable laying.old × ((3 ≤ code) × (code ≤ 5)) }
    ensures { DeepenedOr (connective place laying.old.depth (node_of code)) laying.old (left_as laying.new result) }
{
    let depth = laying.depth;
    lay_connective(laying, code, place)?;
    at_depth(laying, depth + 1);
    Ok(())
}

// The same where it is asked for; else nothing.
pub fn deepen_within(
    asked: bool,
    laying: &mut Laying,
    code: u8,
    place: usize,
) -> Result<(), Refusal>
    requires { Layable laying.old × ((3 ≤ code) × (code ≤ 5)) }
    ensures { DeepenedIfOr asked (connective place laying.old.depth (node_of code)) laying.old (left_as laying.new result) }
{
    if asked {
        return deepen(laying, code, place);
    }
    Ok(())
}

// The same by value.
pub fn deepen_if(asked: bool, mut laying: Laying, code: u8, place: usize) -> Result<Laying, Refusal>
    requires { Layable laying × ((3 ≤ code) × (code ≤ 5)) }
    ensures { DeepenedIfOr asked (connective place laying.depth (node_of code)) laying result }
{
    deepen_within(asked, &mut laying, code, place)?;
    Ok(laying)
}
