// The checks on a held question that is to be written, in document 01's order.
ghost use Rattle.std.specs.Prelude.{◌≡◌, not, ◌≤◌};
ghost use Rattle.std.specs.List.{list_all};
ghost use Rattle.scope.specs.Whole.{all_from};
ghost use Rattle.scope.specs.Sizes.{most_variables, most_atoms, most_nodes};
ghost use Rattle.scope.specs.Question.{node_of, is_unused};
ghost use Rattle.scope.specs.Writing.{numbers_clear};
ghost use Rattle.writing.specs.Writes.{walk_at, code_answer, FormulaSays, CheckedSays, CodeLeft, is_zero, coefficient_clear, constant_clear};

use fields::atom_at;
use records::{Shape, body_length, sized, variables_fit};
use scope::{Question, Refusal, Rule, is_atom};

// The formula's nodes and atoms, and the bytes of the head and its nodes.
#[derive(Clone, Copy)]
pub struct Formula {
    pub nodes: usize,
    pub atoms: usize,
    pub len: usize,
}

pub fn is_node(code: u8) -> bool
    ensures { result ≡ not (is_unused (node_of code)) }
{
    1 <= code && code <= 5
}

// A node's code with all its checks.
pub fn code_at(question: &Question, nodes: usize, atoms: usize, depth: usize) -> Result<u8, Refusal>
    requires { question.now.n ≤ most_variables }
    ensures { result ≡ code_answer question.now depth (walk_at question.now nodes atoms) }
{
    if Question::NODES <= nodes {
        return Err(Rule::TooMany.at(nodes));
    }
    let code = question.codes[nodes];
    if !is_node(code) {
        return Err(Rule::NotDue.at(nodes));
    }
    let atom = is_atom(code);
    if !sized(atom, atoms, depth) {
        return Err(Rule::TooMany.at(nodes));
    }
    if !atom {
        return Ok(code);
    }
    atom_at(question, atoms, nodes, code)
}

pub fn formula_of(question: &Question) -> Result<Formula, Refusal>
    requires { question.now.n ≤ most_variables }
    ensures { FormulaSays question.now result }
{
    let n = usize::from(question.n);
    let mut shape = Shape::unread();
    let mut len = 5;
    while let Some(depth) = shape.depth() {
        let code = code_at(question, shape.nodes, shape.atoms, depth)?;
        shape.grow(code);
        len += 4 + body_length(n, code);
    }
    Ok(Formula {
        nodes: shape.nodes,
        atoms: shape.atoms,
        len,
    })
}

// The first code from a place on that is not zero.
pub fn code_left(question: &Question, from: usize) -> Option<usize>
    requires { from ≤ most_nodes }
    ensures { CodeLeft question.now.codes from result }
{
    for i in from..Question::NODES {
        if question.codes[i] != 0 {
            return Some(i);
        }
    }
    None
}

pub fn row_clear(numbers: &[i32]) -> bool
    ensures { result ≡ list_all is_zero numbers.now }
{
    numbers.iter().all(|&number| number == 0)
}

// Each coefficient is one of the n of an atom, or zero: those behind the n in an atom's row, and the rows that no atom has.
pub fn coefficients_clear(question: &Question, atoms: usize) -> bool
    requires { (question.now.n ≤ most_variables) × (atoms ≤ most_atoms) }
    ensures { result ≡ all_from (coefficient_clear question.now.n atoms) 0 question.now.coefficients }
{
    let n = usize::from(question.n);
    for atom in 0..atoms {
        let row = Question::VARIABLES * atom;
        let behind = &question.coefficients[row + n..row + Question::VARIABLES];
        if !row_clear(behind) {
            return false;
        }
    }
    row_clear(&question.coefficients[Question::VARIABLES * atoms..])
}

// Each constant is that of an atom, or zero.
pub fn constants_clear(question: &Question, atoms: usize) -> bool
    requires { atoms ≤ most_atoms }
    ensures { result ≡ all_from (constant_clear atoms) 0 question.now.constants }
{
    row_clear(&question.constants[atoms..])
}

pub fn numbers_clear(question: &Question, atoms: usize) -> bool
    requires { (question.now.n ≤ most_variables) × (atoms ≤ most_atoms) }
    ensures { result ≡ numbers_clear question.now atoms }
{
    coefficients_clear(question, atoms) && constants_clear(question, atoms)
}

// Every check on a held question, and the length of its bytes before the end record.
pub fn checked(question: &Question) -> Result<Formula, Refusal>
    ensures { CheckedSays question.now result }
{
    if !variables_fit(question.n) {
        return Err(Rule::BeyondLimit.at(0));
    }
    let formula = formula_of(question)?;
    if let Some(left) = code_left(question, formula.nodes) {
        return Err(Rule::LeftOver.at(left));
    }
    if !numbers_clear(question, formula.atoms) {
        return Err(Rule::LeftOver.at(Question::NODES));
    }
    Ok(formula)
}
