// A node: each check in document 01's order, and the node noted in the question.
ghost use Rattle.std.specs.Prelude.{◌≡◌, ◌≤◌};
ghost use Rattle.scope.specs.Sizes.{most_variables};
ghost use Rattle.scope.specs.Wire.{node_of_kind};
ghost use Rattle.reading.specs.Steps.{used_code, reading_at, node_frame, NodeRead};

use fields::take_atom;
use records::{Shape, body_length, header_at, sized};
use scope::{Question, Refusal, Rule, is_atom};

// None where the kind is none of a node.
pub fn code_of_kind(kind: u16) -> Option<u8>
    ensures { result ≡ used_code (node_of_kind kind) }
{
    match kind {
        0x0010 => Some(1),
        0x0011 => Some(2),
        0x0020 => Some(3),
        0x0021 => Some(4),
        0x0022 => Some(5),
        _ => None,
    }
}

// A node's kind, length and body.
pub fn node_frame(bytes: &[u8], at: usize, n: usize) -> Result<u8, Refusal>
    requires { n ≤ most_variables }
    ensures { result ≡ node_frame bytes.now at n }
{
    let Some(header) = header_at(bytes, at) else {
        return Err(Rule::BytesEnd.at(at));
    };
    let Some(code) = code_of_kind(header.kind) else {
        return Err(Rule::NotDue.at(at));
    };
    let len = header.len;
    if len != body_length(n, code) {
        return Err(Rule::BodyLength.at(at));
    }
    if bytes.len() - at - 4 < len {
        return Err(Rule::BytesEnd.at(at));
    }
    Ok(code)
}

// A node with all its checks, noted in the question. An atom's numbers are noted as they are checked.
pub fn node_at(
    bytes: &[u8],
    at: usize,
    shape: &Shape,
    depth: usize,
    question: &mut Question,
) -> Result<u8, Refusal>
    requires { question.old.n ≤ most_variables }
    ensures { NodeRead bytes.now depth (reading_at question.old shape.now.nodes shape.now.atoms at) result question.new }
{
    let code = node_frame(bytes, at, usize::from(question.n))?;
    let nodes = shape.nodes;
    let atoms = shape.atoms;
    let atom = is_atom(code);
    if Question::NODES <= nodes {
        return Err(Rule::TooMany.at(at));
    }
    if !sized(atom, atoms, depth) {
        return Err(Rule::TooMany.at(at));
    }
    question.codes[nodes] = code;
    if !atom {
        return Ok(code);
    }
    take_atom(bytes, at, code, atoms, question)
}
