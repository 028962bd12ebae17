// A held question's bytes, put into a buffer record by record.
ghost use Rattle.std.specs.Prelude.{◌≡◌, cond, [], ◌∷◌, ◌++◌, ◌+◌, ◌*◌, ◌≤◌, length};
ghost use Rattle.std.proofs.lemmas.List.Edits.{sets};
ghost use Rattle.scope.specs.Sizes.{most_variables, most_nodes};
ghost use Rattle.scope.specs.Question.{node_of, is_atom};
ghost use Rattle.scope.specs.Wire.{head_kind, end_kind, kind_of};
ghost use Rattle.scope.specs.Writing.{two_bytes, record_bytes, node_bytes};
ghost use Rattle.writing.specs.Writes.{bytes_to, NodeRoom, QuestionRoom};

use fields::put_atom;
use records::body_length;
use scope::{Question, is_atom};

pub fn put_two(bytes: &mut [u8], at: usize, two: u16)
    requires { at + 2 ≤ length bytes.old }
    ensures { bytes.new ≡ sets bytes.old at (two_bytes two) }
{
    let [low, high] = two.to_le_bytes();
    bytes[at] = low;
    bytes[at + 1] = high;
}

pub fn put_header(bytes: &mut [u8], at: usize, kind: u16, len: u16)
    requires { at + 4 ≤ length bytes.old }
    ensures { bytes.new ≡ sets bytes.old at (two_bytes len ++ two_bytes kind) }
{
    put_two(bytes, at, len);
    put_two(bytes, at + 2, kind);
}

pub fn put_head(bytes: &mut [u8], n: u8)
    requires { 5 ≤ length bytes.old }
    ensures { bytes.new ≡ sets bytes.old 0 (record_bytes head_kind (n ∷ [])) }
{
    put_header(bytes, 0, 0x0001, 1);
    bytes[4] = n;
}

pub fn kind_of_code(code: u8) -> u16
    ensures { result ≡ kind_of (node_of code) }
{
    match code {
        1 => 0x0010,
        2 => 0x0011,
        3 => 0x0020,
        4 => 0x0021,
        5 => 0x0022,
        _ => 0,
    }
}

fn narrow(len: usize) -> u16
    requires { len ≤ 4 * (most_variables + 1) }
    ensures { result ≡ len }
{
    len as u16
}

pub fn put_node(question: &Question, code: u8, atom: usize, bytes: &mut [u8], at: usize)
    requires { NodeRoom question.now code atom bytes.old at }
    ensures { bytes.new ≡ sets bytes.old at (node_bytes question.now (node_of code) atom) }
{
    let kind = kind_of_code(code);
    let len = narrow(body_length(usize::from(question.n), code));
    put_header(bytes, at, kind, len);
    if is_atom(code) {
        put_atom(question, atom, bytes, at + 4);
    }
}

pub fn counted(atoms: usize, code: u8) -> usize
    requires { atoms ≤ most_nodes }
    ensures { result ≡ atoms + cond (is_atom (node_of code)) 1 0 }
{
    atoms + usize::from(is_atom(code))
}

pub fn put_question(question: &Question, nodes: usize, bytes: &mut [u8])
    requires { QuestionRoom question.now nodes bytes.old }
    ensures { bytes.new ≡ sets bytes.old 0 (bytes_to question.now nodes ++ record_bytes end_kind []) }
{
    let n = usize::from(question.n);
    put_head(bytes, question.n);
    let mut at = 5;
    let mut atoms = 0;
    for i in 0..nodes {
        let code = question.codes[i];
        put_node(question, code, atoms, bytes, at);
        at += 4 + body_length(n, code);
        atoms = counted(atoms, code);
    }
    put_header(bytes, at, 0x00FF, 0);
}
