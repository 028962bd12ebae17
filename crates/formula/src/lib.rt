// The formula's truths for all the worths at once, settled from its parts: each connective stands before its parts, and the depth left falls at each call.
#![tactic(auto)]

ghost use Rattle.std.specs.Prelude.{◌≡◌, ℕ, Bool, false, not, ◌||◌, List, [], ◌∷◌, map, ◌<◌, length, get_or};
ghost use Rattle.scope.specs.Question.{node_of};
ghost use Rattle.scope.specs.Sizes.{most_atoms, most_nodes};
ghost use Rattle.formula.specs.Truths.{worths_number, truth_at, WordsOf, TruthsOf};
ghost use Rattle.formula.specs.Parts.{Placed, Settles};

use scope::Question;
use std::array::from_fn;

// The words of a truth have a bit for each of the 2^8 sets of worths.
pub const WORDS: usize = 4;

const ALL: u64 = u64::MAX;

// The words of an atom's worth. A match and no table: a table would stand in the frame of `settle`, once for each depth.
fn atom_words(atom: usize) -> [u64; WORDS]
    requires { atom < most_atoms }
    ensures { WordsOf (λ (ws : List Bool). get_or ws atom false) result }
{
    match atom {
        0 => [0xaaaa_aaaa_aaaa_aaaa; WORDS],
        1 => [0xcccc_cccc_cccc_cccc; WORDS],
        2 => [0xf0f0_f0f0_f0f0_f0f0; WORDS],
        3 => [0xff00_ff00_ff00_ff00; WORDS],
        4 => [0xffff_0000_ffff_0000; WORDS],
        5 => [0xffff_ffff_0000_0000; WORDS],
        6 => [0, ALL, 0, ALL],
        _ => [0, 0, ALL, ALL],
    }
}

fn denied(x: [u64; WORDS]) -> [u64; WORDS]
    ensures { WordsOf (λ (ws : List Bool). not (truth_at x ws)) result }
{
    x.map(|word| !word)
}

// Two truths joined word by word.
fn joined<F: Fn(u64, u64) -> u64>(x: [u64; WORDS], y: [u64; WORDS], by: F) -> [u64; WORDS]
    requires { F.IsAlwaysCallable by }
    ensures four { length result ≡ 4 }
    ensures each { (i : ℕ) → i < 4 → F.post by (get_or x i 0) (get_or y i 0) (get_or result i 0) }
{
    from_fn(|i| by(x[i], y[i]))
}

// A part that is settled: its truths, and the node and the atom after it.
#[derive(Clone, Copy)]
pub struct Part {
    pub truths: [u64; WORDS],
    pub node: usize,
    pub atom: usize,
}

impl Part {
    fn falsehood(node: usize, atom: usize) -> Part
        ensures { result ≡ record { truths = 0 ∷ 0 ∷ 0 ∷ 0 ∷ []; node = node; atom = atom } }
    {
        Part {
            truths: [0; WORDS],
            node,
            atom,
        }
    }
}

// The part that starts at a node, where atom is the next one that counts; false where the depth, the nodes or the atoms run out.
fn settle(codes: &[u8; Question::NODES], node: usize, atom: usize, depth: usize) -> Part
    requires { Placed codes.now node atom }
    ensures { Settles codes.now node atom depth result }
{
    if depth == 0 || node == Question::NODES {
        return Part::falsehood(node, atom);
    }
    let next = node + 1;
    let code = codes[node];
    match code {
        1 | 2 if atom < Question::ATOMS => Part {
            truths: atom_words(atom),
            node: next,
            atom: atom + 1,
        },
        3 => {
            let p = settle(codes, next, atom, depth - 1);
            let truths = denied(p.truths);
            Part { truths, ..p }
        }
        4 | 5 => {
            let p = settle(codes, next, atom, depth - 1);
            let r = settle(codes, p.node, p.atom, depth - 1);
            if code == 4 {
                let truths = joined(p.truths, r.truths, |x, y| x & y);
                return Part { truths, ..r };
            }
            let truths = joined(p.truths, r.truths, |x, y| x | y);
            Part { truths, ..r }
        }
        _ => Part::falsehood(next, atom),
    }
}

// The words of the formula's truth.
pub fn truths_of(codes: &[u8; Question::NODES]) -> [u64; WORDS]
    requires { length codes.now ≡ most_nodes }
    ensures { TruthsOf (map node_of codes.now) result }
{
    settle(codes, 0, 0, Question::DEPTH).truths
}

// The number of a set of worths: the worth of atom i is bit i.
fn number(worths: [bool; Question::ATOMS]) -> usize
    ensures { result ≡ worths_number worths }
{
    let mut number = 0;
    for i in (0..worths.len()).rev() {
        number = usize::from(worths[i]) + 2 * number;
    }
    number
}

// The truth that stands for a set of worths.
pub fn truth_at(truths: [u64; WORDS], worths: [bool; Question::ATOMS]) -> bool
    ensures { result ≡ truth_at truths worths }
{
    let w = number(worths);
    let word = truths[w / 64];
    (word >> (w % 64)) % 2 == 1
}
