// The nodes of a question laid from SMT-LIB text that has no fault: in the question's order, the first beyond a limit refused.
#![tactic(auto)]

mod atoms;
mod lists;
mod nodes;

ghost use Rattle.std.specs.Prelude.{◌≡◌, eqb, ◌≤◌, ◌-◌, ◌<◌, length, IfOk};
ghost use Rattle.smtlib.specs.Lexicon.{most_nesting};
ghost use Rattle.smtlib.specs.Formulas.{clauses_of};
ghost use Rattle.forms.specs.Places.{forms_at};
ghost use Rattle.terms.specs.Names.{names_in, NamesStand};
ghost use Rattle.terms.specs.Heads.{word_code};
ghost use Rattle.terms.specs.Read.{Inside};
ghost use Rattle.laying.specs.Laid.{Layable};
ghost use Rattle.laying.specs.Noted.{empty_laying};
ghost use Rattle.laying.specs.Texts.{FirstFaultless, AllFaultless, ListLays, PartsLaidOr, ClauseLays, join_code, laid_as};

pub use atoms::lay_atom;
use lists::{list_at, part_end};
use nodes::deepen_within;
pub use nodes::{at_depth, deepen_if, lay_connective};
use scope::{Question, Refusal};
use terms::{HeadWord, ListKind, terms_from};

// The question of n variables as far as it is laid, and the depth at which the next node stands.
#[derive(Clone, Copy)]
pub struct Laying {
    pub n: usize,
    pub nodes: usize,
    pub atoms: usize,
    pub depth: usize,
    pub codes: [u8; Question::NODES],
    pub coefficients: [i32; Question::COEFFICIENTS],
    pub constants: [i32; Question::ATOMS],
}

impl Laying {
    pub fn empty(n: usize) -> Self
        ensures { result ≡ empty_laying n }
    {
        Laying {
            n,
            nodes: 0,
            atoms: 0,
            depth: 1,
            codes: [0u8; Question::NODES],
            coefficients: [0i32; Question::COEFFICIENTS],
            constants: [0i32; Question::ATOMS],
        }
    }
}

// What was laid, and the place where what follows it starts.
#[derive(Clone, Copy)]
pub struct Laid {
    pub laying: Laying,
    pub next: usize,
}

// A comparison's two sides, up to the list's end, laid as an atom. The place is the list's.
fn lay_sides(
    text: &[u8],
    at: usize,
    head: HeadWord,
    place: usize,
    names: &[usize],
    count: usize,
    nesting: usize,
    laying: &mut Laying,
) -> Result<usize, Refusal>
    requires { NamesStand text.now names.now count × (Inside text.now at nesting × (Layable laying.old × ((3 ≤ word_code head) × (word_code head ≤ 7)))) }
    ensures inside { IfOk result (λ next. (at < next) × (next ≤ length text.now)) }
    ensures laid { ListLays text.now at (most_nesting - nesting) (names_in text.now names.now count) (word_code head) place laying.old (laid_as laying.new result) }
{
    let sides = terms_from(text, at, head, place, names, count, nesting);
    lay_atom(laying, head, place, sides.term.numbers)?;
    Ok(sides.next)
}

// The code of the connective that joins the parts of a list, by its head.
fn join_code(head: HeadWord) -> u8
    ensures { result ≡ join_code (word_code head) }
{
    match head {
        HeadWord::Or => 5,
        _ => 4,
    }
}

fn negates(head: HeadWord) -> bool
    ensures { result ≡ eqb (word_code head) 8 }
{
    matches!(head, HeadWord::Not)
}

// The formula without fault that stands next in a list, laid at the depth at hand: the place where what follows it starts.
#[cycle(lay_into_lay_joined)]
fn lay_into(
    text: &[u8],
    at: usize,
    names: &[usize],
    count: usize,
    nesting: usize,
    laying: &mut Laying,
) -> Result<usize, Refusal>
    requires { NamesStand text.now names.now count × (Inside text.now at nesting × (Layable laying.old × FirstFaultless (clauses_of (names_in text.now names.now count) (forms_at text.now at)))) }
    ensures inside { IfOk result (λ next. (at < next) × (next ≤ length text.now)) }
    ensures laid { ClauseLays text.now at (most_nesting - nesting) (names_in text.now names.now count) laying.old (laid_as laying.new result) }
{
    let list = list_at(text, at);
    let left = nesting - 1;
    if let ListKind::Comparison = list.head.kind() {
        return lay_sides(
            text, list.next, list.head, list.place, names, count, left, laying,
        );
    }
    let depth = laying.depth;
    deepen_within(negates(list.head), laying, 3, list.place)?;
    let code = join_code(list.head);
    let next = lay_joined(
        text, list.next, code, list.place, names, count, left, laying,
    )?;
    at_depth(laying, depth);
    Ok(next)
}

// The formulas that follow in a list up to its end, joined by a connective (4 and, 5 or) at the depth at hand: each but the last has a join before it, the
// first at the list's place, the others at their part, and one level deeper from join to join. Its answer is as above.
#[cycle(lay_into_lay_joined)]
fn lay_joined(
    text: &[u8],
    at: usize,
    code: u8,
    place: usize,
    names: &[usize],
    count: usize,
    nesting: usize,
    laying: &mut Laying,
) -> Result<usize, Refusal>
    requires { NamesStand text.now names.now count × (Inside text.now at nesting × (Layable laying.old × (((4 ≤ code) × (code ≤ 5)) × AllFaultless (clauses_of (names_in text.now names.now count) (forms_at text.now at))))) }
    ensures inside { IfOk result (λ next. (at < next) × (next ≤ length text.now)) }
    ensures laid { PartsLaidOr text.now at (most_nesting - nesting) (names_in text.now names.now count) code place laying.old (laid_as laying.new result) }
{
    let depth = laying.depth;
    let mut join = place;
    let mut next = at;
    loop {
        let end = part_end(text, next);
        deepen_within(end.another.is_some(), laying, code, join)?;
        let behind = lay_into(text, next, names, count, nesting, laying)?;
        let Some(following) = end.another else {
            at_depth(laying, depth);
            return Ok(end.next);
        };
        join = following;
        next = behind;
    }
}

// The same into a laying of its own.
pub fn lay_from(
    text: &[u8],
    at: usize,
    names: &[usize],
    count: usize,
    nesting: usize,
    mut laying: Laying,
) -> Result<Laid, Refusal>
    requires { NamesStand text.now names.now count × (Inside text.now at nesting × (Layable laying × FirstFaultless (clauses_of (names_in text.now names.now count) (forms_at text.now at)))) }
    ensures inside { IfOk result (λ r. (at < r.next) × (r.next ≤ length text.now)) }
    ensures laid { ClauseLays text.now at (most_nesting - nesting) (names_in text.now names.now count) laying result }
{
    let next = lay_into(text, at, names, count, nesting, &mut laying)?;
    Ok(Laid { laying, next })
}
