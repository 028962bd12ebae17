// Symbols as heads of lists.
#![tactic(auto, unfolding(crate::proofs::Opened::heads))]

ghost use Rattle.std.specs.Prelude.{◌≡◌, ◌≤◌, length};
ghost use Rattle.smtlib.specs.Terms.{head_named};
ghost use Rattle.lexicon.specs.Spots.{stretch};
ghost use Rattle.terms.specs.Heads.{word_code, head_code, KindSays};

// The word at a list's head.
#[derive(Clone, Copy, PartialEq, Eq)]
pub enum HeadWord {
    Plus,
    Minus,
    Times,
    Equal,
    AtMost,
    Less,
    AtLeast,
    Greater,
    Not,
    And,
    Or,
    // No word that the subset knows.
    Other,
}

// What a list is by its head.
#[derive(Clone, Copy, PartialEq, Eq)]
pub enum ListKind {
    Term,
    Comparison,
    Connective,
    Other,
}

impl HeadWord {
    // What a list with this head is.
    pub fn kind(self) -> ListKind
        ensures { KindSays (word_code self) result }
    {
        match self {
            HeadWord::Plus | HeadWord::Minus | HeadWord::Times => ListKind::Term,
            HeadWord::Equal
            | HeadWord::AtMost
            | HeadWord::Less
            | HeadWord::AtLeast
            | HeadWord::Greater => ListKind::Comparison,
            HeadWord::Not | HeadWord::And | HeadWord::Or => ListKind::Connective,
            HeadWord::Other => ListKind::Other,
        }
    }
}

// The head that a symbol is.
fn head_named(word: &[u8]) -> HeadWord
    ensures { word_code result ≡ head_code (head_named word.now) }
{
    match word {
        [b'+'] => HeadWord::Plus,
        [b'-'] => HeadWord::Minus,
        [b'*'] => HeadWord::Times,
        [b'='] => HeadWord::Equal,
        [b'<'] => HeadWord::Less,
        [b'>'] => HeadWord::Greater,
        [b'<', b'='] => HeadWord::AtMost,
        [b'>', b'='] => HeadWord::AtLeast,
        [b'o', b'r'] => HeadWord::Or,
        [b'n', b'o', b't'] => HeadWord::Not,
        [b'a', b'n', b'd'] => HeadWord::And,
        _ => HeadWord::Other,
    }
}

// The head that a stretch of the text is.
pub fn head_between(text: &[u8], from: usize, to: usize) -> HeadWord
    requires { (from ≤ to) × (to ≤ length text.now) }
    ensures { word_code result ≡ head_code (head_named (stretch text.now from to)) }
{
    head_named(&text[from..to])
}
