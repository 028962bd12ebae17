// Whether a stretch of the text is spelt as another, or as a word.
ghost use Rattle.std.specs.Prelude.{◌≡◌, ◌≤◌, ◌<◌, length, nat_eq};
ghost use Rattle.std.specs.List.{list_any};
ghost use Rattle.std.specs.Cmp.Lexicographic.{pointwise};
ghost use Rattle.smtlib.specs.Spelling.{same, is_in, reserved_words, theory_words};
ghost use Rattle.lexicon.specs.Spots.{stretch};

// Whether the bytes from a place up to another are these.
pub fn spelt(text: &[u8], from: usize, to: usize, word: &[u8]) -> bool
    requires { (from ≤ to) × (to ≤ length text.now) }
    ensures { result ≡ same (stretch text.now from to) word.now }
{
    &text[from..to] == word
}

pub fn same_stretch(text: &[u8], from: usize, to: usize, other_from: usize, other_to: usize) -> bool
    requires { (from ≤ to) × (to ≤ length text.now) × (other_from ≤ other_to) × (other_to ≤ length text.now) }
    ensures { result ≡ same (stretch text.now from to) (stretch text.now other_from other_to) }
{
    text[from..to] == text[other_from..other_to]
}

// Whether a word is one of these.
fn is_one_of<const N: usize>(word: &[u8], words: &[&[u8; N]]) -> bool
    ensures { result ≡ list_any (λ v. pointwise nat_eq word.now v.now) words.now }
{
    words.iter().any(
        |v| -> bool
            ensures { result ≡ pointwise nat_eq word.entry.now v.now.now }
        { word == v.as_slice() },
    )
}

pub fn is_theory_word(text: &[u8], from: usize, to: usize) -> bool
    requires { (from ≤ to) × (to ≤ length text.now) }
    ensures { result ≡ is_in (stretch text.now from to) theory_words }
{
    let word = &text[from..to];
    match word.len() {
        1 => is_one_of(word, &[b"=", b"+", b"-", b"*", b"<", b">"]),
        2 => is_one_of(word, &[b"=>", b"or", b"<=", b">="]),
        3 => is_one_of(
            word,
            &[b"not", b"and", b"xor", b"ite", b"div", b"mod", b"abs"],
        ),
        4 => is_one_of(word, &[b"true"]),
        5 => is_one_of(word, &[b"false"]),
        8 => is_one_of(word, &[b"distinct"]),
        _ => false,
    }
}

// Whether a word of more than 12 bytes is a reserved one.
fn is_long_reserved(word: &[u8]) -> bool
    requires { 12 < length word.now }
    ensures { result ≡ is_in word.now reserved_words }
{
    match word.len() {
        13 => is_one_of(word, &[b"declare-const"]),
        14 => is_one_of(
            word,
            &[
                b"define-fun-rec",
                b"get-assertions",
                b"get-assignment",
                b"get-unsat-core",
            ],
        ),
        15 => is_one_of(word, &[b"define-funs-rec"]),
        16 => is_one_of(word, &[b"declare-datatype", b"reset-assertions"]),
        17 => is_one_of(word, &[b"declare-datatypes"]),
        18 => is_one_of(word, &[b"check-sat-assuming"]),
        21 => is_one_of(word, &[b"get-unsat-assumptions"]),
        _ => false,
    }
}

// Whether a stretch is a reserved word.
pub fn is_reserved(text: &[u8], from: usize, to: usize) -> bool
    requires { (from ≤ to) × (to ≤ length text.now) }
    ensures { result ≡ is_in (stretch text.now from to) reserved_words }
{
    let word = &text[from..to];
    match word.len() {
        0 => false,
        1 => is_one_of(word, &[b"!", b"_"]),
        2 => is_one_of(word, &[b"as"]),
        3 => is_one_of(word, &[b"let", b"par", b"pop"]),
        4 => is_one_of(word, &[b"echo", b"exit", b"push"]),
        5 => is_one_of(word, &[b"match", b"reset"]),
        6 => is_one_of(
            word,
            &[b"BINARY", b"exists", b"forall", b"STRING", b"assert"],
        ),
        7 => is_one_of(word, &[b"DECIMAL", b"NUMERAL"]),
        8 => is_one_of(word, &[b"get-info", b"set-info"]),
        9 => is_one_of(
            word,
            &[
                b"check-sat",
                b"get-model",
                b"get-proof",
                b"get-value",
                b"set-logic",
            ],
        ),
        10 => is_one_of(word, &[b"define-fun", b"get-option", b"set-option"]),
        11 => is_one_of(word, &[b"HEXADECIMAL", b"declare-fun", b"define-sort"]),
        12 => is_one_of(word, &[b"declare-sort"]),
        _ => is_long_reserved(word),
    }
}
