// The answer by how exploring ended, with the word of the state found: it is read off the path area, from the state back to the start.
#![tactic(auto)]

ghost use Rattle.std.specs.Prelude.{Ok, ◌≡◌, ◌≤◌, length};
ghost use Rattle.scope.specs.Whole.{at_front};
ghost use Rattle.path.specs.Path.{path_word, PathLinked};
ghost use Rattle.path.specs.Answering.{Answers, Spelt, SpeltIf};

use plan::Explored;
use scope::Decision;

// How many letters the word of a state has.
fn word_length(path: &[u16], state: usize) -> usize
    requires { PathLinked path.now state }
    ensures { result ≡ length (path_word path.now state) }
{
    let mut letters = 0;
    let mut t = state;
    // From a state to the one that led to it, back to the start: there is no index to count.
    while t != 0 {
        t = usize::from(path[2 * t]);
        letters += 1;
    }
    letters
}

// Writes the word of a state, which has so many letters, at the buffer's front: from its last letter to its first.
fn write_word(path: &[u16], state: usize, letters: usize, word: &mut [u8])
    requires path_linked { PathLinked path.now state }
    requires letters_value { (letters ≡ length (path_word path.now state)) × (letters ≤ length word.old) }
    ensures { word.new ≡ at_front (path_word path.now state) word.old }
{
    let mut left = letters;
    let mut t = state;
    // Back to the start, as in word_length: the path says which state is next, and no index counts.
    while t != 0 {
        left -= 1;
        word[left] = path[2 * t + 1] as u8;
        t = usize::from(path[2 * t]);
    }
}

// The answer where the last of so many states accepts, to which a letter of a row leads: its word, if the buffer has room for it.
fn found(path: &[u16], states: usize, row: usize, letter: usize, word: &mut [u8]) -> Decision
    requires { Spelt path.now row letter }
    ensures { Answers (Explored.Found states row letter) path.now word.old word.new (Ok result) }
{
    let before = word_length(path, row);
    let letters = before + 1;
    if word.len() < letters {
        return Decision::Short { states, letters };
    }
    word[before] = letter as u8;
    write_word(path, row, before, word);
    Decision::Found { states, letters }
}

// The answer by how exploring ended.
pub fn answer(explored: Explored, path: &[u16], word: &mut [u8]) -> Decision
    requires { SpeltIf explored path.now }
    ensures { Answers explored path.now word.old word.new (Ok result) }
{
    match explored {
        Explored::Found {
            states,
            row,
            letter,
        } => found(path, states, row, letter, word),
        Explored::All { states } => Decision::Never { states },
        Explored::NoRoom { states } => Decision::NoRoom { states },
    }
}
