// Words and their numbers in the order of words, shorter first and then by the first letter that differs, and what words spell.
ghost use Rattle.std.specs.Prelude.{◌≤◌, ◌<◌};

use crate::plain::Values;

// A number that is doubled at most, so that what 40 letters spell is whole.
const MOST: u64 = 549_755_813_888;

impl Values {
    // Makes the values those of the word with a letter before all others.
    pub fn put_letter(&mut self, letter: u64) {
        let mut rest = letter;
        for value in self.variables.iter_mut() {
            *value = *value % MOST * 2 + rest % 2;
            rest /= 2;
        }
        self.power = self
            .power
            .filter(|power| *power < MOST)
            .map(|power| power.saturating_mul(2));
    }

    // The values with a letter after all others, where the word is short enough.
    pub fn with_letter(&self, letter: u64) -> Values {
        let power = self.power.unwrap_or(0);
        let mut all = *self;
        let mut rest = letter;
        for value in all.variables.iter_mut() {
            *value = value.saturating_add((rest % 2).saturating_mul(power));
            rest /= 2;
        }
        all.power = self.power.map(|power| power.saturating_mul(2));
        all
    }

    // What a word spells of at most 40 letters.
    pub fn of(word: &[u8]) -> Values {
        let mut values = Values::EMPTY;
        for letter in word.iter().rev() {
            values.put_letter(u64::from(*letter));
        }
        values
    }
}

// The letters of a word that is written down at most.
const SHORT: usize = 16;

// A word of few letters.
#[derive(Drop)]
pub struct Short {
    letters: [u8; SHORT],
    start: usize,
    ghost inside: { start ≤ 16 },
}

impl Short {
    // The word of a number; words are numbered from 0. The last letter of one is the rest of the number before it, and what stands before
    // that letter is the word of the quotient.
    pub fn numbered(number: u64, count: usize) -> Short
        requires letters_nonzero { 0 < count }
        requires letters_bound { count ≤ 64 }
    {
        let mut letters = [0u8; SHORT];
        let mut start = SHORT;
        let mut left = number;
        for at in (0..SHORT).rev() {
            if left == 0 {
                break;
            }
            left -= 1;
            letters[at] = (left % count as u64) as u8;
            left /= count as u64;
            start = at;
        }
        Short { letters, start }
    }

    pub fn as_slice(&self) -> &[u8] {
        &self.letters[self.start..]
    }
}

// The number of a word, where it is no more than a million.
pub fn number_of(word: &[u8], count: usize) -> u64 {
    word.iter().fold(0, |number: u64, letter| {
        if 1_000_000 < number {
            number
        } else {
            number
                .saturating_mul(count as u64)
                .saturating_add(u64::from(*letter))
                .saturating_add(1)
        }
    })
}
