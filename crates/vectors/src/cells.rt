// The cells that a line tells: a list, or, for a long one, #COUNT:HASH with the hash of the list's text.
ghost use Rattle.std.specs.Prelude.{◌<◌};

use crate::numbers::{Number, items, whole};
use crate::parts::as_size;
use compared::buffers::is_filled;
use compared::text::word;
use std::fmt;
use std::fmt::Write;

// FNV-1a of 64 bits of what is written to it.
#[derive(Clone, Copy)]
struct Fnv(u64);

impl Fnv {
    const BASIS: Fnv = Fnv(14_695_981_039_346_656_037);

    const PRIME: u64 = 1_099_511_628_211;

    // A hash's sixteen digits in hexadecimal.
    fn digits(&self) -> [u8; 16] {
        let mut digits = [0u8; 16];
        let mut left = self.0;
        for digit in digits.iter_mut().rev() {
            *digit = hex_digit(left % 16);
            left /= 16;
        }
        digits
    }
}

impl fmt::Write for Fnv {
    fn write_str(&mut self, s: &str) -> fmt::Result {
        for b in s.as_bytes() {
            self.0 = (self.0 ^ u64::from(*b)).wrapping_mul(Fnv::PRIME);
        }
        Ok(())
    }
}

// A digit of a number in hexadecimal.
fn hex_digit(digit: u64) -> u8
    requires { digit < 16 }
{
    b"0123456789abcdef"[digit as usize]
}

// What is told of the first cells of an area.
#[derive(Clone, Copy)]
enum Listed<'a> {
    List(&'a [u8]),
    Hash { count: usize, digits: &'a [u8] },
}

impl Listed<'_> {
    fn of(list: &[u8]) -> Listed<'_> {
        match list {
            [b'#', hash @ ..] => Listed::Hash {
                count: as_size(whole(word(hash, 0, b':'))),
                digits: word(hash, 1, b':'),
            },
            _ => Listed::List(list),
        }
    }

    // How many cells are told.
    fn count(&self) -> usize {
        match self {
            Listed::List(list) => items(list),
            Listed::Hash { count, .. } => *count,
        }
    }

    // Whether that is told of so many cells.
    fn is_of<T: Copy + Into<Number>>(&self, cells: &[T]) -> bool {
        match self {
            Listed::List(list) => are_listed(list, cells),
            Listed::Hash { digits, .. } => hash_of(cells).is_ok_and(|hash| hash.digits().as_slice()
                == *digits),
        }
    }
}

// Whether a list has the numbers of some cells, as many as it has.
fn are_listed<T: Copy + Into<Number>>(list: &[u8], cells: &[T]) -> bool {
    cells
        .iter()
        .zip(list.split(|b| *b == b','))
        .all(|(cell, text)| whole(text) == Some((*cell).into()))
}

// The hash of the list that some cells make.
fn hash_of<T: Copy + Into<Number>>(cells: &[T]) -> Result<Fnv, fmt::Error> {
    let mut hash = Fnv::BASIS;
    for (i, cell) in cells.iter().enumerate() {
        if 0 < i {
            write!(hash, ",")?;
        }
        let number: Number = (*cell).into();
        write!(hash, "{number}")?;
    }
    Ok(hash)
}

// Whether the first cells of an area are those told, and marks are beyond.
pub fn cells_hold<T: Copy + PartialEq + Into<Number>>(list: &[u8], cells: &[T], mark: T) -> bool {
    let listed = Listed::of(list);
    let n = listed.count();
    cells.get(..n).is_some_and(|front| listed.is_of(front)) && is_filled(cells, n, mark)
}
