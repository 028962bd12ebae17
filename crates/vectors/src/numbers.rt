// Numbers as a line has them: decimal with a sign or without, lists of these joined by commas, and bytes in hexadecimal.
ghost use Rattle.std.specs.Prelude.{◌≤◌, IfSome};

use std::fmt;

// The bytes of a question in a line at most.
pub const BYTES: usize = 4_400;

// A number by its sign, which is the highest bit, and its size.
#[derive(Clone, Copy, PartialEq, Eq, Debug)]
pub struct Number(u64);

impl Number {
    const SIGN: u64 = 1 << 63;

    // The number below zero of a size, where the sign leaves room for it.
    fn below_zero(size: u64) -> Option<Number> {
        if size < Self::SIGN {
            Some(Number(Self::SIGN | size))
        } else {
            None
        }
    }
}

impl From<i32> for Number {
    fn from(number: i32) -> Number {
        let size = u64::from(number.unsigned_abs());
        if number < 0 {
            Number(Self::SIGN | size)
        } else {
            Number(size)
        }
    }
}

impl From<u16> for Number {
    fn from(number: u16) -> Number {
        Number(u64::from(number))
    }
}

impl From<Number> for u64 {
    fn from(number: Number) -> u64 {
        number.0
    }
}

impl fmt::Display for Number {
    fn fmt<W: fmt::Write>(&self, f: &mut fmt::Formatter<W>) -> fmt::Result {
        let size = self.0 & (Self::SIGN - 1);
        if self.0 == size {
            write!(f, "{size}")
        } else {
            write!(f, "-{size}")
        }
    }
}

fn digit(b: u8) -> Option<u64> {
    match b {
        b'0'..=b'9' => Some(u64::from(b - b'0')),
        _ => None,
    }
}

// A number without a sign, of 64 bits.
fn natural(text: &[u8]) -> Option<u64> {
    if text.is_empty() {
        return None;
    }
    let mut value: u64 = 0;
    for b in text {
        value = value.checked_mul(10)?.checked_add(digit(*b)?)?;
    }
    Some(value)
}

// A number with a sign or without.
pub fn whole(text: &[u8]) -> Option<Number> {
    match text {
        [b'-', size @ ..] => Number::below_zero(natural(size)?),
        _ => Some(Number(natural(text)?)),
    }
}

// How many numbers a list has; none where it is a dash alone, or not there.
pub fn items(list: &[u8]) -> usize {
    match list {
        [] | [b'-'] => 0,
        _ => list.split(|b| *b == b',').count(),
    }
}

// The first numbers of a list, each as what is wanted of it, and past its end what stands there else.
pub fn list_in<T: Copy, const N: usize, F: Fn(Option<Number>) -> T>(
    list: &[u8],
    beyond: T,
    wanted: F,
) -> [T; N]
    requires { F.IsAlwaysCallable wanted }
{
    let mut all = [beyond; N];
    let texts = list.split(|b| *b == b',').take(items(list));
    for (cell, text) in all.iter_mut().zip(texts) {
        *cell = wanted(whole(text));
    }
    all
}

// A number as a natural one; where there is none, the largest, which no call takes.
pub fn as_natural(number: Option<Number>) -> u64 {
    number.map_or(u64::MAX, u64::from)
}

// A small number; one that is not small is told as the largest.
pub fn small(number: Option<Number>) -> u8 {
    u8::try_from(as_natural(number)).unwrap_or(u8::MAX)
}

// A number of 32 bits; where there is none, the largest, which no question that is accepted has.
pub fn signed(number: Option<Number>) -> i32 {
    let Some(Number(known)) = number else {
        return i32::MAX;
    };
    let size = i64::try_from(known & (Number::SIGN - 1)).unwrap_or(i64::MAX);
    let whole = if known < Number::SIGN { size } else { -size };
    i32::try_from(whole).unwrap_or(i32::MAX)
}

// A hexadecimal digit's worth.
fn nibble(b: u8) -> Option<u8>
    ensures { IfSome result (λ worth. worth ≤ 15) }
{
    match b {
        b'0'..=b'9' => Some(b - b'0'),
        b'a'..=b'f' => Some(b - b'a' + 10),
        _ => None,
    }
}

// The bytes of a text in hexadecimal, in the room lent for them; none where it is of no bytes, or of too many.
pub fn bytes_in<'a>(text: &[u8], room: &'a mut [u8; BYTES]) -> Option<&'a [u8]> {
    let (pairs, odd) = text.as_chunks::<2>();
    let n = pairs.len();
    if !odd.is_empty() || BYTES < n {
        return None;
    }
    for (byte, [high, low]) in room.iter_mut().zip(pairs) {
        *byte = nibble(*high)? << 4 | nibble(*low)?;
    }
    Some(&room[..n])
}
