// The words of a text, by the mark between them.

// A text from its word number k on, the first being number 0; the empty one where there is none.
pub fn rest(text: &[u8], k: usize, mark: u8) -> &[u8] {
    let mut left = text;
    for _ in 0..k {
        let Some(end) = left.iter().position(|b| *b == mark) else {
            return &[];
        };
        left = &left[end + 1..];
    }
    left
}

// The word number k of a text; the empty one where there is none.
pub fn word(text: &[u8], k: usize, mark: u8) -> &[u8] {
    text.split(|b| *b == mark).nth(k).unwrap_or(&[])
}
