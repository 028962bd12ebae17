// Questions as bytes.
use compared::buffers::{first, same_question};
use scope::{Question, Refusal, Rule};

// The bytes of a question, in the room lent for them; none where it is refused.
pub fn written<'a>(question: &Question, room: &'a mut [u8]) -> &'a [u8] {
    let n = writing::write(question, room).unwrap_or(0);
    first(room, n)
}

pub fn reads_back(bytes: &[u8], question: &Question) -> bool {
    match reading::read(bytes) {
        Ok(held) => same_question(question, &held),
        Err(_) => false,
    }
}

// What every call says of no bytes: that they end at 0.
pub fn ended() -> Refusal {
    Rule::BytesEnd.at(0)
}

pub fn read_none() -> bool {
    reading::read(b"").err() == Some(ended())
}
