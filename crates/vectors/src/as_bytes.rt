// read BYTES = accepted N CODES COEFFICIENTS CONSTANTS | refused NUMBER PLACE
// import TEXT held N CODES COEFFICIENTS CONSTANTS | refused NUMBER PLACE
// write N CODES COEFFICIENTS CONSTANTS ROOM = written BYTES | refused NUMBER PLACE
// record BYTES AT = record KIND BODY NEXT | refused NUMBER PLACE
use crate::numbers::{BYTES, bytes_in, items, list_in, signed, small};
use crate::parts::{hex_part, is_refused, is_said, natural_part, outcome, part, size_part};
use compared::buffers::{BYTE_MARK, all_marked, front, same_question};
use compared::text::rest;
use scope::{Question, Record, Refusal};

// The question in four words, where it has all its numbers there.
fn question_in(four: &[u8]) -> Option<Question> {
    let n = u8::try_from(natural_part(four, 0)).ok()?;
    let codes = part(four, 1);
    let coefficients = part(four, 2);
    let constants = part(four, 3);
    if items(codes) != Question::NODES
        || items(coefficients) != Question::COEFFICIENTS
        || items(constants) != Question::ATOMS
    {
        return None;
    }
    Some(Question {
        n,
        codes: list_in(codes, 0, small),
        coefficients: list_in(coefficients, 0, signed),
        constants: list_in(constants, 0, signed),
    })
}

// Whether an outcome is what reading or importing gives: a name and a question, or a refusal.
fn held_right(told: &[u8], name: &str, answer: Result<Question, Refusal>) -> bool {
    match answer {
        Ok(held) => {
            is_said(told, name, 5)
                && question_in(rest(told, 1, b' ')).is_some_and(|question| same_question(
                    &held, &question,
                ))
        }
        Err(refusal) => is_refused(told, refusal),
    }
}

pub fn read_right(line: &[u8], bytes: &[u8]) -> bool {
    held_right(outcome(line, 2), "accepted", reading::read(bytes))
}

pub fn import_right(line: &[u8], text: &[u8]) -> bool {
    let answer = importing::import(text).map(|import| import.question);
    held_right(outcome(line, 2), "held", answer)
}

// Whether bytes are those of a text in hexadecimal.
fn same_bytes(text: &[u8], bytes: &[u8]) -> bool {
    let mut room = [0u8; BYTES];
    bytes_in(text, &mut room).is_some_and(|wanted| wanted == bytes)
}

// Whether a buffer has the bytes told, and marks beyond.
fn same_written(told: &[u8], bytes: &[u8; BYTES], n: usize) -> bool {
    let Some((written, beyond)) = bytes.split_at_checked(n) else {
        return false;
    };
    is_said(told, "written", 2)
        && same_bytes(hex_part(told, 1), written)
        && all_marked(beyond, BYTE_MARK)
}

fn written(told: &[u8], answer: Result<usize, Refusal>, bytes: &[u8; BYTES]) -> bool {
    match answer {
        Ok(n) => same_written(told, bytes, n),
        Err(refusal) => is_refused(told, refusal) && all_marked(bytes, BYTE_MARK),
    }
}

pub fn write_right(line: &[u8]) -> bool {
    let room = size_part(line, 5);
    let Some(question) = question_in(rest(line, 1, b' ')) else {
        return false;
    };
    if BYTES < room {
        return false;
    }
    let mut bytes = [BYTE_MARK; BYTES];
    let answer = writing::write(&question, front(&mut bytes, room));
    written(outcome(line, 6), answer, &bytes)
}

fn same_record(told: &[u8], bytes: &[u8], record: Record) -> bool {
    is_said(told, "record", 4)
        && natural_part(told, 1) == u64::from(record.kind)
        && same_bytes(
            hex_part(told, 2),
            records::body(bytes, record.start, record.len),
        )
        && size_part(told, 3) == record.next
}

pub fn record_right(line: &[u8], bytes: &[u8]) -> bool {
    let told = outcome(line, 3);
    match records::record_at(bytes, size_part(line, 2)) {
        Ok(record) => same_record(told, bytes, record),
        Err(refusal) => is_refused(told, refusal),
    }
}
