// A place in a question, opened on the caller's own bytes and moved record by record, as document 01 has it.
// The struct holds the slice, so each function over it is thin, and calls functions on plain slices.
#![tactic(auto)]

ghost use Rattle.std.specs.Prelude.{◌≡◌};
ghost use Rattle.scope.specs.Wire.{record_at};
ghost use Rattle.records.specs.Bodies.{BodyOf};
ghost use Rattle.place.specs.Steps.{moved_by, start_by, len_by, PlaceStepped};

use records::{body, record_at};
use scope::{Record, Refusal};

#[derive(Clone, Copy)]
pub struct Place<'a> {
    pub bytes: &'a [u8],
    pub at: usize,
}

// A step: the place moved past the record, its answer, and the record's body as that stretch of the caller's bytes.
// Where it is refused, the place as it was, and no bytes, which stand beside the answer for that.
#[derive(Clone, Copy)]
pub struct Step<'a> {
    pub place: Place<'a>,
    pub answer: Result<Record, Refusal>,
    pub body: &'a [u8],
}

// At the first byte.
pub fn open<'a>(bytes: &'a [u8]) -> Place<'a>
    ensures { (result.bytes ≡ bytes.entry) × (result.at ≡ 0) }
{
    Place { bytes, at: 0 }
}

// The record at the place, which is not moved.
pub fn peek_record<'a>(place: Place<'a>) -> Result<Record, Refusal>
    ensures { result ≡ record_at place.entry.bytes.now place.entry.at }
{
    record_at(place.bytes, place.at)
}

fn moved(answer: Result<Record, Refusal>, at: usize) -> usize
    ensures { result ≡ moved_by answer at }
{
    match answer {
        Ok(record) => record.next,
        Err(_) => at,
    }
}

fn body_of<'a>(bytes: &'a [u8], answer: Result<Record, Refusal>) -> &'a [u8]
    ensures { BodyOf bytes.entry (start_by answer) (len_by answer) result }
{
    match answer {
        Ok(record) => body(bytes, record.start, record.len),
        Err(_) => body(bytes, 0, 0),
    }
}

// Moves the place past the record that is there, and hands back its body.
pub fn next_record<'a>(place: Place<'a>) -> Step<'a>
    ensures { PlaceStepped place.entry result }
{
    let answer = record_at(place.bytes, place.at);
    let body = body_of(place.bytes, answer);
    let at = moved(answer, place.at);
    Step {
        place: Place {
            bytes: place.bytes,
            at,
        },
        answer,
        body,
    }
}
