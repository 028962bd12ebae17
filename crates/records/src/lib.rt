// Records as bytes: a bare step from one to the next, and a record's body, as document 01 has them; and what reading and writing a question share.
#![tactic(auto)]

ghost use Rattle.std.specs.Prelude.{◌≡◌};
ghost use Rattle.scope.specs.Wire.{record_at};
ghost use Rattle.records.specs.Bodies.{BodyOf};

mod headers;
mod limits;
mod nodes;
mod shape;

pub use headers::{Header, header_at};
pub use limits::{coefficient_fits, constant_fits, sized, variables_fit};
pub use nodes::body_length;
use scope::{Record, Refusal, Rule};
pub use shape::{DUE, Shape};

// A bare step: the record at a place, whatever its kind. Refused by 1 where its header or its body is cut.
pub fn record_at(bytes: &[u8], at: usize) -> Result<Record, Refusal>
    ensures { result ≡ record_at bytes.now at }
{
    let Some(header) = header_at(bytes, at) else {
        return Err(Rule::BytesEnd.at(at));
    };
    let len = header.len;
    if bytes.len() - at - 4 < len {
        return Err(Rule::BytesEnd.at(at));
    }
    Ok(Record {
        kind: header.kind,
        start: at + 4,
        len,
        next: at + 4 + len,
    })
}

// The len bytes from start on, as that stretch of the caller's bytes; where they do not fit, none, at the first byte.
pub fn body<'a>(bytes: &'a [u8], start: usize, len: usize) -> &'a [u8]
    ensures { BodyOf bytes.entry start len result }
{
    if start <= bytes.len() && len <= bytes.len() - start {
        &bytes[start..start + len]
    } else {
        &bytes[0..0]
    }
}
