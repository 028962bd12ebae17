// A record of a known kind and length, and the head: each check in document 01's order.
ghost use Rattle.std.specs.Prelude.{◌≡◌};
ghost use Rattle.reading.specs.Steps.{frame_answer, head_answer};

use records::{header_at, variables_fit};
use scope::{Refusal, Rule};

// Whether a record of a known kind and length is there.
pub fn frame_at(bytes: &[u8], at: usize, due: u16, size: usize) -> Result<(), Refusal>
    ensures { result ≡ frame_answer bytes.now at due size }
{
    let Some(header) = header_at(bytes, at) else {
        return Err(Rule::BytesEnd.at(at));
    };
    if header.kind != due {
        return Err(Rule::NotDue.at(at));
    }
    if header.len != size {
        return Err(Rule::BodyLength.at(at));
    }
    if bytes.len() - at - 4 < size {
        return Err(Rule::BytesEnd.at(at));
    }
    Ok(())
}

// The head: n.
pub fn head_at(bytes: &[u8], at: usize) -> Result<u8, Refusal>
    ensures { result ≡ head_answer bytes.now at }
{
    frame_at(bytes, at, 0x0001, 1)?;
    let n = bytes[at + 4];
    if !variables_fit(n) {
        return Err(Rule::BeyondLimit.at(at));
    }
    Ok(n)
}
