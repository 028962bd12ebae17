// Reading into a buffer that the caller lends.
#![tactic(auto)]

ghost use Rattle.std.specs.Prelude.{ℕ, ◌≤◌, ◌<◌, length, take, IfOk, IfErr};
ghost use Rattle.std.specs.Io.KnownBytes.{Consumes, IsAtEnd};

use std::io;
use std::io::Read;

// Reads until the buffer is full or the input ends, and answers how many bytes it put at the front of the buffer. Where a read fails, what was
// read before it stands there.
pub fn read_full<R: Read>(input: &mut R, buffer: &mut [u8]) -> io::Result<usize>
    ensures within { IfOk result (λ count. count ≤ length buffer.new) }
    ensures bytes { IfOk result (λ count. Consumes (R.remaining input.old) (R.remaining input.new) (take count buffer.new)) }
    ensures err { IfErr result (λ e. (count : ℕ) × (count ≤ length buffer.new) × Consumes (R.remaining input.old) (R.remaining input.new) (take count buffer.new)) }
    ensures end { IfOk result (λ count. count < length buffer.new → IsAtEnd (R.remaining input.new)) }
{
    let mut count = 0;
    // A read says how far it goes, so nothing counts here.
    while count < buffer.len() {
        let more = input.read(&mut buffer[count..])?;
        if more == 0 {
            return Ok(count);
        }
        count += more;
    }
    Ok(count)
}
