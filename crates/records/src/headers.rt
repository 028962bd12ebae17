// The header of a record.
ghost use Rattle.std.specs.Prelude.{◌≡◌, ◌+◌, ◌<◌, length};
ghost use Rattle.scope.specs.Wire.{two_at};
ghost use Rattle.records.specs.Headers.{header_at};

// The header of a record: its kind and the length of its body.
#[derive(Clone, Copy)]
pub struct Header {
    pub kind: u16,
    pub len: usize,
}

pub fn two_at(bytes: &[u8], at: usize) -> u16
    requires { at + 1 < length bytes.now }
    ensures { result ≡ two_at bytes.now at }
{
    u16::from_le_bytes([bytes[at], bytes[at + 1]])
}

// None where fewer than 4 bytes are left.
pub fn header_at(bytes: &[u8], at: usize) -> Option<Header>
    ensures { result ≡ header_at bytes.now at }
{
    let n = bytes.len();
    if n < at || n - at < 4 {
        return None;
    }
    let len = usize::from(two_at(bytes, at));
    let kind = two_at(bytes, at + 2);
    Some(Header { kind, len })
}
