// Leaves on signed numbers: the floor half of a difference, and a number's four bytes on the wire.
#![tactic(auto)]

ghost use Rattle.std.specs.Prelude.{◌≡◌, ◌+◌, ◌≤◌, length, nat_abs, ◌-ℤ◌};
ghost use Rattle.std.proofs.lemmas.List.Edits.{sets};
ghost use Rattle.scope.specs.Whole.{half};
ghost use Rattle.scope.specs.Wire.{number_at};
ghost use Rattle.scope.specs.Writing.{number_bytes};
ghost use Rattle.scope.specs.Sizes.{most_constant};
ghost use Rattle.theory.specs.Entries.KeyCells.{most_sum};

// Half of what an entry leaves over a letter's sum, rounded towards minus infinity.
pub fn floor_half(entry: i32, sum: i32) -> i32
    requires { (nat_abs entry ≤ most_constant) × (nat_abs sum ≤ most_sum) }
    ensures { result ≡ half (entry -ℤ sum) }
{
    let d = entry - sum;
    // Corrected to the even number below, an odd difference divides without a remainder.
    if d % 2 != 0 {
        return (d - 1) / 2;
    }
    d / 2
}

// The number in the four bytes from `at` on.
pub fn number_at(bytes: &[u8], at: usize) -> i32
    requires { at + 4 ≤ length bytes.now }
    ensures { result ≡ number_at bytes.now at }
{
    i32::from_le_bytes([bytes[at], bytes[at + 1], bytes[at + 2], bytes[at + 3]])
}

// Puts a number into the four bytes from `at` on.
pub fn put_number(bytes: &mut [u8], at: usize, z: i32)
    requires { at + 4 ≤ length bytes.old }
    ensures { bytes.new ≡ sets bytes.old at (number_bytes z) }
{
    bytes[at..at + 4].copy_from_slice(&z.to_le_bytes());
}
