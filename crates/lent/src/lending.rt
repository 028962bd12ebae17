// The parts of a held question, between the arrays that it holds and the buffers that a caller lends.
ghost use Rattle.std.specs.Prelude.{◌≡◌};
ghost use Rattle.std.proofs.lemmas.List.Edits.{sets};
ghost use Rattle.lent.specs.Lent.{PartsCopied};

// As many cells as there are in both, from the front on.
pub fn copy<T: Copy>(from: &[T], to: &mut [T])
    ensures { to.new ≡ sets to.old 0 from.now }
{
    let count = from.len().min(to.len());
    to[..count].copy_from_slice(&from[..count]);
}

// Each part of a question: those that are held into those that are lent, or the other way round. C lends the parts apart (include/pelohuaki.h).
pub fn copy_parts(
    codes: &[u8],
    coefficients: &[i32],
    constants: &[i32],
    to_codes: &mut [u8],
    to_coefficients: &mut [i32],
    to_constants: &mut [i32],
)
    ensures { PartsCopied codes.now coefficients.now constants.now to_codes.old to_coefficients.old to_constants.old to_codes.new to_coefficients.new to_constants.new }
{
    copy(codes, to_codes);
    copy(coefficients, to_coefficients);
    copy(constants, to_constants);
}
