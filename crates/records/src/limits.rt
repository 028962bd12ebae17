// The limits that reading and writing both look at: of the variables, of an atom's numbers, of the formula's size.
ghost use Rattle.std.specs.Prelude.{◌≡◌};
ghost use Rattle.scope.specs.Sizes.{variables_fit, coefficient_fits, constant_fits};
ghost use Rattle.records.specs.Formula.{size_fits};

use scope::Question;

pub fn variables_fit(n: u8) -> bool
    ensures { result ≡ variables_fit n }
{
    1 <= n && usize::from(n) <= Question::VARIABLES
}

pub fn coefficient_fits(number: i32) -> bool
    ensures { result ≡ coefficient_fits number }
{
    -Question::COEFFICIENT <= number && number <= Question::COEFFICIENT
}

pub fn constant_fits(number: i32) -> bool
    ensures { result ≡ constant_fits number }
{
    -Question::CONSTANT <= number && number <= Question::CONSTANT
}

// No ninth atom, and no depth 17.
pub fn sized(atom: bool, atoms: usize, depth: usize) -> bool
    ensures { result ≡ size_fits atom atoms depth }
{
    (!atom || atoms < Question::ATOMS) && depth <= Question::DEPTH
}
