// The length of a node's body.
ghost use Rattle.std.specs.Prelude.{◌≡◌, ◌≤◌};
ghost use Rattle.scope.specs.Sizes.{most_variables};
ghost use Rattle.scope.specs.Question.{node_of};
ghost use Rattle.scope.specs.Wire.{body_length};

use scope::is_atom;

pub fn body_length(n: usize, code: u8) -> usize
    requires { n ≤ most_variables }
    ensures { result ≡ body_length n (node_of code) }
{
    if is_atom(code) { 4 * (n + 1) } else { 0 }
}
