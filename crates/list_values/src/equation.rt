// Arguments of the form `name=value`.
ghost use Rattle.std.specs.Prelude.{◌≡◌};
ghost use Rattle.list_values.specs.Equations as equations;

use dir_values::{after, before};

/// What stands before the first `=`: the whole text, where there is none.
pub(crate) fn left_side(text: &[u8]) -> &[u8]
    ensures { result.now ≡ equations.left_side text.now }
{
    before(text, b'=')
}

/// What stands behind the first `=`: nothing, where there is none.
pub(crate) fn right_side(text: &[u8]) -> &[u8]
    ensures { result.now ≡ equations.right_side text.now }
{
    after(text, b'=')
}
