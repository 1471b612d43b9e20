//! Constants of the tree.

ghost use Rattle.std.specs.Prelude.{◌≡◌};

use rhai_tree::literal::Literal;

/// Shows that two calls of `literal::same_literal` on two constants answer equally.
pub fn same_literal(this: &Literal, that: &Literal) -> (bool, bool)
    ensures { result.0 ≡ result.1 }
{
    (
        rhai_tree::literal::same_literal(this, that),
        rhai_tree::literal::same_literal(this, that),
    )
}
