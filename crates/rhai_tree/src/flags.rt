//! Options of the tree's forms.

ghost use Rattle.std.specs.Prelude.{⊤, ◌≡◌, ◌==◌, [], ◌∷◌, codes};

use bitflags::{Flag, Flags, bitflag_items};

/// Options of an expression or a statement. Ports upstream's `ASTFlags`.
#[derive(Clone, Copy, Debug, PartialEq, Eq)]
pub struct ASTFlags(u8);

bitflag_items! {
    impl ASTFlags: u8 {
        /// A chain's link that stops at `()`; `until` instead of `while` in a `do`.
        const NEGATED = 1;
        /// The end of a chain; `break` instead of `continue`; `throw` instead of `return`.
        const BREAK = 2;
        /// A constant.
        const CONSTANT = 4;
        /// A variable that is exported.
        const EXPORTED = 8;
    }
}

impl Flags for ASTFlags {
    type Bits = u8;

    ghost exact = { ⊤ };

    ghost table = { (codes "NEGATED", 1) ∷ (codes "BREAK", 2) ∷ (codes "CONSTANT", 4) ∷
        (codes "EXPORTED", 8) ∷ [] };

    ghost set_of = { λ p. p.0 };

    fn flags<'a>() -> &'a [Flag<ASTFlags>] {
        ASTFlags::FLAGS
    }

    fn bits(&self) -> u8 {
        self.0
    }

    fn from_bits_retain(bits: u8) -> ASTFlags {
        ASTFlags(bits)
    }
}
