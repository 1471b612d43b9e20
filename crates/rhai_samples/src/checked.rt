//! Offsets that only the checker looks at.

use crate::parts::Part;
use crate::parts::Part::{Int, Let, Value, Variable};

/// `let x = 1; x`, whose last variable has the offset 2.
pub const OFFSET_OF_NO_VARIABLE: &[Part<'_>] = &[
    Int(1, 9),
    Let("x", 5, 1),
    Variable("x", 2, 12),
    Value,
];

/// `let x = 1; let x = 2; x`, whose last variable has the offset 2.
pub const OFFSET_OF_A_HIDDEN_VARIABLE: &[Part<'_>] = &[
    Int(1, 9),
    Let("x", 5, 1),
    Int(2, 20),
    Let("x", 16, 12),
    Variable("x", 2, 23),
    Value,
];
