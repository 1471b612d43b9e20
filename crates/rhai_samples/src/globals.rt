//! Names that modules of the engine have, or functions of the script.

use crate::parts::Part;
use crate::parts::Part::{Block, Function, Int, Value};

/// `fn own() { 6 }`, of a module whose functions are found without its name.
pub const FUNCTIONS_OF_A_GLOBAL_MODULE: &[Part<'_>] = &[
    Int(6, 12),
    Value,
    Block(1, 10, 14),
    Function("own", &[]),
];
