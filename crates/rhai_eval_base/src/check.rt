//! The checker of trees, and what it passed.

pub use rhai_check::check::{CheckFault, check_function, check_tree};
pub use rhai_tree::checked::{CheckedFn, CheckedTree};
