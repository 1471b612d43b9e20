//! Runs of trees built by hand, which show what the evaluator does.
#![tactic(auto)]

pub mod caller;
mod entering;
pub mod roots;
pub mod script;
pub mod searches;
pub mod timing;

/// The evaluator over the bench's tables, for what is proved beside it.
pub struct Bench;
