//! The tree evaluator, proved to end exactly as a step machine with an explicit stack, cut at the
//! limit of operations. What it stands on is shown here too.
#![tactic(auto)]

pub mod engine;
pub mod eval;
pub mod func;
mod this;

pub use rhai_eval_base::{base, cells, check, script, state, table, target};
