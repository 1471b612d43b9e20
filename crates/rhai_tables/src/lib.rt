//! The bench's own type of values, and tables of natives over it, without the evaluator.
#![tactic(auto)]

pub mod host;
pub mod tables;
