//! The evaluator's cycle: statements, expressions, loops and calls, which call one another, each
//! proved to run as the step machine over any stack. They read no more of an engine than
//! `Evaluator` has.
#![tactic(auto)]

pub mod call;
mod chaining;
pub mod evaluator;
pub mod expr;
pub mod script;
pub mod stmt;
