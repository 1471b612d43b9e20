//! Calls of natives by their names and numbers, calls by name whose arguments are there, and operators
//! whose operands are there.
#![tactic(auto)]

pub mod dispatch;
pub mod native;
pub mod operators;
