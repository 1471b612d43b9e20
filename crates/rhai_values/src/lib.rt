//! The values of a script, modules, and the store of shared cells.
#![tactic(auto)]

pub mod base;
pub mod cells;
