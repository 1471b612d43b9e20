//! What the evaluator stands on, under one name: values, scopes, the tree and its checker, cells, the table
//! of natives, and the state of a run. It only shows what the crates below it have.
#![tactic(auto)]

pub mod base;
pub mod cells;
pub mod check;
pub mod script;
pub mod state;
pub mod table;
pub mod target;
