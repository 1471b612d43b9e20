//! Scripts as data, in rows, with what is set for their runs and what they run above and among, and how what
//! they come to is written. What runs them is a `Runner`, and the program `tree_run` asks one.
#![tactic(auto)]

pub mod attempt;
pub mod command;
pub mod compare;
pub mod entry;
pub mod errors;
pub mod levels;
pub mod linked_pointer;
pub mod maker;
pub mod modules;
pub mod outcome;
pub mod outcomes;
pub mod print;
pub mod refuser;
pub mod rows;
pub mod runner;
pub mod sample;
pub mod settings;
pub mod sheet;
pub mod signatures;
pub mod start;
pub mod values;
