//! Compares what scripts come to with lines that were worked out by hand, as `ends 26 1 = ok 42`, and runs scripts
//! with their requests for memory refused. The scripts are those of the rows, and those of lists that no row has.
#![tactic(auto)]

pub mod answers;
pub mod commands;
mod keeps;
pub mod lists;
pub mod program;
mod refused;
mod scripts;
