//! The step machine: what it means to run a script.
#![tactic(auto)]

pub mod language;
pub mod laws;
