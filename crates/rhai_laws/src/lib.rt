//! What every run of the language keeps, whatever its end, also where memory runs out.
#![tactic(auto)]

pub mod memory;
pub mod script;
