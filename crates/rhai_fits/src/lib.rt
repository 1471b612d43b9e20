//! What every run of the language keeps of what it has, whatever its end, also where memory runs out.
#![tactic(auto)]

pub mod script;
