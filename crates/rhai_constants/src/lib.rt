//! What every run of the language leaves of a constant, whatever its end, also where memory runs out.
#![tactic(auto)]

pub mod script;
