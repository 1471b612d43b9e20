//! Why a run stops, the errors as they are made and shown, and the table of natives, which may
//! answer one.
#![tactic(auto)]

mod debug;
mod display;
pub mod error;
pub mod errors;
pub mod table;
