//! What an evaluation runs on: scopes, the state of a caller, and the limits of a run.
#![tactic(auto)]

mod contents;
mod fitting;
pub mod limits;
pub mod scope;
pub mod session;
pub mod slot;
pub mod state;
