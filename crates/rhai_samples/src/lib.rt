//! Trees of the worked examples, each of the text that stands above it: lists of their parts (`parts`), what the builder
//! makes (`built`), or lines of a file (`read`).
#![tactic(auto)]

pub mod built;
pub mod calls;
pub mod caught;
pub mod cells;
pub mod chains;
pub mod checked;
pub mod choices;
pub mod constants;
pub mod data;
pub mod functions;
pub mod globals;
pub mod imports;
pub mod libraries;
pub mod limits;
pub mod loops;
mod making;
pub mod odd;
pub mod operators;
pub mod pairs;
pub mod parts;
pub mod paths;
pub mod read;
pub mod refused;
pub mod thrown;
pub mod variables;
pub mod walks;
