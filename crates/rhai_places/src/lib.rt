//! Where an index leads in a value: places that may be borrowed, parts that are read and put back,
//! and what is refused.
#![tactic(auto)]

pub mod bits;
mod chars;
pub mod errors;
pub mod indexing;
pub mod laws;
pub mod locate;
pub mod part;
pub mod place;
pub mod put;
pub mod target;
