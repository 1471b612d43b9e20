//! Where an index leads in a value and what is shown there, and the definitions that say so.
#![tactic(auto)]

pub mod part;
pub mod spot;
