//! Calls as they are written, and what their first arguments are: operators and keywords, pointers
//! and names that are given as values, and a variable that comes first.
#![tactic(auto)]

pub mod arguments;
pub mod forms;
pub mod keywords;
pub mod linked;
pub mod names;
pub mod pointers;
