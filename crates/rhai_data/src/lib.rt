//! Arrays, maps and interpolated texts while they are made of the values of their parts.
#![tactic(auto)]

pub mod array;
pub mod map;
pub mod text;
