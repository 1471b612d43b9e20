//! What an index leads to, with its charge and the indexers of a host. Each function says exactly
//! what it answers and leaves, unless memory runs out.
#![tactic(auto)]

pub mod indexers;
pub mod indexing;
