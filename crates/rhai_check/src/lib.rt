//! The checker that passes exactly the well-formed trees.
#![tactic(auto)]

pub mod check;
