//! The single steps of the evaluator, which lead to no part of a tree: charges, errors, values,
//! what a native's answer comes to, and what loops and scripts make of an outcome. Each
//! says exactly what it answers, unless memory runs out.
#![tactic(auto)]

pub mod charges;
pub mod loops;
pub mod operation;
pub mod outcome;
pub mod replies;
pub mod values;
