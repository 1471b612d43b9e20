//! The names that a run looks up, in steps that lead to no part of a tree: variables, by their offsets or their names,
//! what is declared and left, constants, and what stands behind a path. Each says exactly what it answers, unless
//! memory runs out.
#![tactic(auto)]

pub mod constants;
pub mod qualified;
pub mod roots;
pub mod variables;
