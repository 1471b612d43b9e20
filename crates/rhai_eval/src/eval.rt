//! Expressions and statements.

pub mod chaining;
pub mod expr;
pub mod indexing;
pub mod script;
pub mod search;
pub mod stmt;
