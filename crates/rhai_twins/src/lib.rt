//! The contracts of the tree, the checker, the values, the state of a run, its lists with their caches, functions of
//! scripts, libraries of trees, operators, places, targets and lists of natives, each determined. What is kept of lookups shows in no answer,
//! so no law tells of it. Nothing here is run: a function calls what its law is of twice, from equal starts,
//! and its contract says that both calls end equally, unless memory runs out. Its proof sees the contract of the call alone,
//! so a body that meets that contract and ends differently for a caller does not exist.
#![tactic(auto)]

pub mod bits;
pub mod boxed;
pub mod cache;
pub mod caches;
pub mod cells;
pub mod check;
pub mod errors;
pub mod functions;
pub mod items;
pub mod library;
pub mod lists;
pub mod literal;
pub mod native_table;
pub mod natives;
pub mod operators;
pub mod orders;
pub mod paths;
pub mod places;
pub mod run;
pub mod scope;
pub mod shared;
pub mod sizes;
pub mod state;
pub mod table;
pub mod target;
pub mod text;
pub mod tree;
pub mod values;
