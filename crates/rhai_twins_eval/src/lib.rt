//! The contracts of the evaluator's public calls, each determined: two calls from equal starts end equally,
//! unless memory runs out. Nothing here is run: a function calls what its law is of twice, and its proof sees
//! the contract of the call alone, so a body that meets that contract and ends differently for a caller does
//! not exist.
//!
//! Where a call has a `this`, a first argument or a scope that may be missing, its law has one. The lemmas of
//! proofs/Once.antt, by which the laws are proved, are of calls without one too.
#![tactic(auto)]

pub mod calls;
pub mod indexers;
pub mod lookups;
pub mod parts;
pub mod scripts;
