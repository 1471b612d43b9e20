//! What the evaluator's public calls leave of constants, on every way out, also where memory runs out: a
//! variable of the caller's scope that is read-only throughout, itself and every value in it, has the same
//! value when the call has ended, unless the machine's run of the call shared its entry on the way, or wrote
//! it by a `let` with an index. Of one that is the handle of a cell the handle stays, whatever becomes of the
//! cell. Nothing here is run: a function makes the call that its law is of, and its proof sees the contract
//! of the call alone.
//!
//! The entry is one of the caller's scope: while a function has variables of its own, none of them is meant.
//!
//! Asked of a caller: no cell of the store has a bare handle, which each call leaves so (`rhai_fits_eval`).
//!
//! Where a call has a `this`, a first argument or a scope that may be missing, its law has one. The laws of `laws`
//! are of calls without one too: they are told of how a call ends.
#![tactic(auto)]

pub mod calls;
pub mod laws;
pub mod parts;
pub mod scripts;
