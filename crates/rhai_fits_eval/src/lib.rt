//! What the evaluator's public calls keep of what is in hand, on every way out, also where memory runs out:
//! what is in hand behind a call was so before it, or is a cell of the store that the call added, and no cell
//! gets a bare handle. Nothing here is run: a function makes the call that its law is of, and its proof sees
//! the contract of the call alone.
//!
//! Of what is around the variables the cells, the libraries, the imports and the tables of constants count,
//! of the engine all modules: what their constants contain, and the environments of their functions.
//!
//! Asked of a caller: no cell of the store has a bare handle, and what a call assigns is none. An empty store
//! has no cell, and behind each call the next one may be made.
//!
//! Where a call has a `this`, a first argument or a scope that may be missing, its law has one. The laws of `laws`
//! are of calls without one too: they are told of how a call ends.
//!
//! A state and a scope that fit together, as `GlobalRuntimeState::fits` tells, do so again behind each of these
//! calls (`laws::fits_together_again`). What stands in a host's value counts here, and not in `fits`.
#![tactic(auto)]

pub mod calls;
pub mod host;
pub mod laws;
pub mod parts;
pub mod scripts;
