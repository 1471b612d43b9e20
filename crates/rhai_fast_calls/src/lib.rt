//! Calls that take no list of arguments: which function of a script a call means whatever its arguments come to, how they
//! become its variables, and a native that is called at once on a variable's value. Ports the part of upstream's
//! `func/call.rs` that a call by name takes. The contracts cite the machine's specs/language/Arguments.antt and the crate's
//! own specs/.
#![tactic(auto)]

pub mod at_once;
pub mod callee;
pub mod calls;
pub mod parameters;
