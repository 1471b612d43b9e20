//! Functions of scripts: what a body is entered with, and what the end of its call takes back. Ports what
//! upstream's `call_script_fn` does before and after the body. The contracts cite the machine's
//! specs/language/Bodies.antt and the crate's own specs/.
#![tactic(auto)]

pub mod callers;
pub mod closing;
pub mod opening;
