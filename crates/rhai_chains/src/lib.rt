//! Chains: members that natives get and set, assignment at the end, and what the walk of one does at a link where natives may be
//! asked, without going on. The walk itself stands in the evaluator's cycle, since a method may enter a function of a script.
//! Ports parts of upstream's `eval_dot_index_chain_raw`. The contracts cite the machine's specs/language/Chains.antt and the
//! crate's own specs/.
#![tactic(auto)]

pub mod assign;
pub mod calls;
pub mod ends;
pub mod members;
pub mod roots;
pub mod temporaries;
