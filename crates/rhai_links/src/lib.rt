//! The links of a chain: what they are and ask for, the spots that indices lead to, and what the walk of a chain decides and
//! does at a link where no native is asked, without going on. The walk itself stands in the evaluator's cycle. Ports parts of
//! upstream's `eval_dot_index_chain_raw`. The contracts cite the machine's specs/language/Chains.antt and the crate's own specs/.
#![tactic(auto)]

pub mod access;
pub mod arguments;
pub mod chain;
pub mod focus;
pub mod given;
pub mod links;
pub mod spots;
pub mod walker;
pub mod ways;
