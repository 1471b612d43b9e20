//! What a host's own calls answer: of functions, and of chains on handles. What makes the calls is not known here.
#![tactic(auto)]

pub mod caller;
pub mod functions;
pub mod handles;
