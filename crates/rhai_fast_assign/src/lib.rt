//! Assignments that are done at once: what the operands of one as a statement are found in place for, what is done where a
//! list of one assignment is entered, what a run left to be assigned, and an item of an array that is changed where it stands.
//! Ports that part of upstream's `eval_stmt`. The contracts cite the machine's specs/language and the crate's own specs/.
#![tactic(auto)]

pub mod at_once;
pub mod in_place;
pub mod items;
pub mod left;
pub mod lists;
