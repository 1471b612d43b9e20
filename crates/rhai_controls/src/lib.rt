//! Laws of contracts that are told here again, behind a trait: a clause that is taken out of one, as the
//! edits beside do, leaves two ends open, and the law is refused: one leaves open what a call answers, and one
//! what it leaves. Each law is that of `rhai_twins`. Nothing here is run.
#![tactic(auto)]

pub mod cells;
pub mod operators;
