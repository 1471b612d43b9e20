//! What statements decide and do without going on: what the value of a `switch` leads to, what a `catch` makes of an
//! error, what a `for` walks, variables that are declared, exported and shared, and the end of an `import`. Ports these parts
//! of upstream's `eval/stmt.rs`; the contracts cite the machine's definitions.
#![tactic(auto)]

pub mod branches;
pub mod catches;
pub mod choices;
pub mod cursors;
pub mod declaring;
pub mod entering;
pub mod exporting;
pub mod importing;
pub mod leaving;
pub mod parts;
pub mod sharing;
pub mod turns;
pub mod variables;
