//! Operands that are read where they stand: a literal, or a variable that is no handle. What takes
//! its operands so copies no value. Where an operand has to be evaluated nothing is charged and
//! nothing is changed, and the evaluator does it. The contracts cite the machine's runs.
#![tactic(auto)]

pub mod arguments;
pub mod operands;
pub mod operators;
pub mod reading;
