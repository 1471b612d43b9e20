//! Functions of scripts, and where one is found: the search of libraries, global modules, imports and global
//! modules under names, over plain lists and without memory. Ports the order in which upstream's
//! `resolve_fn` looks for a script's function; and what is told of a function without its body. The contracts
//! cite specs/Functions.antt.
#![tactic(auto)]

pub mod entering;
pub mod environ;
pub mod function;
pub mod key;
pub mod lookup;
pub mod metadata;
pub mod named;
pub mod paths;
pub mod words;
