//! Trees as lines of text, as `int 40 1, int 2 6, operator + 4, value`: their parts in order, each a word and what
//! belongs to it, in the order of `parts::Part`. Columns stand last, but for lists of any length, which stand behind
//! them.

mod expressions;
mod lists;
mod statements;
mod words;

use crate::making::Making;
use crate::read::expressions::add_constant;
use crate::read::words::Words;
use rhai_build::functions::TreeParts;
use std::alloc::{AllocError, Global};

/// Why no tree is made of a line.
#[derive(Clone, Copy)]
pub enum Fault {
    /// The line has something else where this is wanted.
    Wanted(&'static str),
    NoMemory,
}

/// Makes the tree of a line.
pub fn read_tree(alloc: Global, line: &str) -> Result<TreeParts, Fault> {
    let mut words = Words::new(alloc);
    let mut making = Making::new(alloc);
    for part in line.split(", ") {
        words.begin(part);
        add_constant(&mut words, &mut making);
        words.end();
    }
    finish(words.fault(), making)
}

/// Finishes a tree, unless its line has a fault.
fn finish(fault: Option<Fault>, making: Making) -> Result<TreeParts, Fault> {
    match fault {
        Some(fault) => Err(fault),
        None => match making.finish() {
            Ok(tree) => Ok(tree),
            Err(AllocError) => Err(Fault::NoMemory),
        },
    }
}
