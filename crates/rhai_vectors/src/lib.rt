//! The worked vectors of the leaves: what the functions of the operators, the places, the values, the tree and the
//! lookups answer.
#![tactic(auto)]

mod fitting;
mod host;
mod indexing;
mod lookups;
mod modules;
mod operators;
mod reader;
mod sheet;
mod tree;
mod trees;
mod values;

use crate::reader::{Fault, Reader};
use crate::sheet::Sheet;
use std::alloc::Global;
use std::io;

/// What a file of vectors is about.
#[derive(Clone, Copy)]
pub enum Leaf {
    Operators,
    Indexing,
    Values,
    Tree,
    Lookups,
}

/// What a call answers, or what is wanted where its line has something else.
pub type Answer = Result<Vec<u8>, &'static str>;

impl Leaf {
    /// Returns the name of its file, without the ending.
    pub fn name(self) -> &'static str {
        match self {
            Leaf::Operators => "operators",
            Leaf::Indexing => "indexing",
            Leaf::Values => "values",
            Leaf::Tree => "tree",
            Leaf::Lookups => "lookups",
        }
    }

    /// Tells what the call of a line answers.
    pub fn answer(self, alloc: Global, call: &str) -> io::Result<Answer> {
        match self.text(alloc, call) {
            Ok(found) => Ok(Ok(found.into_bytes())),
            Err(Fault::Wanted(wanted)) => Ok(Err(wanted)),
            Err(Fault::NoMemory) => Err(io::Error::from(io::ErrorKind::OutOfMemory)),
        }
    }

    /// Tells what the call of a line answers, as a text.
    fn text(self, alloc: Global, call: &str) -> Result<String, Fault> {
        let mut line = Reader::new(alloc, call);
        let mut out = Sheet::new(alloc);
        self.tell(&mut line, &mut out);
        line.finish()?;
        out.finish()
    }

    /// Reads a call and writes what it answers.
    fn tell(self, line: &mut Reader<'_>, out: &mut Sheet) {
        match self {
            Leaf::Operators => operators::answer(line, out),
            Leaf::Indexing => indexing::answer(line, out),
            Leaf::Values => values::answer(line, out),
            Leaf::Tree => tree::answer(line, out),
            Leaf::Lookups => lookups::answer(line, out),
        }
    }
}
