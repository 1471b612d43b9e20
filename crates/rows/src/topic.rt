//! What the files of lines are about.

use crate::answers::answer;
use rhai_bench::Bench;
use rhai_rows::compare::{Answer, Subject};
use rhai_vectors::Leaf;
use rhai_worked::answers::write_answer;
use rhai_worked::lists::Listed;
use std::alloc::Global;
use std::io;

/// What a file is about.
#[derive(Clone, Copy)]
pub enum Topic<'a> {
    /// The scripts of the rows, the program `tree_run`, and a host's own calls.
    Rows(&'a [Listed<'a>]),
    /// The functions of a leaf.
    Vectors(Leaf),
    /// The scripts that no row has.
    Lists(&'a [Listed<'a>]),
}

impl<'a> Topic<'a> {
    /// Returns all of them, in the order of their reports.
    pub fn all(lists: &'a [Listed<'a>]) -> [Topic<'a>; 7] {
        [
            Topic::Rows(lists),
            Topic::Vectors(Leaf::Operators),
            Topic::Vectors(Leaf::Indexing),
            Topic::Vectors(Leaf::Values),
            Topic::Vectors(Leaf::Tree),
            Topic::Vectors(Leaf::Lookups),
            Topic::Lists(lists),
        ]
    }
}

impl Subject for Topic<'_> {
    fn name(self) -> &'static str {
        match self {
            Topic::Rows(_) => "rows",
            Topic::Vectors(leaf) => leaf.name(),
            Topic::Lists(_) => "lists",
        }
    }

    fn answer(self, alloc: Global, call: &str) -> io::Result<Answer> {
        match self {
            Topic::Rows(lists) => Ok(Ok(answer(alloc, lists, call)?)),
            Topic::Vectors(leaf) => leaf.answer(alloc, call),
            Topic::Lists(lists) => {
                let mut out = Vec::new(alloc);
                write_answer::<Bench>(alloc, lists, call, &mut out)?;
                Ok(Ok(out))
            }
        }
    }
}
