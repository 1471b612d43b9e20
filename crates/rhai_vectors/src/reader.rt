//! The words and the values of a line.

mod literals;

use rhai_errors::errors::shared_text;
use rhai_tree::position::Position;
use rhai_tree::{Boxed, Items, Shared, Text};
use std::alloc::Global;

/// Why a line has no answer.
#[derive(Clone, Copy)]
pub enum Fault {
    /// The line has something else where this is wanted.
    Wanted(&'static str),
    NoMemory,
}

/// What is left of a line. It remembers its first fault, which `finish` answers; after it nothing
/// is left, and it reads something harmless where it finds nothing. So code that reads has no ways
/// out between its steps, and drops nothing there.
#[derive(Drop)]
pub struct Reader<'a> {
    alloc: Global,
    rest: &'a str,
    fault: Option<Fault>,
}

impl<'a> Reader<'a> {
    /// Begins with all of a line.
    pub fn new(alloc: Global, line: &'a str) -> Reader<'a> {
        Reader {
            alloc,
            rest: line,
            fault: None,
        }
    }

    /// Returns the allocator with which values are made.
    pub fn allocator(&self) -> Global {
        self.alloc
    }

    /// Tells whether nothing is left.
    pub fn is_at_end(&self) -> bool {
        self.rest.is_empty()
    }

    /// Ends the reading, with the first fault if there was one. It is a fault where the line goes on.
    pub fn finish(mut self) -> Result<(), Fault> {
        if !self.rest.is_empty() {
            self.want("the end of the call");
        }
        match self.fault {
            None => Ok(()),
            Some(fault) => Err(fault),
        }
    }

    /// Remembers a fault, and that nothing is left.
    fn fail(&mut self, fault: Fault) {
        if self.fault.is_none() {
            self.fault = Some(fault);
        }
        self.rest = "";
    }

    /// Remembers that something else stands where this is wanted.
    pub fn want(&mut self, wanted: &'static str) {
        self.fail(Fault::Wanted(wanted));
    }

    /// Remembers that memory ran out.
    pub fn lack_memory(&mut self) {
        self.fail(Fault::NoMemory);
    }

    /// Returns what was read. Where nothing was, remembers what is wanted and returns something harmless.
    fn or_want<T: Copy>(&mut self, read: Option<T>, wanted: &'static str, harmless: T) -> T {
        match read {
            Some(read) => read,
            None => {
                self.want(wanted);
                harmless
            }
        }
    }

    /// Reads the next word, up to a space, which is passed over. At the end it is empty.
    pub fn word(&mut self) -> &'a str {
        let (word, rest) = self.rest.split_once(' ').unwrap_or((self.rest, ""));
        self.rest = rest;
        word
    }

    /// Passes over a word that has to be the next.
    pub fn pass_word(&mut self, word: &'static str) {
        if self.word() != word {
            self.want(word);
        }
    }

    /// Reads the next whole number from zero on.
    pub fn count(&mut self) -> usize {
        let read = self.word().parse().ok();
        self.or_want(read, "a whole number from zero on", 0)
    }

    /// Reads the next position, as `1:2` for the second column of the first line.
    pub fn next_position(&mut self) -> Position {
        let (line, column) = self.word().split_once(':').unwrap_or(("", ""));
        let line = line.parse().unwrap_or(0);
        let column = column.parse().unwrap_or(0);
        if line == 0 || column == 0 {
            self.want("a place, as 1:2,");
            return Position::NONE;
        }
        Position::new(line, column)
    }

    /// Passes over a text where it stands next, and says whether it did.
    fn passes(&mut self, text: &str) -> bool {
        match self.rest.strip_prefix(text) {
            Some(rest) => {
                self.rest = rest;
                true
            }
            None => false,
        }
    }

    /// Passes over a text that has to stand next.
    fn expect(&mut self, text: &'static str) {
        if !self.passes(text) {
            self.want(text);
        }
    }

    /// Reads the text up to a mark, which is passed over.
    fn up_to(&mut self, mark: &'static str) -> &'a str {
        match self.rest.split_once(mark) {
            Some((text, rest)) => {
                self.rest = rest;
                text
            }
            None => {
                self.want(mark);
                ""
            }
        }
    }

    /// Puts a value behind a pointer of its own, None where there was no memory for it.
    pub fn boxed<T: Drop>(&mut self, value: T) -> Option<Boxed<T>> {
        let made = Boxed::new(self.alloc, value).ok();
        if made.is_none() {
            self.lack_memory();
        }
        made
    }

    /// Copies a text into a shared one, None where there was no memory for it.
    pub fn shared(&mut self, text: &str) -> Option<Shared<Text>> {
        let made = shared_text(self.alloc, text).ok();
        if made.is_none() {
            self.lack_memory();
        }
        made
    }

    /// Appends an item to a list.
    fn push<T: Drop>(&mut self, items: &mut Items<T>, item: T) {
        if items.push(item).is_err() {
            self.lack_memory();
        }
    }
}
