//! What is written of a script.

use crate::maker::Maker;
use std::alloc::{AllocError, Global};
use std::fmt::{Debug, Display, Write};
use std::io;

/// A text as it is written. Where memory runs out it goes on, and `finish` says so.
#[derive(Drop)]
pub struct Sheet {
    /// What makes the values that are written, and remembers for both that memory ran out.
    pub maker: Maker,
    text: String,
}

impl Sheet {
    /// Begins a text of which nothing is written.
    pub fn new(alloc: Global) -> Sheet {
        Sheet {
            maker: Maker::new(alloc),
            text: String::new(alloc),
        }
    }

    /// Returns the text, or says that memory ran out for a part of it.
    pub fn finish(self) -> Result<String, AllocError> {
        let Sheet { maker, text } = self;
        maker.finish(text)
    }

    /// Appends the text to bytes, or says that memory ran out.
    pub fn hand_to(self, out: &mut Vec<u8>) -> io::Result<()> {
        let text = self.finish()?;
        out.extend_from_slice(text.as_bytes())?;
        Ok(())
    }

    /// Appends ` or ` and another text where that differs.
    pub fn add_other(&mut self, other: Sheet) {
        match other.finish() {
            Ok(text) => {
                if text.as_str() != self.text.as_str() {
                    self.write(" or ");
                    self.write(text.as_str());
                }
                drop(text);
            }
            Err(AllocError) => self.maker.lack_memory(),
        }
    }

    /// Appends a text as it is.
    pub fn write(&mut self, text: &str) {
        let wrote = self.text.push_str(text);
        self.maker.remember(wrote);
    }

    /// Appends what stands before the item of an index, which is nothing at the first.
    pub fn separate(&mut self, index: usize, separator: &str) {
        if index > 0 {
            self.write(separator);
        }
    }

    /// Appends something as it is shown.
    pub fn show<T: Display>(&mut self, shown: &T) {
        let wrote = write!(self.text, "{shown}");
        self.maker.remember(wrote);
    }

    /// Appends something as a programmer sees it.
    pub fn debug<T: Debug>(&mut self, shown: &T) {
        let wrote = write!(self.text, "{shown:?}");
        self.maker.remember(wrote);
    }

    /// Appends a byte by two digits to the base of sixteen.
    pub fn hexadecimal(&mut self, byte: u8) {
        let wrote = write!(self.text, "{byte:02x}");
        self.maker.remember(wrote);
    }

    /// Appends a text, with `\n` between two lines of it.
    pub fn write_lines(&mut self, text: &str) {
        for (at, line) in text.lines().enumerate() {
            self.separate(at, "\\n");
            self.write(line);
        }
    }
}
