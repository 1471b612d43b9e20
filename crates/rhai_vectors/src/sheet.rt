//! Values and errors as the vectors write them.

use crate::host::Stone;
use crate::reader::Fault;
use rhai_check::check::CheckFault;
use rhai_errors::error::{Bounds, EvalAltResult, TypeMismatch};
use rhai_tree::position::Position;
use rhai_values::base::value::{AccessMode, Dynamic};
use std::alloc::{AllocError, Global};
use std::fmt::Write;

/// An answer as it is written. Where memory runs out it goes on, and `finish` says so.
#[derive(Drop)]
pub struct Sheet {
    text: String,
    has_memory: bool,
}

impl Sheet {
    /// Begins an answer of which nothing is written.
    pub fn new(alloc: Global) -> Sheet {
        Sheet {
            text: String::new(alloc),
            has_memory: true,
        }
    }

    /// Returns the answer, or says that memory ran out for a part of it.
    pub fn finish(self) -> Result<String, Fault> {
        if self.has_memory {
            Ok(self.text)
        } else {
            Err(Fault::NoMemory)
        }
    }

    fn remember(&mut self, wrote: Result<(), AllocError>) {
        if wrote.is_err() {
            self.has_memory = false;
        }
    }

    /// Appends a text as it is.
    pub fn write(&mut self, text: &str) {
        let wrote = self.text.push_str(text);
        self.remember(wrote);
    }

    /// Appends a text in quotes.
    fn quote(&mut self, text: &str) {
        let wrote = write!(self.text, " {text:?}");
        self.remember(wrote);
    }

    /// Appends a value as it is printed.
    pub fn print(&mut self, value: &Dynamic<Stone>) {
        let wrote = write!(self.text, "{value:?}");
        self.remember(wrote);
    }

    /// Appends an error as it is printed, and lets go of it.
    pub fn print_error(&mut self, error: EvalAltResult<Stone>) {
        let wrote = write!(self.text, "{error:?}");
        self.remember(wrote);
        drop(error);
    }

    /// Appends a value as it is printed, after the word `constant` where it is read-only.
    pub fn show(&mut self, value: &Dynamic<Stone>) {
        if value.access_mode() == AccessMode::ReadOnly {
            self.write("constant ");
        }
        self.print(value);
    }

    /// Appends a value or an error.
    pub fn tell(&mut self, found: Result<Dynamic<Stone>, EvalAltResult<Stone>>) {
        match found {
            Ok(value) => self.tell_value(value),
            Err(error) => self.tell_error(error),
        }
    }

    fn tell_value(&mut self, value: Dynamic<Stone>) {
        self.show(&value);
        drop(value);
    }

    /// Appends an error, and lets go of it.
    pub fn tell_error(&mut self, error: EvalAltResult<Stone>) {
        self.show_error(&error);
        drop(error);
    }

    /// Appends `error`, its name, what it says, and its position if it has one.
    fn show_error(&mut self, error: &EvalAltResult<Stone>) {
        self.write("error ");
        self.write(error.name());
        self.show_parts(error);
        self.tell_position(error.position());
    }

    /// Appends what an error says.
    fn show_parts(&mut self, error: &EvalAltResult<Stone>) {
        match error {
            EvalAltResult::ErrorOutOfMemory(_) => self.has_memory = false,
            EvalAltResult::ErrorArrayBounds(bounds, _)
            | EvalAltResult::ErrorStringBounds(bounds, _)
            | EvalAltResult::ErrorBitFieldBounds(bounds, _) => self.show_bounds(bounds.get()),
            EvalAltResult::ErrorMismatchDataType(types, _) => self.show_types(types.get()),
            EvalAltResult::ErrorArithmetic(text, _)
            | EvalAltResult::ErrorIndexingType(text, _)
            | EvalAltResult::ErrorPropertyNotFound(text, _) => self.quote(text.get().as_str()),
            _ => {}
        }
    }

    fn show_bounds(&mut self, bounds: &Bounds) {
        let wrote = write!(self.text, " {} {}", bounds.length, bounds.index);
        self.remember(wrote);
    }

    fn show_types(&mut self, types: &TypeMismatch) {
        self.quote(types.found.as_str());
        self.write(" for");
        self.quote(types.wanted.as_str());
    }

    /// Appends the number of a module.
    pub fn number(&mut self, number: u16) {
        let wrote = write!(self.text, "{number}");
        self.remember(wrote);
    }

    /// Appends how many entries the newest cache has, and how many caches there are.
    pub fn kept(&mut self, entries: usize, depth: usize) {
        let wrote = write!(self.text, "{entries} of {depth}");
        self.remember(wrote);
    }

    /// Appends a fault of the checker, and its position.
    pub fn fault(&mut self, fault: CheckFault) {
        let wrote = write!(self.text, "{fault}");
        self.remember(wrote);
        self.tell_position(fault.position());
    }

    /// Appends a position, if there is one.
    fn tell_position(&mut self, position: Position) {
        if let (Some(line), Some(column)) = (position.line(), position.position()) {
            let wrote = write!(self.text, " at {line}:{column}");
            self.remember(wrote);
        }
    }
}
