//! What makes values, and remembers that memory ran out for one.

ghost use Rattle.rhai_values.specs.Cells.{IsNoHandle};

use rhai_errors::errors::shared_text;
use rhai_eval_base::base::{
    AccessMode, Boxed, Dynamic, FnPtr, FnPtrKind, Items, Scope, Shared, Table, Text, Union,
};
use rhai_tables::host::Pair;
use std::alloc::{AllocError, Global};

/// Makes values. It remembers that memory ran out, which `finish` answers, and goes on with `()`.
#[derive(Clone, Copy)]
pub struct Maker {
    alloc: Global,
    has_memory: bool,
}

impl Maker {
    /// Begins with nothing made.
    pub fn new(alloc: Global) -> Maker {
        Maker {
            alloc,
            has_memory: true,
        }
    }

    /// Returns the allocator with which values are made.
    pub fn allocator(&self) -> Global {
        self.alloc
    }

    /// Hands over what was made, or says that memory ran out for a part of it.
    pub fn finish<T: Drop>(self, made: T) -> Result<T, AllocError> {
        if self.has_memory {
            Ok(made)
        } else {
            drop(made);
            Err(AllocError)
        }
    }

    /// Remembers that memory ran out.
    pub fn lack_memory(&mut self) {
        self.has_memory = false;
    }

    /// Remembers if memory ran out.
    pub fn remember(&mut self, done: Result<(), AllocError>) {
        if done.is_err() {
            self.has_memory = false;
        }
    }

    /// Returns what was made, None where memory ran out for it.
    pub fn kept<T: Drop>(&mut self, made: Result<T, AllocError>) -> Option<T> {
        if made.is_err() {
            self.has_memory = false;
        }
        made.ok()
    }

    /// Puts a value behind a shared pointer, None where memory ran out.
    pub fn shared<T: Drop>(&mut self, value: T) -> Option<Shared<T>> {
        self.kept(Shared::new(self.alloc, value))
    }

    /// Puts a value behind a pointer of its own, None where memory ran out.
    pub fn boxed<T: Drop>(&mut self, value: T) -> Option<Boxed<T>> {
        self.kept(Boxed::new(self.alloc, value))
    }

    /// Copies a text into a shared one, None where memory ran out.
    pub fn name(&mut self, text: &str) -> Option<Shared<Text>> {
        self.kept(shared_text(self.alloc, text))
    }

    /// Appends an item to a list.
    pub fn push<T: Drop>(&mut self, items: &mut Items<T>, item: T) {
        let pushed = items.push(item);
        self.remember(pushed);
    }

    /// Puts a value under a name into a table.
    pub fn insert<T: Drop>(&mut self, table: &mut Table<T>, name: &str, value: T) {
        match self.name(name) {
            Some(name) => {
                let inserted = table.insert(name, value);
                self.remember(inserted);
            }
            None => drop(value),
        }
    }

    /// Adds a variable to a scope.
    pub fn declare(&mut self, scope: &mut Scope<Pair>, name: &str, value: Dynamic<Pair>) {
        match self.kept(String::from_str(self.alloc, name)) {
            Some(name) => {
                let pushed = scope.push_entry(name, AccessMode::ReadWrite, value);
                self.remember(pushed);
            }
            None => drop(value),
        }
    }

    /// Makes a text.
    pub fn text(&mut self, text: &str) -> Dynamic<Pair> {
        match self.name(text) {
            Some(text) => Dynamic::new(Union::Str(text)),
            None => Dynamic::new(Union::Unit),
        }
    }

    /// Makes an array.
    pub fn array(&mut self, items: Items<Dynamic<Pair>>) -> Dynamic<Pair> {
        match self.boxed(items) {
            Some(items) => Dynamic::new(Union::Array(items)),
            None => Dynamic::new(Union::Unit),
        }
    }

    /// Makes a map.
    pub fn map(&mut self, entries: Table<Dynamic<Pair>>) -> Dynamic<Pair>
        ensures { IsNoHandle result.value }
    {
        match self.boxed(entries) {
            Some(entries) => Dynamic::new(Union::Map(entries)),
            None => Dynamic::new(Union::Unit),
        }
    }

    /// Makes a pointer to the function of a name, with arguments that it has already.
    pub fn pointer(
        &mut self,
        name: &str,
        curry: Items<Dynamic<Pair>>,
        kind: FnPtrKind<Pair>,
    ) -> Dynamic<Pair>
        ensures { IsNoHandle result.value }
    {
        match self.name(name) {
            Some(name) => self.pointer_to(FnPtr { name, curry, kind }),
            None => {
                drop(curry);
                drop(kind);
                Dynamic::new(Union::Unit)
            }
        }
    }

    fn pointer_to(&mut self, pointer: FnPtr<Pair>) -> Dynamic<Pair>
        ensures { IsNoHandle result.value }
    {
        match self.boxed(pointer) {
            Some(pointer) => Dynamic::new(Union::FnPtr(pointer)),
            None => Dynamic::new(Union::Unit),
        }
    }
}
