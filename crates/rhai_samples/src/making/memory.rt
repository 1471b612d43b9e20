//! The memory of a tree that is being made.

use rhai_tree::{Boxed, Items, Shared, Text};
use std::alloc::{AllocError, Global};

/// Grants memory, and remembers that it ran out. So code that makes parts has no ways out between its steps.
#[derive(Drop)]
pub(super) struct Memory {
    alloc: Global,
    has_run_out: bool,
}

impl Memory {
    /// Begins with memory that has not run out.
    pub(super) fn new(alloc: Global) -> Memory {
        Memory {
            alloc,
            has_run_out: false,
        }
    }

    /// Returns the allocator.
    pub(super) fn allocator(&self) -> Global {
        self.alloc
    }

    /// Tells whether memory ran out for anything.
    pub(super) fn has_run_out(&self) -> bool {
        self.has_run_out
    }

    /// Remembers that memory ran out, where it did.
    pub(super) fn remember(&mut self, made: Result<(), AllocError>) {
        if made.is_err() {
            self.has_run_out = true;
        }
    }

    /// Makes a list without items.
    pub(super) fn no_items<T: Drop>(&self) -> Items<T> {
        Items::new(self.alloc)
    }

    /// Appends an item to a list.
    pub(super) fn push<T: Drop>(&mut self, items: &mut Items<T>, item: T) {
        self.remember(items.push(item));
    }

    /// Puts an item in front of a list.
    pub(super) fn put_first<T: Drop>(&mut self, items: &mut Items<T>, item: T) {
        self.remember(items.insert(0, item));
    }

    /// Takes the last so many items, or all where there are fewer.
    pub(super) fn take_last<T: Drop>(&mut self, items: &mut Items<T>, count: usize) -> Items<T> {
        let mut taken = self.no_items();
        for _ in 0..count {
            let Some(item) = items.pop() else {
                break;
            };
            self.put_first(&mut taken, item);
        }
        taken
    }

    /// Copies items into a list.
    pub(super) fn copied<T: Copy + Drop>(&mut self, items: &[T]) -> Items<T> {
        match Items::from_slice(self.alloc, items) {
            Ok(copied) => copied,
            Err(AllocError) => {
                self.has_run_out = true;
                self.no_items()
            }
        }
    }

    /// Puts a value behind a pointer of its own, None where there was no memory for it.
    pub(super) fn boxed<T: Drop>(&mut self, value: T) -> Option<Boxed<T>> {
        let made = Boxed::new(self.alloc, value).ok();
        if made.is_none() {
            self.has_run_out = true;
        }
        made
    }

    /// Copies a text into a shared one, None where there was no memory for it.
    pub(super) fn shared(&mut self, text: &str) -> Option<Shared<Text>> {
        let made = shared(self.alloc, text).ok();
        if made.is_none() {
            self.has_run_out = true;
        }
        made
    }

    /// Copies names into shared ones.
    pub(super) fn shared_names(&mut self, names: &[&str]) -> Items<Shared<Text>> {
        let mut made = self.no_items();
        for name in names {
            if let Some(name) = self.shared(name) {
                self.push(&mut made, name);
            }
        }
        made
    }
}

/// Copies a text into a shared one.
fn shared(alloc: Global, text: &str) -> Result<Shared<Text>, AllocError> {
    Shared::new(alloc, Text::from_str(alloc, text)?)
}
