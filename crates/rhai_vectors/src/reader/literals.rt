//! Values as scripts write them, and beside them `blob[01 ff]`, `Fn("name")`, `cell 0` for a handle
//! of a cell, and `stone` for the host's value.

use crate::host::Stone;
use crate::reader::Reader;
use rhai_errors::errors::shared_text;
use rhai_tree::{Items, Shared, Table, Text};
use rhai_values::base::value::{AccessMode, CellId, Dynamic, FnPtr, FnPtrKind, Union};
use std::alloc::{AllocError, Global};

/// How deep arrays and maps may stand in one another.
const DEPTH: usize = 4;

impl<'a> Reader<'a> {
    /// Reads the next value, and the space after it. After `constant` it is read-only.
    pub fn value(&mut self) -> Dynamic<Stone> {
        let constant = self.passes("constant ");
        let mut value = self.nested(DEPTH);
        if constant {
            value.set_access_mode(AccessMode::ReadOnly);
        }
        self.passes(" ");
        value
    }

    /// Reads a value in which arrays and maps are at most so deep.
    #[cycle(nested)]
    fn nested(&mut self, depth: usize) -> Dynamic<Stone> {
        Dynamic::new(self.content(depth))
    }

    /// Reads the content of such a value.
    #[cycle(nested)]
    fn content(&mut self, depth: usize) -> Union<Stone> {
        let Some(inner) = depth.checked_sub(1) else {
            self.want("a value that is less deep");
            return Union::Unit;
        };
        match self.rest.chars().next() {
            Some('[') => self.array(inner),
            Some('#') => self.map(inner),
            Some('"') => self.quoted(),
            Some('\'') => Union::Char(self.character()),
            Some('-' | '0'..='9') => self.integer_or_range(),
            _ => self.named(),
        }
    }

    #[cycle(nested)]
    fn array(&mut self, depth: usize) -> Union<Stone> {
        let mut items = Items::new(self.alloc);
        self.expect("[");
        for _ in 0..self.rest.len() {
            if self.rest.starts_with(']') {
                break;
            }
            let item = self.nested(depth);
            self.push(&mut items, item);
            self.passes(", ");
        }
        self.expect("]");
        self.array_of(items)
    }

    fn array_of(&mut self, items: Items<Dynamic<Stone>>) -> Union<Stone> {
        match self.boxed(items) {
            Some(items) => Union::Array(items),
            None => Union::Unit,
        }
    }

    #[cycle(nested)]
    fn map(&mut self, depth: usize) -> Union<Stone> {
        let mut entries = Table::new(self.alloc);
        self.expect("#{");
        for _ in 0..self.rest.len() {
            if self.rest.starts_with('}') {
                break;
            }
            let key = self.up_to(": ");
            let value = self.nested(depth);
            self.enter(&mut entries, key, value);
            self.passes(", ");
        }
        self.expect("}");
        self.map_of(entries)
    }

    /// Puts a value under a key.
    fn enter(&mut self, entries: &mut Table<Dynamic<Stone>>, key: &str, value: Dynamic<Stone>) {
        if insert_copied(self.alloc, entries, key, value).is_err() {
            self.lack_memory();
        }
    }

    fn map_of(&mut self, entries: Table<Dynamic<Stone>>) -> Union<Stone> {
        match self.boxed(entries) {
            Some(entries) => Union::Map(entries),
            None => Union::Unit,
        }
    }

    /// Reads a text in quotes, without escapes.
    fn text(&mut self) -> &'a str {
        self.expect("\"");
        self.up_to("\"")
    }

    fn quoted(&mut self) -> Union<Stone> {
        let text = self.text();
        match self.shared(text) {
            Some(text) => Union::Str(text),
            None => Union::Unit,
        }
    }

    /// Reads a character in quotes. The one escape is the end of a line.
    fn character(&mut self) -> char {
        self.expect("'");
        let written = self.up_to("'");
        if written == "\\n" {
            return '\n';
        }
        self.or_want(written.parse().ok(), "a character in quotes", ' ')
    }

    fn integer(&mut self) -> i64 {
        let end = self.rest.find(|c: char| c != '-' && !c.is_ascii_digit());
        let end = end.unwrap_or(self.rest.len());
        let (digits, rest) = self.rest.split_at_checked(end).unwrap_or(("", ""));
        self.rest = rest;
        self.or_want(digits.parse().ok(), "an integer", 0)
    }

    fn integer_or_range(&mut self) -> Union<Stone> {
        let start = self.integer();
        if self.passes("..=") {
            Union::InclusiveRange(start, self.integer())
        } else if self.passes("..") {
            Union::ExclusiveRange(start, self.integer())
        } else {
            Union::Int(start)
        }
    }

    /// Reads a value that begins with a word of its own.
    fn named(&mut self) -> Union<Stone> {
        if self.passes("()") {
            Union::Unit
        } else if self.passes("true") {
            Union::Bool(true)
        } else if self.passes("false") {
            Union::Bool(false)
        } else if self.passes("stone") {
            self.stone()
        } else if self.passes("cell ") {
            let number = self.cell_number();
            Union::Cell(CellId { number })
        } else if self.passes("blob[") {
            self.blob()
        } else if self.passes("Fn(") {
            self.pointer()
        } else {
            self.want("a value");
            Union::Unit
        }
    }

    fn cell_number(&mut self) -> usize {
        let read = usize::try_from(self.integer()).ok();
        self.or_want(read, "the number of a cell", 0)
    }

    fn stone(&mut self) -> Union<Stone> {
        match self.boxed(Stone { weight: 7 }) {
            Some(stone) => Union::Host(stone),
            None => Union::Unit,
        }
    }

    /// Reads the bytes of a blob, as `01 ff]`.
    fn blob(&mut self) -> Union<Stone> {
        let mut bytes = Items::new(self.alloc);
        for digits in self.up_to("]").split_whitespace() {
            let byte = u8::from_str_radix(digits, 16).ok();
            let byte = self.or_want(byte, "a byte, as ff,", 0);
            self.push(&mut bytes, byte);
        }
        match self.boxed(bytes) {
            Some(bytes) => Union::Blob(bytes),
            None => Union::Unit,
        }
    }

    /// Reads a pointer by the name of its function, as `"name")`.
    fn pointer(&mut self) -> Union<Stone> {
        let name = self.text();
        self.expect(")");
        match self.shared(name) {
            Some(name) => self.pointer_to(name),
            None => Union::Unit,
        }
    }

    fn pointer_to(&mut self, name: Shared<Text>) -> Union<Stone> {
        let pointer = FnPtr {
            name,
            curry: Items::new(self.alloc),
            kind: FnPtrKind::Name,
        };
        match self.boxed(pointer) {
            Some(pointer) => Union::FnPtr(pointer),
            None => Union::Unit,
        }
    }
}

/// Puts a value under a key.
fn insert_copied(
    alloc: Global,
    entries: &mut Table<Dynamic<Stone>>,
    key: &str,
    value: Dynamic<Stone>,
) -> Result<(), AllocError> {
    match shared_text(alloc, key) {
        Ok(key) => entries.insert(key, value),
        Err(error) => {
            drop(value);
            Err(error)
        }
    }
}
