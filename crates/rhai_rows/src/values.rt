//! Each kind of value as it is printed, and positions.

use crate::maker::Maker;
use crate::sheet::Sheet;
use rhai_eval_base::base::{CellId, Dynamic, FnPtrKind, Items, Position, Union};
use rhai_tables::host::Pair;
use std::alloc::Global;
use std::io;

/// Writes the value or the position of a name.
pub fn write_sample(alloc: Global, name: &str, out: &mut Vec<u8>) -> io::Result<()> {
    let mut sheet = Sheet::new(alloc);
    match name {
        "place" => sheet.position(Position::new(1, 6)),
        "no place" => sheet.position(Position::NONE),
        _ => sheet.named_value(name),
    }
    sheet.hand_to(out)
}

impl Sheet {
    /// Appends the value of a name, or `no value`.
    fn named_value(&mut self, name: &str) {
        match self.maker.named_value(name) {
            Some(value) => self.tell_value(value),
            None => self.write("no value"),
        }
    }

    /// Appends a value, and lets go of it.
    pub fn tell_value(&mut self, value: Dynamic<Pair>) {
        self.value(&value);
        drop(value);
    }
}

impl Maker {
    /// Makes the value of a name.
    fn named_value(&mut self, name: &str) -> Option<Dynamic<Pair>> {
        match plain_value(name) {
            Some(value) => Some(Dynamic::new(value)),
            None => self.value_with_parts(name),
        }
    }

    /// Makes a value with parts.
    fn value_with_parts(&mut self, name: &str) -> Option<Dynamic<Pair>> {
        match name {
            "a text" => Some(self.text("a\"b")),
            "an array" => Some(self.array_of_two()),
            "an empty array" => Some(self.array(Items::new(self.allocator()))),
            "bytes" => Some(self.bytes()),
            "a pointer" => Some(self.pointer("f", Items::new(self.allocator()), FnPtrKind::Name)),
            "a pair" => Some(self.pair()),
            _ => None,
        }
    }

    fn array_of_two(&mut self) -> Dynamic<Pair> {
        let mut items = Items::new(self.allocator());
        self.push(&mut items, Dynamic::new(Union::Int(1)));
        let text = self.text("x");
        self.push(&mut items, text);
        self.array(items)
    }

    fn bytes(&mut self) -> Dynamic<Pair> {
        let mut bytes = Items::new(self.allocator());
        self.push(&mut bytes, 1);
        self.push(&mut bytes, 255);
        match self.boxed(bytes) {
            Some(bytes) => Dynamic::new(Union::Blob(bytes)),
            None => Dynamic::new(Union::Unit),
        }
    }

    fn pair(&mut self) -> Dynamic<Pair> {
        match self.boxed(Pair(1, 2)) {
            Some(pair) => Dynamic::new(Union::Host(pair)),
            None => Dynamic::new(Union::Unit),
        }
    }
}

/// Makes a value without parts.
fn plain_value(name: &str) -> Option<Union<Pair>> {
    match name {
        "unit" => Some(Union::Unit),
        "true" => Some(Union::Bool(true)),
        "false" => Some(Union::Bool(false)),
        "the least integer" => Some(Union::Int(i64::MIN)),
        "a quote" => Some(Union::Char('\'')),
        "a range" => Some(Union::ExclusiveRange(-1, 3)),
        "an inclusive range" => Some(Union::InclusiveRange(1, 3)),
        "a cell" => Some(Union::Cell(CellId { number: 7 })),
        _ => None,
    }
}
