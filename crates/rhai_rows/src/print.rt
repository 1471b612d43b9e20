//! The lines of endings, and values as they are printed.

use crate::outcome::Ending;
use crate::sheet::Sheet;
use rhai_eval_base::base::{Dynamic, Position, Table, Union};
use rhai_tables::host::Pair;
use std::alloc::Global;
use std::io;
use std::io::Write;

/// Writes the line of an ending.
pub fn write_line<W: Write>(alloc: Global, ending: &Ending, out: &mut W) -> io::Result<()> {
    let mut sheet = Sheet::new(alloc);
    sheet.end(ending);
    sheet.write("\n");
    let line = sheet.finish()?;
    out.write_all(line.as_bytes())
}

/// Writes an ending to bytes.
pub fn write_ending(alloc: Global, ending: &Ending, out: &mut Vec<u8>) -> io::Result<()> {
    let mut sheet = Sheet::new(alloc);
    sheet.end(ending);
    sheet.hand_to(out)
}

impl Sheet {
    /// Appends an ending: `ok` and the value, or `error` or `check` and the name of the variant with its position.
    pub fn end(&mut self, ending: &Ending) {
        match ending {
            Ending::Value(value) => {
                self.write("ok ");
                self.value(value);
            }
            Ending::Error(error) => {
                self.write("error ");
                self.write(error.name());
                self.write(" ");
                self.position(error.position());
            }
            Ending::Refused(fault) => {
                self.write("check ");
                self.show(fault);
                self.write(" ");
                self.position(fault.position());
            }
        }
    }

    /// Appends the line and the column of a position, or `-` where it is none.
    pub fn position(&mut self, place: Position) {
        match (place.line(), place.position()) {
            (Some(line), Some(column)) => {
                self.show(&line);
                self.write(":");
                self.show(&column);
            }
            _ => self.write("-"),
        }
    }

    /// Appends a value. Texts and characters stand in quotes, without escapes; of a pointer its name is
    /// written, of a shared cell its number.
    #[cycle(shown)]
    pub fn value(&mut self, value: &Dynamic<Pair>) {
        match &value.value {
            Union::Unit => self.write("()"),
            Union::Bool(truth) => self.show(truth),
            Union::Int(number) => self.show(number),
            Union::Char(character) => self.quote(*character),
            Union::Str(text) => self.quote_text(text.get().as_str()),
            Union::ExclusiveRange(start, end) => self.range(*start, "..", *end),
            Union::InclusiveRange(start, end) => self.range(*start, "..=", *end),
            Union::Array(items) => self.items(items.get().as_slice()),
            Union::Blob(bytes) => self.bytes(bytes.get().as_slice()),
            Union::Map(entries) => self.entries(entries.get()),
            Union::FnPtr(pointer) => self.pointer(pointer.get().name.get().as_str()),
            Union::Host(pair) => self.debug(pair.get()),
            Union::Cell(id) => self.cell(id.number),
        }
    }

    #[cycle(shown)]
    fn items(&mut self, items: &[Dynamic<Pair>]) {
        self.write("[");
        for (at, item) in items.iter().enumerate() {
            self.separate(at, ", ");
            self.value(item);
        }
        self.write("]");
    }

    #[cycle(shown)]
    fn entries(&mut self, entries: &Table<Dynamic<Pair>>) {
        self.write("#{");
        for (at, (key, value)) in entries.keys().iter().zip(entries.values()).enumerate() {
            self.separate(at, ", ");
            self.write(key.get().as_str());
            self.write(": ");
            self.value(value);
        }
        self.write("}");
    }

    fn quote(&mut self, character: char) {
        self.write("'");
        self.show(&character);
        self.write("'");
    }

    pub(crate) fn quote_text(&mut self, text: &str) {
        self.write("\"");
        self.write(text);
        self.write("\"");
    }

    fn range(&mut self, start: i64, dots: &str, end: i64) {
        self.show(&start);
        self.write(dots);
        self.show(&end);
    }

    fn bytes(&mut self, bytes: &[u8]) {
        let mut separator = "";
        self.write("blob[");
        for byte in bytes {
            self.write(separator);
            self.hexadecimal(*byte);
            separator = " ";
        }
        self.write("]");
    }

    fn pointer(&mut self, name: &str) {
        self.write("Fn(");
        self.write(name);
        self.write(")");
    }

    fn cell(&mut self, number: usize) {
        self.write("cell ");
        self.show(&number);
    }
}
