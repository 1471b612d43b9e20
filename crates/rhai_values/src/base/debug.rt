//! Values, pointers and environments as a reader of a log sees them. No clause says what is printed.

use crate::base::value::{Dynamic, EncapsulatedEnviron, FnPtr, Host, Union};
use rhai_tree::Table;
use std::fmt;
use std::fmt::{Debug, Formatter, Write};

/// As a script writes the value; a blob by its bytes in hexadecimal digits, eight a group, a value
/// of the host by its type's name, and a handle as `<shared>`. Access modes are not shown. Ports
/// upstream's `Debug` of `Dynamic`.
impl<H: Host> Debug for Dynamic<H> {
    fn fmt<W: Write>(&self, f: &mut Formatter<W>) -> fmt::Result {
        show(&self.value, f)
    }
}

impl<H: Host> Debug for Union<H> {
    fn fmt<W: Write>(&self, f: &mut Formatter<W>) -> fmt::Result {
        show(self, f)
    }
}

/// The name and the arguments that it has already. Ports upstream's `Debug` of `FnPtr`.
impl<H: Host> Debug for FnPtr<H> {
    fn fmt<W: Write>(&self, f: &mut Formatter<W>) -> fmt::Result {
        show_pointer(self, f)
    }
}

/// With the numbers of its libraries and imports in their place.
impl<H: Host> Debug for EncapsulatedEnviron<H> {
    fn fmt<W: Write>(&self, f: &mut Formatter<W>) -> fmt::Result {
        f.debug_struct("EncapsulatedEnviron")
            .field("lib", &self.lib.len())
            .field("imports", &self.imports.len())
            .field("constants", &self.constants)
            .finish()
    }
}

#[cycle(show)]
fn show<H: Host, W: Write>(value: &Union<H>, f: &mut Formatter<W>) -> fmt::Result {
    match value {
        Union::Unit => f.write_str("()"),
        Union::Bool(truth) => write!(f, "{truth}"),
        Union::Int(number) => write!(f, "{number}"),
        Union::Char(letter) => write!(f, "{letter:?}"),
        Union::Str(text) => Debug::fmt(text.get().as_str(), f),
        Union::ExclusiveRange(start, end) => write!(f, "{start}..{end}"),
        Union::InclusiveRange(start, end) => write!(f, "{start}..={end}"),
        Union::Array(items) => {
            f.write_str("[")?;
            show_values(items.get().as_slice(), "", f)?;
            f.write_str("]")
        }
        Union::Blob(bytes) => show_bytes(bytes.get().as_slice(), f),
        Union::Map(entries) => show_map(entries.get(), f),
        Union::FnPtr(pointer) => show_pointer(pointer.get(), f),
        Union::Host(host) => f.write_str(host.get().type_name()),
        Union::Cell(_) => f.write_str("<shared>"),
    }
}

/// Writes the values with commas between them, and something before the first.
#[cycle(show)]
fn show_values<H: Host, W: Write>(
    values: &[Dynamic<H>],
    first: &str,
    f: &mut Formatter<W>,
) -> fmt::Result {
    let mut before = first;
    for value in values {
        f.write_str(before)?;
        show(&value.value, f)?;
        before = ", ";
    }
    Ok(())
}

#[cycle(show)]
fn show_map<H: Host, W: Write>(entries: &Table<Dynamic<H>>, f: &mut Formatter<W>) -> fmt::Result {
    let keys = entries.keys();
    let values = entries.values();
    let mut before = "#{";
    for at in 0..values.len() {
        f.write_str(before)?;
        Debug::fmt(keys[at].get().as_str(), f)?;
        f.write_str(": ")?;
        show(&values[at].value, f)?;
        before = ", ";
    }
    f.write_str(if values.is_empty() { "#{}" } else { "}" })
}

#[cycle(show)]
fn show_pointer<H: Host, W: Write>(pointer: &FnPtr<H>, f: &mut Formatter<W>) -> fmt::Result {
    f.write_str("Fn(")?;
    Debug::fmt(pointer.name.get().as_str(), f)?;
    show_values(pointer.curry.as_slice(), ", ", f)?;
    f.write_str(")")
}

fn show_bytes<W: Write>(bytes: &[u8], f: &mut Formatter<W>) -> fmt::Result {
    f.write_str("[")?;
    for (at, byte) in bytes.iter().enumerate() {
        if at > 0 && at % 8 == 0 {
            f.write_str(" ")?;
        }
        write!(f, "{byte:02x}")?;
    }
    f.write_str("]")
}
