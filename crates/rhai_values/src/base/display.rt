//! Values as a script prints them. No clause says what is printed.

use crate::base::value::{Dynamic, FnPtr, Host, Union};
use std::fmt;
use std::fmt::{Debug, Display, Formatter, Write};

/// A text and a character as they are, `()` as nothing, a pointer as `Fn` with its name in round brackets,
/// and anything else as `Debug` writes it. In the manner of upstream's `Display` of `Dynamic`.
impl<H: Host> Display for Dynamic<H> {
    fn fmt<W: Write>(&self, f: &mut Formatter<W>) -> fmt::Result {
        match &self.value {
            Union::Unit => Ok(()),
            Union::Char(letter) => write!(f, "{letter}"),
            Union::Str(text) => f.write_str(text.get().as_str()),
            Union::FnPtr(pointer) => write_pointer(pointer.get(), f),
            value => Debug::fmt(value, f),
        }
    }
}

fn write_pointer<H, W: Write>(pointer: &FnPtr<H>, f: &mut Formatter<W>) -> fmt::Result {
    let name = pointer.name.get().as_str();
    write!(f, "Fn({name})")
}
