//! Functions, and the containers that they are made of, as a reader of a log sees them. No clause says what is
//! printed.

use crate::function::{ScriptFuncDef, ScriptFuncPayload};
use crate::{Boxed, Items, Shared, Text};
use std::fmt;
use std::fmt::{Debug, Formatter, Write};

/// As the list of its items.
impl<T: Debug> Debug for Items<T> {
    fn fmt<W: Write>(&self, f: &mut Formatter<W>) -> fmt::Result {
        Debug::fmt(self.as_slice(), f)
    }
}

/// As what it is in quotes.
impl Debug for Text {
    fn fmt<W: Write>(&self, f: &mut Formatter<W>) -> fmt::Result {
        Debug::fmt(self.as_str(), f)
    }
}

/// As its value.
impl<T: Debug> Debug for Boxed<T> {
    fn fmt<W: Write>(&self, f: &mut Formatter<W>) -> fmt::Result {
        Debug::fmt(self.get(), f)
    }
}

/// As its value.
impl<T: Debug> Debug for Shared<T> {
    fn fmt<W: Write>(&self, f: &mut Formatter<W>) -> fmt::Result {
        Debug::fmt(self.get(), f)
    }
}

/// With the number of its statements in their place.
impl Debug for ScriptFuncPayload {
    fn fmt<W: Write>(&self, f: &mut Formatter<W>) -> fmt::Result {
        match self {
            ScriptFuncPayload::Statements(block) => f
                .debug_tuple("Statements")
                .field(&block.statements.len())
                .finish(),
        }
    }
}

/// Field by field, its body as `ScriptFuncPayload` is shown.
impl Debug for ScriptFuncDef {
    fn fmt<W: Write>(&self, f: &mut Formatter<W>) -> fmt::Result {
        f.debug_struct("ScriptFuncDef")
            .field("body", &self.body)
            .field("name", &self.name)
            .field("access", &self.access)
            .field("this_type", &self.this_type)
            .field("params", &self.params)
            .finish()
    }
}
