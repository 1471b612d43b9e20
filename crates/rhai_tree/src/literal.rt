//! Constants of the tree, and when two of them are one value.

ghost use Rattle.std.specs.Prelude.{◌≡◌, map};
ghost use Rattle.std.specs.Str.{bytes_eq};
ghost use Rattle.rhai_tree.specs.SameLiteral.{each, same_literal};

use crate::{Items, Shared, Table, Text};

/// The number of a native in the caller's table.
#[derive(Clone, Copy, Debug, PartialEq, Eq)]
pub struct NativeId {
    pub number: u64,
}

/// A constant of the tree: a value without access modes, and without host values, cells, checked
/// functions or environments.
#[cycle(literal)]
pub enum Literal {
    Unit,
    Bool(bool),
    Int(i64),
    Char(char),
    Str(Shared<Text>),
    ExclusiveRange(i64, i64),
    InclusiveRange(i64, i64),
    Array(Items<Literal>),
    Blob(Items<u8>),
    Map(Table<Literal>),
    FnPtr(LiteralFnPtr),
}

// Written by hand, so that whoever lets a constant go calls this, and need not go through its
// variants there.
impl Drop for Literal {
    #[cycle(literal)]
    fn drop(self) {
        match self {
            Literal::Str(text) => drop(text),
            Literal::Array(items) => drop(items),
            Literal::Blob(bytes) => drop(bytes),
            Literal::Map(entries) => drop(entries),
            Literal::FnPtr(pointer) => drop(pointer),
            Literal::Unit
            | Literal::Bool(_)
            | Literal::Int(_)
            | Literal::Char(_)
            | Literal::ExclusiveRange(_, _)
            | Literal::InclusiveRange(_, _) => {}
        }
    }
}

/// A constant pointer to a function.
#[cycle(literal)]
pub struct LiteralFnPtr {
    pub name: Shared<Text>,
    pub curry: Items<Literal>,
    pub kind: LiteralFnPtrKind,
}

// Written by hand for the same reason.
impl Drop for LiteralFnPtr {
    #[cycle(literal)]
    fn drop(self) {
        let LiteralFnPtr {
            name: _,
            curry: _,
            kind: _,
        } = self;
    }
}

/// What a constant pointer leads to.
#[derive(Clone, Copy, Debug, PartialEq, Eq)]
pub enum LiteralFnPtrKind {
    /// Whatever the name finds at the call.
    Name,
    /// The library function of the name with so many parameters.
    Arity(usize),
    /// A native of the caller's table.
    Native(NativeId),
}

/// Tells whether two constants are one value, by type and content. A pointer equals no constant.
#[cycle(same)]
pub fn same_literal(this: &Literal, that: &Literal) -> bool
    ensures { result ≡ same_literal this.now that.now }
{
    match (this, that) {
        (Literal::Unit, Literal::Unit) => true,
        (Literal::Bool(x), Literal::Bool(y)) => x == y,
        (Literal::Int(x), Literal::Int(y)) => x == y,
        (Literal::Char(x), Literal::Char(y)) => x == y,
        (Literal::Str(x), Literal::Str(y)) => same_text(x, y),
        (Literal::ExclusiveRange(a, b), Literal::ExclusiveRange(c, d)) => a == c && b == d,
        (Literal::InclusiveRange(a, b), Literal::InclusiveRange(c, d)) => a == c && b == d,
        (Literal::Array(xs), Literal::Array(ys)) => all_same(xs.as_slice(), ys.as_slice()),
        (Literal::Blob(xs), Literal::Blob(ys)) => xs.as_slice() == ys.as_slice(),
        (Literal::Map(xs), Literal::Map(ys)) => {
            same_texts(xs.keys(), ys.keys()) && all_same(xs.values(), ys.values())
        }
        _ => false,
    }
}

#[cycle(same)]
fn all_same(these: &[Literal], those: &[Literal]) -> bool
    ensures { result ≡ each (map same_literal these.now) those.now }
{
    if these.len() != those.len() {
        return false;
    }
    for i in 0..these.len() {
        if !same_literal(&these[i], &those[i]) {
            return false;
        }
    }
    true
}

/// Tells whether two lists of texts are the same.
fn same_texts(these: &[Shared<Text>], those: &[Shared<Text>]) -> bool
    ensures { result ≡ each (map bytes_eq these.now) those.now }
{
    if these.len() != those.len() {
        return false;
    }
    for i in 0..these.len() {
        if !same_text(&these[i], &those[i]) {
            return false;
        }
    }
    true
}

/// Tells whether two texts are the same.
fn same_text(this: &Shared<Text>, that: &Shared<Text>) -> bool
    ensures { result ≡ bytes_eq this.now that.now }
{
    this.get().as_str() == that.get().as_str()
}
