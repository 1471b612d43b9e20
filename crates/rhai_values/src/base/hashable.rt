//! Which values a `switch` looks up among its cases, and when a case is a value.

ghost use Rattle.std.specs.Prelude.{◌≡◌, map};
ghost use Rattle.std.specs.Str.{bytes_eq};
ghost use Rattle.rhai_values.specs.Hashable.{all_of, is_hashable};
ghost use Rattle.rhai_values.specs.LiteralEquals.{equals, each};

use crate::base::value::{Dynamic, Union};
use rhai_tree::literal::Literal;
use rhai_tree::{Shared, Text};

impl<H> Dynamic<H> {
    /// Tells whether the value can be a case of a `switch`. Such are `()`, truth values, integers,
    /// characters, texts, ranges, blobs, and arrays and maps of such values. Ports upstream's
    /// `is_hashable`.
    pub fn is_hashable(&self) -> bool
        ensures { result ≡ is_hashable self.now }
    {
        value_is_hashable(self)
    }
}

#[cycle(hashable)]
fn value_is_hashable<H>(value: &Dynamic<H>) -> bool
    ensures { result ≡ is_hashable value.now }
{
    match &value.value {
        Union::Array(items) => all_are_hashable(items.get().as_slice()),
        Union::Map(entries) => all_are_hashable(entries.get().values()),
        Union::FnPtr(_) | Union::Host(_) | Union::Cell(_) => false,
        _ => true,
    }
}

#[cycle(hashable)]
fn all_are_hashable<H>(values: &[Dynamic<H>]) -> bool
    ensures { result ≡ all_of (map is_hashable values.now) }
{
    for value in values {
        if !value_is_hashable(value) {
            return false;
        }
    }
    true
}

/// Tells whether a constant of the tree is a value, by type and content; access modes do not matter. A
/// pointer is equal to nothing.
#[cycle(equals)]
pub fn literal_equals<H>(literal: &Literal, value: &Dynamic<H>) -> bool
    ensures { result ≡ equals literal.now value.now }
{
    match (literal, &value.value) {
        (Literal::Unit, Union::Unit) => true,
        (Literal::Bool(x), Union::Bool(y)) => x == y,
        (Literal::Int(x), Union::Int(y)) => x == y,
        (Literal::Char(x), Union::Char(y)) => x == y,
        (Literal::Str(x), Union::Str(y)) => same_text(x, y),
        (Literal::ExclusiveRange(a, b), Union::ExclusiveRange(c, d)) => a == c && b == d,
        (Literal::InclusiveRange(a, b), Union::InclusiveRange(c, d)) => a == c && b == d,
        (Literal::Array(xs), Union::Array(ys)) => all_equal(xs.as_slice(), ys.get().as_slice()),
        (Literal::Blob(xs), Union::Blob(ys)) => xs.as_slice() == ys.get().as_slice(),
        (Literal::Map(xs), Union::Map(ys)) => {
            same_texts(xs.keys(), ys.get().keys()) && all_equal(xs.values(), ys.get().values())
        }
        _ => false,
    }
}

#[cycle(equals)]
fn all_equal<H>(literals: &[Literal], values: &[Dynamic<H>]) -> bool
    ensures { result ≡ each (map equals literals.now) values.now }
{
    if literals.len() != values.len() {
        return false;
    }
    for i in 0..literals.len() {
        if !literal_equals(&literals[i], &values[i]) {
            return false;
        }
    }
    true
}

fn same_texts(these: &[Shared<Text>], those: &[Shared<Text>]) -> bool
    ensures { result ≡ each (map bytes_eq these.now) those.now }
{
    if these.len() != those.len() {
        return false;
    }
    for i in 0..these.len() {
        if !same_text(&these[i], &those[i]) {
            return false;
        }
    }
    true
}

fn same_text(this: &Shared<Text>, that: &Shared<Text>) -> bool
    ensures { result ≡ bytes_eq this.now that.now }
{
    this.get().as_str() == that.get().as_str()
}
