//! Maps from texts.

ghost use Rattle.std.specs.Prelude.{◌≡◌, [], take, drop, ◌++◌, length, slice_get, IfOk, IsTrue};
ghost use Rattle.std.specs.Option.{option_copied};
ghost use Rattle.std.specs.Borrow.{Lends, Array, sem};
ghost use Rattle.rhai_tree.specs.Ascending.{is_ascending};
ghost use Rattle.rhai_tree.specs.contracts.table.Table.{the_row};

mod lookup;

use crate::{Items, Shared, Text};
use std::alloc::{AllocError, Global};
use std::marker::Model;

/// A map from texts, in the order of their bytes. Contracts see it as its keys, in order, and
/// their values.
pub struct Table<T> {
    keys: Items<Shared<Text>>,
    values: Items<T>,
}

// Written by hand, so that the crates above call this, and need not go through the fields.
impl<T: Drop> Drop for Table<T> {
    fn drop(self) {
        let Table { keys: _, values: _ } = self;
    }
}

impl<T> Model for Table<T> {
    ghost use Rattle.std.specs.Prelude.{◌≡◌, List, ℕ, IsTrue, length};
    ghost use Rattle.std.specs.Coded.{coded×, coded_list, coded_ℕ};
    ghost use Rattle.rhai_tree.specs.Ascending.{is_ascending};

    ghost Value = { List (List ℕ) × List T };

    ghost coded = { coded× (coded_list (coded_list coded_ℕ)) (coded_list T.code) };

    ghost view = { λ t. (t.keys, t.values) };

    ghost invariant = { λ t. IsTrue (is_ascending t.keys) × (length t.keys ≡ length t.values) };
}

impl<T> Table<T> {
    /// Makes the empty map. It takes no memory.
    pub fn new(alloc: Global) -> Table<T>
        ensures { result ≡ ([], []) }
    {
        Table {
            keys: Items::new(alloc),
            values: Items::new(alloc),
        }
    }

    /// Counts the entries.
    pub fn len(&self) -> usize
        ensures keys { result ≡ length self.now.0 }
        ensures values { result ≡ length self.now.1 }
    {
        self.keys.len()
    }

    /// Lends the keys, in order.
    pub fn keys(&self) -> &[Shared<Text>]
        ensures value { result.now ≡ self.now.0 }
        ensures ascending { IsTrue (is_ascending self.now.0) }
    {
        self.keys.as_slice()
    }

    /// Lends the values, in the order of their keys.
    pub fn values(&self) -> &[T]
        ensures value { result.now ≡ self.now.1 }
        ensures as_many { length result.now ≡ length self.now.0 }
    {
        self.values.as_slice()
    }

    /// Lends the values, in the order of their keys, to be changed in place.
    pub fn values_mut(&mut self) -> &mut [T]
        ensures* writes_back { sem 𝓛 (Lends (the_row T.row) (Array T.row 0) self.entry result
            (λ w. (self.old.0, take (length self.old.1) (w ++ drop (length w) self.old.1)))) }
        ensures value { result.now ≡ self.old.1 }
    {
        self.values.as_mut_slice()
    }

    /// Makes a map of other values under the same keys.
    pub fn with_values<U: Drop>(
        &self,
        alloc: Global,
        values: Items<U>,
    ) -> Result<Table<U>, AllocError>
        requires { length values ≡ length self.now.0 }
        ensures { IfOk result (λ t. t ≡ (self.now.0, values)) }
    {
        let mut keys = Items::new(alloc);
        for key in self.keys.as_slice() {
            keys.push(key.share()?)?;
        }
        Ok(Table { keys, values })
    }

    /// Finds the value at an index in the order of the keys, if there is one.
    pub fn value_at(&self, at: usize) -> Option<&T>
        ensures { option_copied result ≡ slice_get self.now.1 at }
    {
        self.values.get(at)
    }
}
