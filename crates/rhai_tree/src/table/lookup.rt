//! Entries of maps by their keys: a binary search over the keys.

ghost use Rattle.std.specs.Prelude.{◌≡◌, ◌<◌, ok_or, length, slice_get, slice_set, IsTrue, OnOk, OnErr, None};
ghost use Rattle.std.specs.Option.{option_copied};
ghost use Rattle.std.specs.Borrow.{Lends, sem};
ghost use Rattle.rhai_tree.specs.Ascending.{is_ascending};
ghost use Rattle.rhai_tree.specs.Lookup.{paired, place_of, rank, value_of, with_entry};
ghost use Rattle.rhai_tree.specs.contracts.table.Table.{the_row};

use crate::{Shared, Table, Text};
use std::alloc::AllocError;
use std::cmp::Ordering;

impl<T> Table<T> {
    /// Finds the index of a key in the order of the keys, or the index where it would go.
    pub fn find(&self, key: &str) -> Result<usize, usize>
        ensures found { result ≡ ok_or (place_of key.now self.now.0) (rank key.now self.now.0) }
        ensures paired { paired self.now ≡ self.now }
    {
        let _as_many = self.len();
        search(self.keys(), key)
    }

    /// Finds the value of a key, if it is there.
    pub fn get(&self, key: &str) -> Option<&T>
        ensures { option_copied result ≡ value_of key.now self.now }
    {
        match self.find(key) {
            Ok(at) => self.value_at(at),
            Err(_) => None,
        }
    }

    /// Lends the value at an index in the order of the keys, to be changed in place.
    pub fn value_mut(&mut self, at: usize) -> &mut T
        requires { at < length self.old.1 }
        ensures* writes_back { sem 𝓛 (Lends (the_row T.row) T.row self.entry result
            (λ w. (self.old.0, slice_set self.old.1 at w))) }
        ensures value { slice_get self.old.1 at ≡ Some result.now }
    {
        self.values.at_mut(at)
    }
}

impl<T: Drop> Table<T> {
    /// Gives a key a value, which replaces the one that it had. Where there is no memory the map
    /// stays.
    pub fn insert(&mut self, key: Shared<Text>, value: T) -> Result<(), AllocError>
        ensures ok { OnOk result (self.new ≡ with_entry key value self.old) }
        ensures err { OnErr result (self.new ≡ self.old) }
    {
        match self.find(key.get().as_str()) {
            Ok(at) => {
                self.values.set(at, value);
                Ok(())
            }
            Err(at) => self.add(at, key, value),
        }
    }

    /// Adds a key that is not there, at the index where it goes.
    fn add(&mut self, at: usize, key: Shared<Text>, value: T) -> Result<(), AllocError>
        requires absent { place_of key self.old.0 ≡ None }
        requires place { at ≡ rank key self.old.0 }
        ensures ok { OnOk result (self.new ≡ with_entry key value self.old) }
        ensures err { OnErr result (self.new ≡ self.old) }
    {
        self.keys.insert(at, key)?;
        match self.values.insert(at, value) {
            Ok(()) => Ok(()),
            Err(error) => {
                self.keys.remove(at);
                Err(error)
            }
        }
    }
}

/// Finds the index of a key among ascending keys, or the index where it would go.
fn search(keys: &[Shared<Text>], key: &str) -> Result<usize, usize>
    requires { IsTrue (is_ascending keys.now) }
    ensures { result ≡ ok_or (place_of key.now keys.now) (rank key.now keys.now) }
{
    let mut low = 0;
    let mut high = keys.len();
    while low < high {
        let middle = low + (high - low) / 2;
        match keys[middle].get().as_str().cmp(key) {
            Ordering::Less => low = middle + 1,
            Ordering::Equal => return Ok(middle),
            Ordering::Greater => high = middle,
        }
    }
    Err(low)
}
