//! Lists of a few items, such as the arguments of a call: up to four take no memory.
#![tactic(auto)]

ghost use Rattle.std.specs.Prelude.{◌≡◌, ◌≤◌, ◌<◌, ◌↔◌, [], ◌∷◌, ◌++◌, IsTrue, IfErr, IfOk, OnOk, OnErr, Some, length};
ghost use Rattle.std.specs.Prelude.{drop, insert, remove, slice_get, take};
ghost use Rattle.std.specs.Borrow.{Array, Lends, sem};
ghost use Rattle.rhai_few.specs.contracts.Few.{the_row};

use smallvec::SmallVec;
use std::alloc::{AllocError, AllocFailed, Global};
use std::default::MadeWith;
use std::marker::Model;

/// How many items take no memory.
const INLINE: usize = 4;

/// A `SmallVec` that contracts see as the list of its items.
pub struct Few<T> {
    items: SmallVec<T, INLINE>,
}

// Written by hand, so that the crates above call this, and need not go through the fields.
impl<T: Drop> Drop for Few<T> {
    #[inline(always)]
    fn drop(self) {
        let Few { items } = self;
        drop(items);
    }
}

impl<T> Model for Few<T> {
    ghost use Rattle.std.specs.Prelude.{List};
    ghost use Rattle.std.specs.Coded.{coded_list};

    ghost Value = { List T };

    ghost coded = { coded_list T.code };

    ghost view = { λ it. it.items.items };
}

impl<T> Few<T> {
    /// Lends the items.
    pub fn as_slice(&self) -> &[T]
        ensures { result.now ≡ self.now }
    {
        self.items.as_slice()
    }

    /// Lends the items, to be changed in place.
    pub fn as_mut_slice(&mut self) -> &mut [T]
        ensures* writes_back { sem 𝓛 (Lends (the_row T.row) (Array T.row 0) self.entry result
            (λ w. take (length self.old) (w ++ drop (length w) self.old))) }
        ensures value { result.now ≡ self.old }
    {
        self.items.as_mut_slice()
    }

    /// Counts the items.
    pub fn len(&self) -> usize
        ensures { result ≡ length self.now }
    {
        self.items.len()
    }

    /// Tells whether there is no item.
    pub fn is_empty(&self) -> bool
        ensures { IsTrue result ↔ (self.now ≡ []) }
    {
        self.as_slice().is_empty()
    }
}

impl<T: MadeWith<Global> + Drop> Few<T> {
    /// Makes the empty list. It takes no memory.
    #[inline(always)]
    pub fn new(alloc: Global) -> Few<T>
        ensures { result ≡ [] }
    {
        Few {
            items: SmallVec::new(alloc),
        }
    }

    /// Turns a `Vec` into a list, without a copy of more than a few items.
    pub fn from_vec(items: Vec<T>) -> Few<T>
        ensures { result ≡ items.items }
    {
        Few {
            items: SmallVec::from_vec(items),
        }
    }

    /// Turns the list into a `Vec`, which has memory of its own. Where there is none the list is
    /// let go.
    pub fn into_vec(self) -> Result<Vec<T>, AllocError>
        ensures { IfOk result (λ list. list.items ≡ self) }
    {
        let Few { items } = self;
        match items.into_vec() {
            Ok(list) => Ok(list),
            Err(_) => Err(AllocError),
        }
    }

    /// Adds an item at the end. Where there is no memory the list stays and the item comes back.
    pub fn try_push(&mut self, item: T) -> Result<(), AllocFailed<T>>
        ensures ok { OnOk result (self.new ≡ self.old ++ item ∷ []) }
        ensures err { OnErr result (self.new ≡ self.old) }
        ensures returned { IfErr result (λ failed. failed.value ≡ item) }
    {
        self.items.push(item)
    }

    /// Adds an item at the end. Where there is no memory the list stays and the item is let go.
    pub fn push(&mut self, item: T) -> Result<(), AllocError>
        ensures ok { OnOk result (self.new ≡ self.old ++ item ∷ []) }
        ensures err { OnErr result (self.new ≡ self.old) }
    {
        self.items.push(item)?;
        Ok(())
    }

    /// Puts an item before the one at an index, or at the end. Where there is no memory the list
    /// stays and the item is let go.
    pub fn insert(&mut self, at: usize, item: T) -> Result<(), AllocError>
        requires { at ≤ length self.old }
        ensures ok { OnOk result (self.new ≡ insert self.old at item) }
        ensures err { OnErr result (self.new ≡ self.old) }
    {
        self.items.insert(at, item)?;
        Ok(())
    }

    /// Takes the item at an index. The later ones move up.
    pub fn remove(&mut self, at: usize) -> T
        requires { at < length self.old }
        ensures item { slice_get self.old at ≡ Some result }
        ensures rest { self.new ≡ remove self.old at }
    {
        self.items.remove(at)
    }

    /// Moves the items of `more` to the end. Where there is no memory both lists stay.
    pub fn append(&mut self, more: &mut Few<T>) -> Result<(), AllocError>
        ensures ok { OnOk result (self.new ≡ self.old ++ more.old) }
        ensures emptied { OnOk result (more.new ≡ []) }
        ensures err { OnErr result (self.new ≡ self.old) }
        ensures stays { OnErr result (more.new ≡ more.old) }
    {
        self.items.append(&mut more.items)
    }
}
