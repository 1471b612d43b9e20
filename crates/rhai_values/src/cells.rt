//! The store of shared cells.

ghost use Rattle.std.specs.Prelude.{◌≡◌, ◌<◌, [], ◌∷◌, ◌++◌, Some, length, IfOk, IfErr, OnOk, OnErr};
ghost use Rattle.std.specs.Option.{option_copied};
ghost use Rattle.rhai_values.specs.Cells.{cells_of, value_of_cell, with_held, with_value, IsHeld};
ghost use Rattle.rhai_values.specs.Cells.{IsNoHandle};

use crate::base::value::{CellId, Dynamic};
use rhai_tree::Items;
use std::alloc::{AllocError, Global};

/// The shared cells of a run, by their numbers. A cell that is held has its value elsewhere.
pub struct CellStore<H> {
    cells: Items<Option<Dynamic<H>>>,
}

// Written by hand, as that of a value is.
impl<H: Drop> Drop for CellStore<H> {
    fn drop(self) {
        let CellStore { cells: _ } = self;
    }
}

impl<H> CellStore<H> {
    /// Creates a store with no cell. It takes no memory.
    pub fn new(alloc: Global) -> CellStore<H>
        ensures { cells_of result ≡ [] }
    {
        CellStore {
            cells: Items::new(alloc),
        }
    }

    /// Counts the cells.
    pub fn len(&self) -> usize
        ensures { result ≡ length (cells_of self.now) }
    {
        self.cells.len()
    }

    /// Returns the value of a cell, if the cell is known and not held.
    pub fn get(&self, id: CellId) -> Option<&Dynamic<H>>
        ensures { option_copied result ≡ value_of_cell (cells_of self.now) id.number }
    {
        self.cells.get(id.number)?.as_ref()
    }

    /// Adds a cell, whose number is how many there were. Asked: the value is no handle. Where
    /// there is no memory the store stays and the value comes back.
    pub fn add(&mut self, value: Dynamic<H>) -> Result<CellId, (Dynamic<H>, AllocError)>
        requires { IsNoHandle value.value }
        ensures number { IfOk result (λ id. id.number ≡ length (cells_of self.old)) }
        ensures ok { OnOk result (cells_of self.new ≡ cells_of self.old ++ Some value ∷ []) }
        ensures err { OnErr result (cells_of self.new ≡ cells_of self.old) }
        ensures returned { IfErr result (λ failed. failed.0 ≡ value) }
    {
        let number = self.cells.len();
        match self.cells.try_push(Some(value)) {
            Ok(()) => Ok(CellId { number }),
            Err(failed) => Err((failed.value.unwrap(), AllocError)),
        }
    }

    /// Holds a cell and takes its value, if the cell is known and not held.
    pub fn take(&mut self, id: CellId) -> Option<Dynamic<H>>
        ensures value { result ≡ value_of_cell (cells_of self.old) id.number }
        ensures held { cells_of self.new ≡ with_held (cells_of self.old) id.number }
    {
        if id.number >= self.cells.len() {
            return None;
        }
        self.cells.at_mut(id.number).take()
    }
}

/// Gives a cell a value, and lets go of it where it is held. Asked: the cell is known. It is no call of the
/// store, since a host could store a bare handle by it: the evaluator puts back what it took from there.
pub fn put_back<H: Drop>(cells: &mut CellStore<H>, id: CellId, value: Dynamic<H>)
    requires { id.number < length (cells_of cells.old) }
    ensures { cells_of cells.new ≡ with_value (cells_of cells.old) id.number value }
{
    cells.cells.set(id.number, Some(value));
}

impl<H: Drop> CellStore<H> {
    /// Lets go of a cell that is held and gives it a value. Asked: the cell is held, and the value
    /// is no handle.
    pub fn put(&mut self, id: CellId, value: Dynamic<H>)
        requires held { IsHeld (cells_of self.old) id.number }
        requires no_handle { IsNoHandle value.value }
        ensures { cells_of self.new ≡ with_value (cells_of self.old) id.number value }
    {
        put_back(self, id, value);
    }
}
