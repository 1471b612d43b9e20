//! The host's own value in the vectors, and the cells that their handles lead to.

use crate::reader::Reader;
use rhai_values::base::value::{CellId, Dynamic, Host, Union};
use rhai_values::cells::CellStore;
use std::alloc::{AllocError, Global};

/// A host's value of one word, written `stone`.
#[derive(Clone, Copy)]
pub struct Stone {
    pub weight: u64,
}

impl Host for Stone {
    ghost use Rattle.std.specs.Prelude.{codes};

    ghost name_of = { λ stone. codes "stone" };

    fn try_clone(&self, _alloc: Global) -> Result<Stone, AllocError> {
        Ok(*self)
    }

    fn type_name(&self) -> &str {
        "stone"
    }
}

/// Makes two cells: `cell 0` with the value 2, and `cell 1`, which is held.
pub fn cells(line: &mut Reader<'_>) -> CellStore<Stone> {
    let mut cells = CellStore::new(line.allocator());
    add_cell(line, &mut cells, 2);
    let held = add_cell(line, &mut cells, 1);
    drop(cells.take(held));
    cells
}

/// Adds a cell with an integer. Where there is no memory for it, it answers the first.
fn add_cell(line: &mut Reader<'_>, cells: &mut CellStore<Stone>, number: i64) -> CellId {
    match cells.add(Dynamic::new(Union::Int(number))).ok() {
        Some(added) => added,
        None => {
            line.lack_memory();
            CellId { number: 0 }
        }
    }
}
