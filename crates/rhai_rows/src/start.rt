//! What a state has before a run starts.

ghost use Rattle.std.specs.Prelude.{◌≡◌};

use rhai_eval_base::base::{CellId, Dynamic, Union};
use rhai_eval_base::state::GlobalRuntimeState;
use rhai_tables::host::Pair;
use std::alloc::AllocError;

/// What a state has before a run starts.
#[derive(Clone, Copy, Debug, PartialEq, Eq)]
pub struct Start {
    pub num_operations: u64,
    pub num_modules_loaded: usize,
    /// How deep the calls are.
    pub level: usize,
    /// How deep the restoring blocks are.
    pub scope_level: usize,
    /// Whether there is a cell that is held.
    pub has_held_cell: bool,
}

impl Start {
    /// A state in which nothing is counted, and which has no cell.
    pub const NOTHING: Start = Start {
        num_operations: 0,
        num_modules_loaded: 0,
        level: 0,
        scope_level: 0,
        has_held_cell: false,
    };

    /// Makes a state so before a run.
    pub fn set(self, global: &mut GlobalRuntimeState<Pair>) -> Result<(), AllocError>
        ensures operations { global.new.num_operations ≡ self.num_operations }
    {
        global.num_operations = self.num_operations;
        global.num_modules_loaded = self.num_modules_loaded;
        global.level = self.level;
        global.scope_level = self.scope_level;
        if self.has_held_cell {
            return hold_a_cell(global);
        }
        Ok(())
    }
}

/// Adds a cell, and holds it.
fn hold_a_cell(global: &mut GlobalRuntimeState<Pair>) -> Result<(), AllocError>
    ensures operations { global.new.num_operations ≡ global.old.num_operations }
{
    match global.cells.add(Dynamic::new(Union::Int(1))) {
        Ok(id) => {
            drop(global.cells.take(id));
            Ok(())
        }
        Err((value, error)) => {
            drop(value);
            Err(error)
        }
    }
}

/// Makes a handle of the first cell.
pub fn first_handle() -> Dynamic<Pair> {
    Dynamic::new(Union::Cell(CellId { number: 0 }))
}
