//! Whether a state and a scope fit together.

ghost use Rattle.std.specs.Prelude.{◌≡◌, ◌↔◌, IsTrue, flat_map};
ghost use Rattle.std.specs.List.{list_all};
ghost use Rattle.std.specs.Option.{option_copied};
ghost use Rattle.rhai_values.specs.Cells.{cells_of};
ghost use Rattle.rhai_state.specs.Scope.{entries_of};
ghost use Rattle.rhai_state.specs.Deciding.{are_there, is_sealed};
ghost use Rattle.rhai_state.specs.Fitting.{FitsTogether};
ghost use Rattle.rhai_state.specs.Reached.{cell_holds, entry_holds, reached_from, table_holds};

use crate::contents::{has_table, imports_fit, modules_fit, value_fits, values_fit};
use crate::scope::{Scope, ScopeEntry};
use crate::state::GlobalRuntimeState;
use rhai_values::base::value::{CellId, Dynamic, Host, Union};

impl<H: Host> GlobalRuntimeState<H> {
    /// Tells whether this state and a scope fit together. They do where each cell that they reach is in
    /// the store and not held, each table of constants that they reach is one of the state's, and its
    /// current one too, and no cell of the store is held or has a bare handle. A host asks it before a
    /// run. It takes no memory: a value or a module is gone through as often as it is met.
    pub fn fits(&self, scope: &Scope<H>) -> bool
        ensures { IsTrue result ↔ FitsTogether self.now scope.now }
    {
        has_table(self, self.constants) && are_sealed(self) && reached_fits(self, scope)
    }
}

/// Tells whether what a state and a scope reach is there.
fn reached_fits<H>(global: &GlobalRuntimeState<H>, scope: &Scope<H>) -> bool
    ensures { result ≡ are_there global.now (reached_from global.now scope.now) }
{
    entries_fit(global, scope.entries())
        && modules_fit(global, global.lib.as_slice())
        && imports_fit(global, global.imports.as_slice())
        && tables_fit(global)
        && cells_fit(global)
}

/// Tells whether what the variables reach is there.
fn entries_fit<H>(global: &GlobalRuntimeState<H>, entries: &[ScopeEntry<H>]) -> bool
    ensures { result ≡ are_there global.now (flat_map entry_holds entries.now) }
{
    for entry in entries {
        if !value_fits(global, &entry.value) {
            return false;
        }
    }
    true
}

/// Tells whether what the constants of all tables reach is there.
fn tables_fit<H>(global: &GlobalRuntimeState<H>) -> bool
    ensures { result ≡ are_there global.now (flat_map table_holds global.now.constant_tables) }
{
    for table in global.constant_tables.as_slice() {
        if !values_fit(global, table.values()) {
            return false;
        }
    }
    true
}

/// Tells whether what the values of all cells reach is there.
fn cells_fit<H>(global: &GlobalRuntimeState<H>) -> bool
    ensures { result ≡ are_there global.now (flat_map cell_holds (cells_of global.now.cells)) }
{
    for number in 0..global.cells.len() {
        if !cell_fits(global, global.cells.get(CellId { number })) {
            return false;
        }
    }
    true
}

/// Tells whether what the value of one cell reaches is there. A cell that is held reaches nothing.
fn cell_fits<H>(global: &GlobalRuntimeState<H>, cell: Option<&Dynamic<H>>) -> bool
    ensures { result ≡ are_there global.now (cell_holds (option_copied cell.entry)) }
{
    match cell {
        Some(value) => value_fits(global, value),
        None => true,
    }
}

/// Tells whether no cell is held or has a bare handle.
fn are_sealed<H>(global: &GlobalRuntimeState<H>) -> bool
    ensures { result ≡ list_all is_sealed (cells_of global.now.cells) }
{
    for number in 0..global.cells.len() {
        if !is_sealed(global.cells.get(CellId { number })) {
            return false;
        }
    }
    true
}

/// Tells whether a cell is not held, and its value is no bare handle.
fn is_sealed<H>(cell: Option<&Dynamic<H>>) -> bool
    ensures { result ≡ is_sealed (option_copied cell.entry) }
{
    match cell {
        Some(value) => !matches!(value.value, Union::Cell(_)),
        None => false,
    }
}
