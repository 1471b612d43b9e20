//! What values and modules reach: whether it is there, each cell in the state's store and not held, each
//! table of constants among the state's.

ghost use Rattle.std.specs.Prelude.{◌≡◌, flat_map};
ghost use Rattle.rhai_state.specs.Deciding.{are_there, has_cell, has_table};
ghost use Rattle.rhai_state.specs.Reached.{value_holds, pointer_holds, kind_holds, environ_holds, function_holds};
ghost use Rattle.rhai_state.specs.Reached.{import_holds, module_holds};

use crate::state::GlobalRuntimeState;
use rhai_tree::Shared;
use rhai_values::base::value::{
    CellId, Dynamic, EncapsulatedEnviron, FnPtr, FnPtrKind, Import, Module, ModuleFn, Union,
};

/// Tells whether a cell is one of the state's, and not held.
fn has_cell<H>(global: &GlobalRuntimeState<H>, id: CellId) -> bool
    ensures { result ≡ has_cell global.now id.number }
{
    global.cells.get(id).is_some()
}

/// Tells whether a table of constants is one of the state's.
pub fn has_table<H>(global: &GlobalRuntimeState<H>, number: usize) -> bool
    ensures { result ≡ has_table global.now number }
{
    number < global.constant_tables.len()
}

/// Tells whether what a value reaches is there.
#[cycle(reach)]
pub fn value_fits<H>(global: &GlobalRuntimeState<H>, value: &Dynamic<H>) -> bool
    ensures { result ≡ are_there global.now (value_holds value.now) }
{
    match &value.value {
        Union::Array(items) => values_fit(global, items.get().as_slice()),
        Union::Map(entries) => values_fit(global, entries.get().values()),
        Union::FnPtr(pointer) => pointer_fits(global, pointer.get()),
        Union::Cell(id) => has_cell(global, *id),
        _ => true,
    }
}

/// Tells whether what several values reach is there.
#[cycle(reach)]
pub fn values_fit<H>(global: &GlobalRuntimeState<H>, values: &[Dynamic<H>]) -> bool
    ensures { result ≡ are_there global.now (flat_map value_holds values.now) }
{
    for value in values {
        if !value_fits(global, value) {
            return false;
        }
    }
    true
}

/// Tells whether what a pointer reaches is there, by its arguments and by what it leads to.
#[cycle(reach)]
fn pointer_fits<H>(global: &GlobalRuntimeState<H>, pointer: &FnPtr<H>) -> bool
    ensures { result ≡ are_there global.now (pointer_holds pointer.now) }
{
    values_fit(global, pointer.curry.as_slice()) && kind_fits(global, &pointer.kind)
}

/// Tells whether what a pointer leads to reaches only what is there.
#[cycle(reach)]
fn kind_fits<H>(global: &GlobalRuntimeState<H>, kind: &FnPtrKind<H>) -> bool
    ensures { result ≡ are_there global.now (kind_holds kind.now) }
{
    match kind {
        FnPtrKind::Script(_, Some(environ)) => environ_fits(global, environ.get()),
        _ => true,
    }
}

/// Tells whether an environment's table of constants is there, and what its libraries and imports reach.
#[cycle(reach)]
fn environ_fits<H>(global: &GlobalRuntimeState<H>, environ: &EncapsulatedEnviron<H>) -> bool
    ensures { result ≡ are_there global.now (environ_holds environ.now) }
{
    has_table(global, environ.constants)
        && modules_fit(global, environ.lib.as_slice())
        && imports_fit(global, environ.imports.as_slice())
}

/// Tells whether what several modules reach is there.
#[cycle(reach)]
pub fn modules_fit<H>(global: &GlobalRuntimeState<H>, modules: &[Shared<Module<H>>]) -> bool
    ensures { result ≡ are_there global.now (flat_map module_holds modules.now) }
{
    for module in modules {
        if !module_fits(global, module.get()) {
            return false;
        }
    }
    true
}

/// Tells whether what several imported modules reach is there.
#[cycle(reach)]
pub fn imports_fit<H>(global: &GlobalRuntimeState<H>, imports: &[Import<H>]) -> bool
    ensures { result ≡ are_there global.now (flat_map import_holds imports.now) }
{
    for import in imports {
        if !module_fits(global, import.module.get()) {
            return false;
        }
    }
    true
}

/// Tells whether what a module reaches is there, by its constants, its functions and its modules.
#[cycle(reach)]
fn module_fits<H>(global: &GlobalRuntimeState<H>, module: &Module<H>) -> bool
    ensures { result ≡ are_there global.now (module_holds «module».now) }
{
    values_fit(global, module.constants.values())
        && functions_fit(global, module.functions.as_slice())
        && modules_fit(global, module.sub_modules.values())
}

/// Tells whether what several functions of a module reach is there.
#[cycle(reach)]
fn functions_fit<H>(global: &GlobalRuntimeState<H>, functions: &[ModuleFn<H>]) -> bool
    ensures { result ≡ are_there global.now (flat_map function_holds functions.now) }
{
    for function in functions {
        if !function_fits(global, function) {
            return false;
        }
    }
    true
}

/// Tells whether what a function of a module reaches is there, by its environment, if it has one.
#[cycle(reach)]
fn function_fits<H>(global: &GlobalRuntimeState<H>, function: &ModuleFn<H>) -> bool
    ensures { result ≡ are_there global.now (function_holds function.now) }
{
    match &function.environ {
        Some(environ) => environ_fits(global, environ.get()),
        None => true,
    }
}
