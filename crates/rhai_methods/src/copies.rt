//! Pointers that are found in values. A method may change its focus, so what it calls is a copy.

ghost use Rattle.std.specs.Prelude.{◌≡◌, ◌++◌, [], Ok, IfErr, IfOk, codes, false, true};
ghost use Rattle.std.specs.Option.{option_copied, option_map};
ghost use Rattle.rhai_values.specs.Cells.{cells_of};
ghost use Rattle.rhai_values.specs.Copy.{copy_pointer};
ghost use Rattle.rhai_values.specs.Layers.{layer_of};
ghost use Rattle.rhai_values.specs.TypeNames.{type_name_of};
ghost use Rattle.rhai_errors.specs.Errors.{is_out_of_memory, mismatch as mismatched};
ghost use Rattle.rhai_machine.specs.language.Methods.{entry_in, entry_seen, pointer_there};
ghost use Rattle.rhai_machine.specs.language.State.{Answers};
ghost use Rattle.rhai_machine.specs.language.Values.{through, used};
ghost use Rattle.rhai_methods.specs.Copies.{copy_seen, curried_seen, own_copy};

use rhai_call_forms::arguments::{join, keep_argument};
use rhai_call_forms::pointers::with_curried;
use rhai_errors::error::EvalAltResult;
use rhai_errors::errors::{data_race, mismatch};
use rhai_few::Few;
use rhai_steps::values::{copy, unit_value};
use rhai_tree::Items;
use rhai_tree::position::Position;
use rhai_values::base::value::{Dynamic, FnPtr, Host, Union};
use rhai_values::cells::CellStore;
use std::alloc::Global;
use std::mem::replace;

/// Looks at a value through a handle. None where the handle's cell is held.
pub(crate) fn seen<'a, H: Host>(
    cells: &'a CellStore<H>,
    value: &'a Dynamic<H>,
) -> Option<&'a Dynamic<H>>
    ensures { (pos : _) → used [] pos (option_copied result) ≡ through (cells_of cells.now) value.now pos }
{
    match &value.value {
        Union::Cell(id) => cells.get(*id),
        _ => Some(value),
    }
}

/// Finds the value that a map has under a name, None where there is no map.
fn entry_of<'a, H: Host>(value: &'a Dynamic<H>, name: &str) -> Option<&'a Dynamic<H>>
    ensures { option_copied result ≡ entry_in name.now (layer_of value.now) }
{
    match &value.value {
        Union::Map(entries) => entries.get().get(name),
        _ => None,
    }
}

/// Finds the value that a map has under a name, through a handle. A cell that is held has no such value.
fn own_entry<'a, H: Host>(
    cells: &'a CellStore<H>,
    value: &'a Dynamic<H>,
    name: &str,
) -> Option<&'a Dynamic<H>>
    ensures { (pos : _) → option_copied result
        ≡ entry_seen name.now (through (cells_of cells.now) value.now pos) }
{
    match seen(cells, value) {
        Some(map) => entry_of(map, name),
        None => None,
    }
}

/// Moves the pointer out of a value that is one.
fn move_pointer<H: Host>(value: Dynamic<H>) -> Option<FnPtr<H>>
    ensures { result ≡ pointer_there (layer_of value) }
{
    let mut value = value;
    match replace(&mut value.value, Union::Unit) {
        Union::FnPtr(pointer) => Some(pointer.into_inner()),
        other => {
            value.value = other;
            None
        }
    }
}

/// Copies the pointer that a value without a handle is. Nothing else is copied.
fn plain_copy<H: Host>(
    alloc: Global,
    value: &Dynamic<H>,
    pos: Position,
) -> Result<Option<FnPtr<H>>, EvalAltResult<H>>
    ensures { Answers result (Ok (option_map copy_pointer (pointer_there (layer_of value.now)))) }
{
    match &value.value {
        Union::FnPtr(_) => Ok(move_pointer(copy(alloc, value, pos)?)),
        _ => Ok(None),
    }
}

/// Copies the pointer that a value is, through a handle. None where it is none.
///
/// # Errors
/// `ErrorDataRace` at the position, for a handle whose cell is held.
pub fn pointer_copy<H: Host>(
    alloc: Global,
    cells: &CellStore<H>,
    value: &Dynamic<H>,
    pos: Position,
) -> Result<Option<FnPtr<H>>, EvalAltResult<H>>
    ensures { Answers result (copy_seen (cells_of cells.now) value.now pos) }
{
    match seen(cells, value) {
        Some(value) => plain_copy(alloc, value, pos),
        None => Err(data_race(alloc, pos)),
    }
}

/// Copies the pointer that a map has under a name, both seen through their handles. None where there is none.
/// Nothing else of the map is copied.
///
/// # Errors
/// `ErrorDataRace` at the position, where the map has the handle of a cell that is held.
pub fn own_pointer<H: Host>(
    alloc: Global,
    cells: &CellStore<H>,
    target: &Dynamic<H>,
    name: &str,
    pos: Position,
) -> Result<Option<FnPtr<H>>, EvalAltResult<H>>
    ensures { Answers result (own_copy (cells_of cells.now) name.now target.now pos) }
{
    match own_entry(cells, target, name) {
        Some(value) => pointer_copy(alloc, cells, value, pos),
        None => Ok(None),
    }
}

/// Builds the error of a value that is no pointer where one is wanted.
#[cold]
#[inline(never)]
pub fn no_pointer<H: Host>(
    alloc: Global,
    cells: &CellStore<H>,
    value: &Dynamic<H>,
    pos: Position,
) -> EvalAltResult<H>
    ensures { IfOk (through (cells_of cells.now) value.now pos) (λ v. is_out_of_memory result ≡ false →
        result ≡ mismatched (codes "Fn") (type_name_of H.name_of (cells_of cells.now) v) pos) }
{
    match seen(cells, value) {
        Some(value) => mismatch(alloc, "Fn", value.type_name(cells), pos),
        None => data_race(alloc, pos),
    }
}

/// Takes all arguments out into a list, and leaves `()` for each. Where there is no memory those that were
/// taken are let go of.
///
/// # Errors
/// `ErrorOutOfMemory` at the position alone.
pub fn take_out<H: Host>(
    alloc: Global,
    args: &mut [Dynamic<H>],
    pos: Position,
) -> Result<Few<Dynamic<H>>, EvalAltResult<H>>
    ensures taken { IfOk result (λ all. all ≡ args.old) }
    ensures refused { IfErr result (λ e. is_out_of_memory e ≡ true) }
{
    let mut all = Few::new(alloc);
    for i in 0..args.len() {
        let value = replace(&mut args[i], unit_value());
        keep_argument(&mut all, value, pos)?;
    }
    Ok(all)
}

/// Takes all arguments out and puts them behind the values that a pointer has already. It leaves `()` for
/// each.
///
/// # Errors
/// `ErrorOutOfMemory` at the position alone.
pub fn take_behind<H: Host>(
    alloc: Global,
    curried: Items<Dynamic<H>>,
    args: &mut [Dynamic<H>],
    pos: Position,
) -> Result<Few<Dynamic<H>>, EvalAltResult<H>>
    ensures joined { IfOk result (λ all. all ≡ curried ++ args.old) }
    ensures refused { IfErr result (λ e. is_out_of_memory e ≡ true) }
{
    let mut all = take_out(alloc, args, pos)?;
    match join(curried, &mut all, pos) {
        Ok(()) => Ok(all),
        Err(error) => {
            drop(all);
            Err(error)
        }
    }
}

/// Copies the pointer that a value is, through a handle, and gives the copy more arguments.
fn copied_with<H: Host>(
    alloc: Global,
    cells: &CellStore<H>,
    value: &Dynamic<H>,
    more: &mut Few<Dynamic<H>>,
    pos: Position,
) -> Result<Dynamic<H>, EvalAltResult<H>>
    ensures { Answers result (curried_seen H.name_of (cells_of cells.now) more.old pos
        (through (cells_of cells.now) value.now pos)) }
{
    match pointer_copy(alloc, cells, value, pos) {
        Ok(Some(pointer)) => with_curried(alloc, pointer, more, pos),
        Ok(None) => Err(no_pointer(alloc, cells, value, pos)),
        Err(error) => Err(error),
    }
}

/// Copies the pointer that a value is, through a handle, and gives the copy these arguments. They are taken
/// out, and `()` is left for each.
///
/// # Errors
/// Both at the position: `ErrorDataRace` for a handle whose cell is held, `ErrorMismatchDataType` for what
/// is no pointer.
pub fn curried<H: Host>(
    alloc: Global,
    cells: &CellStore<H>,
    value: &Dynamic<H>,
    args: &mut [Dynamic<H>],
    pos: Position,
) -> Result<Dynamic<H>, EvalAltResult<H>>
    ensures { Answers result (curried_seen H.name_of (cells_of cells.now) args.old pos
        (through (cells_of cells.now) value.now pos)) }
{
    let mut more = take_out(alloc, args, pos)?;
    let curried = copied_with(alloc, cells, value, &mut more, pos);
    drop(more);
    curried
}
