//! Pointers and names that are given as values, and what a pointer is called by. Ports what upstream's
//! `make_function_call` does with the first argument of a keyword.

ghost use Rattle.std.specs.Prelude.{◌≡◌, [], Ok, false, is_some, IfOk};
ghost use Rattle.rhai_values.specs.Cells.{cells_of};
ghost use Rattle.rhai_values.specs.Copy.{plain};
ghost use Rattle.rhai_values.specs.Layers.{layer_of};
ghost use Rattle.rhai_values.specs.declared.base.value.FnPtr.{out-FnPtr};
ghost use Rattle.rhai_values.specs.declared.base.value.Union.TheVariants as kind;
ghost use Rattle.rhai_errors.specs.Errors.{is_out_of_memory};
ghost use Rattle.rhai_state.specs.Scope.{entries_of, index_of};
ghost use Rattle.rhai_errors.specs.declared.error.EvalAltResult.TheVariants as error;
ghost use Rattle.rhai_machine.specs.language.Arguments.{pointer_in as seen_as_pointer, pointer_named};
ghost use Rattle.rhai_machine.specs.language.Arguments.{pointer_of as pointer_made, pointer_wanted};
ghost use Rattle.rhai_machine.specs.language.Arguments.{text_in as seen_as_text, text_wanted};
ghost use Rattle.rhai_machine.specs.language.Arguments.{with_curried as curried_with};
ghost use Rattle.rhai_machine.specs.language.Calls.{signature};
ghost use Rattle.rhai_machine.specs.language.State.{Answers};
ghost use Rattle.rhai_machine.specs.language.Values.{bool_value as truth_of, is_handle};
ghost use Rattle.rhai_call_forms.specs.Pointers.{native_number_of};

use crate::names::is_pointer_name;
use rhai_errors::error::EvalAltResult;
use rhai_errors::errors::{data_race, mismatch};
use rhai_few::Few;
use rhai_state::scope::Scope;
use rhai_steps::values::{bool_value, flatten, is_bare_handle};
use rhai_tree::literal::NativeId;
use rhai_tree::position::Position;
use rhai_tree::{Boxed, Items, Shared, Text};
use rhai_values::base::value::{Dynamic, FnPtr, FnPtrKind, Host, Union};
use rhai_values::cells::CellStore;
use std::alloc::{AllocError, Global};
use std::mem::replace;

/// Shares the text that a value without a handle is.
fn plain_text<H: Host>(
    alloc: Global,
    cells: &CellStore<H>,
    value: &Dynamic<H>,
    pos: Position,
) -> Result<Shared<Text>, EvalAltResult<H>>
    ensures { Answers result (seen_as_text H.name_of (cells_of cells.now) value.now.value value.now pos) }
{
    match &value.value {
        Union::Str(text) => match text.share() {
            Ok(text) => Ok(text),
            Err(_) => Err(EvalAltResult::ErrorOutOfMemory(pos)),
        },
        _ => Err(mismatch(alloc, "string", value.type_name(cells), pos)),
    }
}

/// Shares the text that a value is, through a handle. No byte is copied.
///
/// # Errors
/// Both at the position: `ErrorDataRace` for a handle whose cell is held, `ErrorMismatchDataType` for a
/// value of another type.
pub fn text_of<H: Host>(
    alloc: Global,
    cells: &CellStore<H>,
    value: Dynamic<H>,
    pos: Position,
) -> Result<Shared<Text>, EvalAltResult<H>>
    ensures { Answers result (text_wanted H.name_of (cells_of cells.now) value pos) }
{
    match &value.value {
        Union::Cell(id) => match cells.get(*id) {
            Some(inner) => plain_text(alloc, cells, inner, pos),
            None => Err(data_race(alloc, pos)),
        },
        _ => plain_text(alloc, cells, &value, pos),
    }
}

/// Moves the pointer out of a value that is one, without a handle.
fn plain_pointer<H: Host>(
    alloc: Global,
    cells: &CellStore<H>,
    value: Dynamic<H>,
    pos: Position,
) -> Result<FnPtr<H>, EvalAltResult<H>>
    ensures { Answers result (seen_as_pointer H.name_of (cells_of cells.now) (layer_of value) value pos) }
{
    let mut value = value;
    match replace(&mut value.value, Union::Unit) {
        Union::FnPtr(pointer) => Ok(pointer.into_inner()),
        other => {
            value.value = other;
            Err(mismatch(alloc, "Fn", value.type_name(cells), pos))
        }
    }
}

/// Returns the pointer that a value is. Of a handle it is a copy of the cell's pointer, and any other is
/// moved.
///
/// # Errors
/// Both at the position: `ErrorDataRace` for a handle whose cell is held, `ErrorMismatchDataType` for a
/// value of another type.
pub fn pointer_of<H: Host>(
    alloc: Global,
    cells: &CellStore<H>,
    value: Dynamic<H>,
    pos: Position,
) -> Result<FnPtr<H>, EvalAltResult<H>>
    ensures { Answers result (pointer_wanted H.name_of (cells_of cells.now) value pos) }
{
    let value = flatten(alloc, cells, value, pos)?;
    plain_pointer(alloc, cells, value, pos)
}

/// Writes a name with empty brackets.
fn empty_signature(alloc: Global, name: &str) -> Result<Shared<Text>, AllocError>
    ensures { IfOk result (λ text. text ≡ signature name.now []) }
{
    let mut text = String::from_str(alloc, name)?;
    text.push_str(" (")?;
    text.push_str(")")?;
    Shared::new(alloc, Text::from_string(text))
}

/// Builds the error of a name that no function could have.
#[cold]
#[inline(never)]
fn no_function<H>(alloc: Global, name: &str, pos: Position) -> EvalAltResult<H>
    ensures { is_out_of_memory result ≡ false →
        result ≡ error.ErrorFunctionNotFound (signature name.now []) pos }
{
    match empty_signature(alloc, name) {
        Ok(text) => EvalAltResult::ErrorFunctionNotFound(text, pos),
        Err(_) => EvalAltResult::ErrorOutOfMemory(pos),
    }
}

/// Makes a value of a pointer.
fn pointer_value<H: Host>(
    alloc: Global,
    pointer: FnPtr<H>,
    pos: Position,
) -> Result<Dynamic<H>, EvalAltResult<H>>
    ensures { Answers result (Ok (plain (kind.FnPtr pointer))) }
{
    match Boxed::new(alloc, pointer) {
        Ok(pointer) => Ok(Dynamic::new(Union::FnPtr(pointer))),
        Err(_) => Err(EvalAltResult::ErrorOutOfMemory(pos)),
    }
}

/// Makes a pointer by its name alone, with no arguments.
fn named_pointer<H: Host>(
    alloc: Global,
    name: Shared<Text>,
    pos: Position,
) -> Result<Dynamic<H>, EvalAltResult<H>>
    ensures { Answers result (Ok (pointer_named name)) }
{
    let curry = Items::new(alloc);
    let kind = FnPtrKind::Name;
    pointer_value(alloc, FnPtr { name, curry, kind }, pos)
}

/// Makes a pointer of a name, which has to be an identifier or an operator.
///
/// # Errors
/// `ErrorFunctionNotFound` at the position, with the name and empty brackets, for any other text.
pub fn make_pointer<H: Host>(
    alloc: Global,
    name: Shared<Text>,
    pos: Position,
) -> Result<Dynamic<H>, EvalAltResult<H>>
    ensures { Answers result (pointer_made name pos) }
{
    if is_pointer_name(name.get().as_str()) {
        return named_pointer(alloc, name, pos);
    }
    Err(no_function(alloc, name.get().as_str(), pos))
}

/// Adds arguments to a pointer, after those that it has.
pub fn with_curried<H: Host>(
    alloc: Global,
    pointer: FnPtr<H>,
    args: &mut Few<Dynamic<H>>,
    pos: Position,
) -> Result<Dynamic<H>, EvalAltResult<H>>
    ensures { Answers result (Ok (curried_with pointer args.old)) }
{
    let mut pointer = pointer;
    let Ok(args) = replace(args, Few::new(alloc)).into_vec() else {
        return Err(EvalAltResult::ErrorOutOfMemory(pos));
    };
    match pointer.curry.append(Items::from_vec(args)) {
        Ok(()) => pointer_value(alloc, pointer, pos),
        Err(_) => Err(EvalAltResult::ErrorOutOfMemory(pos)),
    }
}

/// Tells whether a value is the handle of a cell.
pub fn is_shared<H: Host>(value: Dynamic<H>) -> Dynamic<H>
    ensures { result ≡ truth_of (is_handle value.value) }
{
    let shared = is_bare_handle(&value);
    bool_value(shared)
}

/// Tells whether the scope has a variable of a name.
pub fn is_defined<H: Host>(scope: &Scope<H>, name: &Shared<Text>) -> Dynamic<H>
    ensures { result ≡ truth_of (is_some (index_of name.now (entries_of scope.now))) }
{
    bool_value(scope.contains(name.get().as_str()))
}

/// Returns the number of a native that a pointer leads to, None for any other.
fn number_of<H: Host>(kind: FnPtrKind<H>) -> Option<NativeId>
    ensures { result ≡ native_number_of kind }
{
    match kind {
        FnPtrKind::Native(id) => Some(id),
        _ => None,
    }
}

/// Splits a pointer into its name, the values that it has already, and the number of a native. That is None
/// where it leads to no native by its number.
pub fn parts_of<H: Host>(pointer: FnPtr<H>) -> (Shared<Text>, Items<Dynamic<H>>, Option<NativeId>)
    ensures name { result.0 ≡ (out-FnPtr H pointer).name }
    ensures curried { result.1 ≡ (out-FnPtr H pointer).curry }
    ensures number { result.2 ≡ native_number_of (out-FnPtr H pointer).kind }
{
    let (name, curry, kind) = pointer.into_parts();
    (name, curry, number_of(kind))
}
