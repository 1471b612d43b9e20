//! The making of errors. Each is made here alone, so that texts stay alike; where there is no
//! memory for one the answer is that memory ran out.

ghost use Rattle.std.specs.Prelude.{◌≡◌, false, [], IfOk};
ghost use Rattle.rhai_tree.specs.declared.expr.Expr.{out-Expr};
ghost use Rattle.rhai_tree.specs.Positions.{start_of};
ghost use Rattle.rhai_values.specs.DataSize.{fault_text};
ghost use Rattle.rhai_errors.specs.Errors.{indexing_text as indexed_text, is_out_of_memory};
ghost use Rattle.rhai_errors.specs.Errors.{mismatch as mismatched, root_name};
ghost use Rattle.rhai_errors.specs.declared.error.EvalAltResult.TheVariants as error;

use crate::error::{EvalAltResult, TypeMismatch};
use rhai_tree::expr::Expr;
use rhai_tree::position::Position;
use rhai_tree::{Boxed, Shared, Text};
use rhai_values::base::size::SizeFault;
use rhai_values::base::value::{Dynamic, Host};
use std::alloc::{AllocError, Global};

/// Builds the error of a race for the cell that a handle leads to.
#[cold]
#[inline(never)]
pub fn data_race<H>(alloc: Global, pos: Position) -> EvalAltResult<H>
    ensures { is_out_of_memory result ≡ false → result ≡ error.ErrorDataRace [] pos }
{
    match Shared::new(alloc, Text::new(alloc)) {
        Ok(name) => EvalAltResult::ErrorDataRace(name, pos),
        Err(_) => EvalAltResult::ErrorOutOfMemory(pos),
    }
}

/// Builds the error of a race for the cell that a name leads to.
#[cold]
#[inline(never)]
pub fn data_race_of<H>(name: &Shared<Text>, pos: Position) -> EvalAltResult<H>
    ensures { is_out_of_memory result ≡ false → result ≡ error.ErrorDataRace name.now pos }
{
    match name.share() {
        Ok(name) => EvalAltResult::ErrorDataRace(name, pos),
        Err(_) => EvalAltResult::ErrorOutOfMemory(pos),
    }
}

/// Builds the error of a constant that is assigned to.
#[cold]
#[inline(never)]
pub fn assignment_to_constant<H>(name: &Shared<Text>, pos: Position) -> EvalAltResult<H>
    ensures { is_out_of_memory result ≡ false → result ≡ error.ErrorAssignmentToConstant name.now pos }
{
    match name.share() {
        Ok(name) => EvalAltResult::ErrorAssignmentToConstant(name, pos),
        Err(_) => EvalAltResult::ErrorOutOfMemory(pos),
    }
}

/// Builds the error of a constant without a name that is assigned to.
#[cold]
#[inline(never)]
pub fn nameless_constant<H>(alloc: Global, pos: Position) -> EvalAltResult<H>
    ensures { is_out_of_memory result ≡ false → result ≡ error.ErrorAssignmentToConstant [] pos }
{
    match Shared::new(alloc, Text::new(alloc)) {
        Ok(name) => EvalAltResult::ErrorAssignmentToConstant(name, pos),
        Err(_) => EvalAltResult::ErrorOutOfMemory(pos),
    }
}

/// Builds the error of a constant that a chain assigns to, with the name of the chain's root.
#[cold]
#[inline(never)]
pub fn constant_of<H>(alloc: Global, root: &Expr) -> EvalAltResult<H>
    ensures { is_out_of_memory result ≡ false → result ≡ error.ErrorAssignmentToConstant
        (root_name (out-Expr root.now)) (start_of root.now) }
{
    let pos = root.start_position();
    match root {
        Expr::Variable { name, .. } => assignment_to_constant(name, pos),
        _ => nameless_constant(alloc, pos),
    }
}

/// Builds the error of a name that means no variable.
#[cold]
#[inline(never)]
pub fn variable_not_found<H>(name: &Shared<Text>, pos: Position) -> EvalAltResult<H>
    ensures { is_out_of_memory result ≡ false → result ≡ error.ErrorVariableNotFound name.now pos }
{
    match name.share() {
        Ok(name) => EvalAltResult::ErrorVariableNotFound(name, pos),
        Err(_) => EvalAltResult::ErrorOutOfMemory(pos),
    }
}

/// Builds the error of a key that a map does not have.
#[cold]
#[inline(never)]
pub fn property_not_found<H>(key: &Shared<Text>, pos: Position) -> EvalAltResult<H>
    ensures { is_out_of_memory result ≡ false → result ≡ error.ErrorPropertyNotFound key.now pos }
{
    match key.share() {
        Ok(key) => EvalAltResult::ErrorPropertyNotFound(key, pos),
        Err(_) => EvalAltResult::ErrorOutOfMemory(pos),
    }
}

/// Builds the error of a name that is declared twice where that is not allowed.
#[cold]
#[inline(never)]
pub fn variable_exists<H>(name: &Shared<Text>, pos: Position) -> EvalAltResult<H>
    ensures { is_out_of_memory result ≡ false → result ≡ error.ErrorVariableExists name.now pos }
{
    match name.share() {
        Ok(name) => EvalAltResult::ErrorVariableExists(name, pos),
        Err(_) => EvalAltResult::ErrorOutOfMemory(pos),
    }
}

/// Builds the types that the error of another type tells.
pub fn type_mismatch(
    alloc: Global,
    wanted: &str,
    found: &str,
) -> Result<Boxed<TypeMismatch>, AllocError>
    ensures { IfOk result (λ m. m ≡ record { wanted = wanted.now; found = found.now }) }
{
    let wanted = Text::from_str(alloc, wanted)?;
    let found = Text::from_str(alloc, found)?;
    Boxed::new(alloc, TypeMismatch { wanted, found })
}

/// Builds the error of a value of another type than the one that is wanted.
#[cold]
#[inline(never)]
pub fn mismatch<H>(alloc: Global, wanted: &str, found: &str, pos: Position) -> EvalAltResult<H>
    ensures { is_out_of_memory result ≡ false → result ≡ mismatched wanted.now found.now pos }
{
    match type_mismatch(alloc, wanted, found) {
        Ok(types) => EvalAltResult::ErrorMismatchDataType(types, pos),
        Err(_) => EvalAltResult::ErrorOutOfMemory(pos),
    }
}

/// Writes the text of a value and an index that do not go together.
pub fn indexing_text(alloc: Global, object: &str, index: &str) -> Result<Text, AllocError>
    ensures { IfOk result (λ t. t ≡ indexed_text object.now index.now) }
{
    let mut text = String::from_str(alloc, object)?;
    text.push_str(" [")?;
    text.push_str(index)?;
    text.push_str("]")?;
    Ok(Text::from_string(text))
}

/// Builds the error of a race for the cell of an argument of a native.
#[cold]
#[inline(never)]
pub fn data_race_by<H>(alloc: Global, name: &str, pos: Position) -> EvalAltResult<H>
    ensures { is_out_of_memory result ≡ false → result ≡ error.ErrorDataRace name.now pos }
{
    match shared_text(alloc, name) {
        Ok(text) => EvalAltResult::ErrorDataRace(text, pos),
        Err(_) => EvalAltResult::ErrorOutOfMemory(pos),
    }
}

/// Builds the error of a native that is not pure, on a constant.
#[cold]
#[inline(never)]
pub fn non_pure<H>(alloc: Global, name: &str, pos: Position) -> EvalAltResult<H>
    ensures { is_out_of_memory result ≡ false → result ≡ error.ErrorNonPureMethodCallOnConstant name.now pos }
{
    match shared_text(alloc, name) {
        Ok(text) => EvalAltResult::ErrorNonPureMethodCallOnConstant(text, pos),
        Err(_) => EvalAltResult::ErrorOutOfMemory(pos),
    }
}

/// Builds the error of a native that is not pure, on a constant, with its shared name.
#[cold]
#[inline(never)]
pub fn non_pure_of<H>(name: &Shared<Text>, pos: Position) -> EvalAltResult<H>
    ensures { is_out_of_memory result ≡ false → result ≡ error.ErrorNonPureMethodCallOnConstant name.now pos }
{
    match name.share() {
        Ok(name) => EvalAltResult::ErrorNonPureMethodCallOnConstant(name, pos),
        Err(_) => EvalAltResult::ErrorOutOfMemory(pos),
    }
}

/// Copies a text into one that may have several owners.
pub fn shared_text(alloc: Global, text: &str) -> Result<Shared<Text>, AllocError>
    ensures { IfOk result (λ t. t ≡ text.now) }
{
    let text = Text::from_str(alloc, text)?;
    Shared::new(alloc, text)
}

/// Builds the error of a value whose data is above a limit.
#[cold]
#[inline(never)]
pub fn data_too_large<H>(alloc: Global, fault: SizeFault, pos: Position) -> EvalAltResult<H>
    ensures { is_out_of_memory result ≡ false → result ≡ error.ErrorDataTooLarge (fault_text fault) pos }
{
    match shared_text(alloc, fault.text()) {
        Ok(text) => EvalAltResult::ErrorDataTooLarge(text, pos),
        Err(_) => EvalAltResult::ErrorOutOfMemory(pos),
    }
}

/// Puts a `break` or a `continue` on its way to its loop.
pub fn loop_break<H: Host>(
    alloc: Global,
    value: Dynamic<H>,
    is_break: bool,
    pos: Position,
) -> EvalAltResult<H>
    ensures { is_out_of_memory result ≡ false → result ≡ error.LoopBreak value is_break pos }
{
    match Boxed::new(alloc, value) {
        Ok(value) => EvalAltResult::LoopBreak(value, is_break, pos),
        Err(_) => EvalAltResult::ErrorOutOfMemory(pos),
    }
}

/// Puts a `return` on its way to the end of its function or script.
pub fn returned<H: Host>(alloc: Global, value: Dynamic<H>, pos: Position) -> EvalAltResult<H>
    ensures { is_out_of_memory result ≡ false → result ≡ error.Return value pos }
{
    match Boxed::new(alloc, value) {
        Ok(value) => EvalAltResult::Return(value, pos),
        Err(_) => EvalAltResult::ErrorOutOfMemory(pos),
    }
}
