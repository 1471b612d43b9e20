//! Values and errors as they are printed, how small they are, and whether states fit.

use crate::fitting;
use crate::host::Stone;
use crate::reader::Reader;
use crate::sheet::Sheet;
use rhai_errors::error::{EvalAltResult, FunctionCallError};
use rhai_errors::errors::shared_text;
use rhai_tree::Boxed;
use rhai_tree::position::Position;
use rhai_values::base::value::Dynamic;
use std::alloc::{AllocError, Global};
use std::mem::size_of;

/// Writes what a call with a value, an error, a type or a state answers, by its first word.
pub fn answer(line: &mut Reader<'_>, out: &mut Sheet) {
    match line.word() {
        "print" => print(line, out),
        "error" => out.print_error(error(line)),
        "size" => out.write(fits_size(line)),
        "fits" => fitting::answer(line, out),
        _ => line.want("a call with a value, an error, a type or a state"),
    }
}

fn print(line: &mut Reader<'_>, out: &mut Sheet) {
    let value = line.value();
    out.print(&value);
    drop(value);
}

/// Reads the next error: `overflow POSITION`, `runtime VALUE POSITION`, or `call NAME POSITION POSITION`. The
/// last is an error of a `for` at the first position, in a call at the second.
fn error(line: &mut Reader<'_>) -> EvalAltResult<Stone> {
    match line.word() {
        "overflow" => overflow(line.next_position()),
        "runtime" => runtime(line),
        "call" => in_call(line),
        _ => {
            line.want("overflow, runtime or call");
            EvalAltResult::ErrorFor(Position::NONE)
        }
    }
}

fn overflow(place: Position) -> EvalAltResult<Stone> {
    let mut error = EvalAltResult::ErrorStackOverflow(Position::NONE);
    error.set_position(place);
    error
}

fn runtime(line: &mut Reader<'_>) -> EvalAltResult<Stone> {
    let value = line.value();
    let value = line.boxed(value);
    let place = line.next_position();
    match value {
        Some(value) => EvalAltResult::ErrorRuntime(value, place),
        None => EvalAltResult::ErrorOutOfMemory(place),
    }
}

fn in_call(line: &mut Reader<'_>) -> EvalAltResult<Stone> {
    let name = line.word();
    let called = call_error(line.allocator(), name, line.next_position()).ok();
    let place = line.next_position();
    match called {
        Some(called) => EvalAltResult::ErrorInFunctionCall(called, place),
        None => {
            line.lack_memory();
            EvalAltResult::ErrorOutOfMemory(place)
        }
    }
}

/// Makes an error of a `for` at a position, in a call of a name.
fn call_error(
    alloc: Global,
    name: &str,
    place: Position,
) -> Result<Boxed<FunctionCallError<Stone>>, AllocError> {
    let call = FunctionCallError {
        name: shared_text(alloc, name)?,
        source: shared_text(alloc, "")?,
        error: EvalAltResult::ErrorFor(place),
    };
    Boxed::new(alloc, call)
}

/// Tells whether a type has at most so many bytes, as `size Dynamic <= 32`.
fn fits_size(line: &mut Reader<'_>) -> &'static str {
    let size = size(line);
    line.pass_word("<=");
    if size <= line.count() {
        "true"
    } else {
        "false"
    }
}

/// Reads a type, and tells how many bytes it has.
fn size(line: &mut Reader<'_>) -> usize {
    match line.word() {
        "Dynamic" => size_of::<Dynamic<Stone>>(),
        "EvalAltResult" => size_of::<EvalAltResult<Stone>>(),
        "Result" => size_of::<Result<Dynamic<Stone>, EvalAltResult<Stone>>>(),
        _ => {
            line.want("Dynamic, EvalAltResult or Result");
            0
        }
    }
}
