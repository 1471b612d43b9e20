//! Errors as a reader of a log sees them. No clause says what is printed.

use crate::error::{Bounds, EvalAltResult, FunctionCallError};
use rhai_values::base::value::{Dynamic, Host};
use std::fmt;
use std::fmt::{Debug, Formatter, Write};

/// The variant's name, its data and its position.
impl<H: Host> Debug for EvalAltResult<H> {
    fn fmt<W: Write>(&self, f: &mut Formatter<W>) -> fmt::Result {
        show_error(self, f)
    }
}

#[cycle(errors)]
fn show_error<H: Host, W: Write>(error: &EvalAltResult<H>, f: &mut Formatter<W>) -> fmt::Result {
    let position = error.position();
    f.write_str(error.name())?;
    f.write_str("(")?;
    show_data(error, f)?;
    write!(f, "{position:?})")
}

/// Writes what an error says beside its position.
#[cycle(errors)]
fn show_data<H: Host, W: Write>(error: &EvalAltResult<H>, f: &mut Formatter<W>) -> fmt::Result {
    match error {
        EvalAltResult::ErrorVariableExists(text, _)
        | EvalAltResult::ErrorVariableNotFound(text, _)
        | EvalAltResult::ErrorModuleNotFound(text, _)
        | EvalAltResult::ErrorFunctionNotFound(text, _)
        | EvalAltResult::ErrorIndexingType(text, _)
        | EvalAltResult::ErrorPropertyNotFound(text, _)
        | EvalAltResult::ErrorDataRace(text, _)
        | EvalAltResult::ErrorAssignmentToConstant(text, _)
        | EvalAltResult::ErrorDotExpr(text, _)
        | EvalAltResult::ErrorArithmetic(text, _)
        | EvalAltResult::ErrorNonPureMethodCallOnConstant(text, _)
        | EvalAltResult::ErrorDataTooLarge(text, _) => show_text(text.get().as_str(), f),
        EvalAltResult::ErrorInFunctionCall(call, _) => show_call(call.get(), f),
        EvalAltResult::ErrorMismatchDataType(types, _) => {
            show_text(types.get().wanted.as_str(), f)?;
            show_text(types.get().found.as_str(), f)
        }
        EvalAltResult::ErrorArrayBounds(bounds, _)
        | EvalAltResult::ErrorStringBounds(bounds, _)
        | EvalAltResult::ErrorBitFieldBounds(bounds, _) => show_bounds(bounds.get(), f),
        EvalAltResult::ErrorRuntime(value, _)
        | EvalAltResult::Exit(value, _)
        | EvalAltResult::Return(value, _) => show_value(value.get(), f),
        EvalAltResult::LoopBreak(value, is_break, _) => {
            show_value(value.get(), f)?;
            write!(f, "{is_break}, ")
        }
        _ => Ok(()),
    }
}

#[cycle(errors)]
fn show_call<H: Host, W: Write>(call: &FunctionCallError<H>, f: &mut Formatter<W>) -> fmt::Result {
    show_text(call.name.get().as_str(), f)?;
    show_text(call.source.get().as_str(), f)?;
    show_error(&call.error, f)?;
    f.write_str(", ")
}

fn show_text<W: Write>(text: &str, f: &mut Formatter<W>) -> fmt::Result {
    write!(f, "{text:?}, ")
}

fn show_value<H: Host, W: Write>(value: &Dynamic<H>, f: &mut Formatter<W>) -> fmt::Result {
    write!(f, "{value:?}, ")
}

fn show_bounds<W: Write>(bounds: &Bounds, f: &mut Formatter<W>) -> fmt::Result {
    let length = bounds.length;
    let index = bounds.index;
    write!(f, "{length}, {index}, ")
}
