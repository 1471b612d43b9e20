//! Errors as a user reads them, in the manner of upstream's `Display` of `EvalAltResult`. No clause says
//! what is written, and nothing is allocated.

use crate::error::{Bounds, EvalAltResult, FunctionCallError, TypeMismatch};
use rhai_tree::position::Position;
use rhai_tree::{Shared, Text};
use rhai_values::base::value::{Dynamic, Host, Union};
use std::error::Error;
use std::fmt;
use std::fmt::{Display, Formatter, Write};

impl<H: Host> Error for EvalAltResult<H> {}

/// What went wrong, and behind it in round brackets where, if it stands somewhere.
impl<H: Host> Display for EvalAltResult<H> {
    fn fmt<W: Write>(&self, f: &mut Formatter<W>) -> fmt::Result {
        write_error(self, f)
    }
}

#[cycle(writing)]
fn write_error<H: Host, W: Write>(error: &EvalAltResult<H>, f: &mut Formatter<W>) -> fmt::Result {
    match error {
        EvalAltResult::ErrorInFunctionCall(call, _) => write_call(call.get(), f)?,
        error => write_message(error, f)?,
    }
    write_where(error.position(), f)
}

/// Writes the error of a body with its position, and then the function that it came out of. The function
/// stands on a line of its own.
#[cycle(writing)]
fn write_call<H: Host, W: Write>(call: &FunctionCallError<H>, f: &mut Formatter<W>) -> fmt::Result {
    write_error(&call.error, f)?;
    let name = call.name.get().as_str();
    if name.starts_with("anon$") {
        f.write_str("\nin call to closure")?;
    } else {
        write!(f, "\nin call to function '{name}'")?;
    }
    match call.source.get().as_str() {
        "" => Ok(()),
        source => write!(f, " @ '{source}'"),
    }
}

fn write_where<W: Write>(place: Position, f: &mut Formatter<W>) -> fmt::Result {
    if place.is_none() {
        Ok(())
    } else {
        write!(f, " ({place})")
    }
}

/// Writes an error without its position; one that came out of a function is written by `write_call`.
fn write_message<H: Host, W: Write>(error: &EvalAltResult<H>, f: &mut Formatter<W>) -> fmt::Result {
    match error {
        EvalAltResult::ErrorVariableExists(name, _) => named("Variable already defined", name, f),
        EvalAltResult::ErrorVariableNotFound(name, _) => named("Variable not found", name, f),
        EvalAltResult::ErrorModuleNotFound(name, _) => named("Module not found", name, f),
        EvalAltResult::ErrorFunctionNotFound(name, _) => named("Function not found", name, f),
        EvalAltResult::ErrorInFunctionCall(_, _) => Ok(()),
        EvalAltResult::ErrorUnboundThis(_) => f.write_str("'this' not bound"),
        EvalAltResult::ErrorMismatchDataType(types, _) => write_types(types.get(), f),
        EvalAltResult::ErrorArrayBounds(bounds, _) => write_bounds(&OF_ARRAYS, bounds.get(), f),
        EvalAltResult::ErrorStringBounds(bounds, _) => write_bounds(&OF_STRINGS, bounds.get(), f),
        EvalAltResult::ErrorBitFieldBounds(bounds, _) => write_bits(bounds.get(), f),
        EvalAltResult::ErrorIndexingType(types, _) => named("Indexer unavailable", types, f),
        EvalAltResult::ErrorPropertyNotFound(name, _) => named("Property not found", name, f),
        EvalAltResult::ErrorFor(_) => f.write_str("For loop expects iterable type"),
        EvalAltResult::ErrorDataRace(name, _) => write_race(name.get().as_str(), f),
        EvalAltResult::ErrorAssignmentToConstant(name, _) => write_constant(name.get().as_str(), f),
        EvalAltResult::ErrorDotExpr(name, _) => write_dot(name.get().as_str(), f),
        EvalAltResult::ErrorArithmetic(text, _) => write_arithmetic(text.get().as_str(), f),
        EvalAltResult::ErrorRuntime(value, _) => write_runtime(value.get(), f),
        EvalAltResult::ErrorNonPureMethodCallOnConstant(name, _) => write_non_pure(
            name.get().as_str(),
            f,
        ),
        EvalAltResult::ErrorTooManyOperations(_) => f.write_str("Too many operations"),
        EvalAltResult::ErrorTooManyVariables(_) => f.write_str("Too many variables defined"),
        EvalAltResult::ErrorTooManyModules(_) => f.write_str("Too many modules imported"),
        EvalAltResult::ErrorStackOverflow(_) => f.write_str("Stack overflow"),
        EvalAltResult::ErrorDataTooLarge(what, _) => write_too_large(what.get().as_str(), f),
        EvalAltResult::ErrorOutOfMemory(_) => f.write_str("Out of memory"),
        EvalAltResult::Exit(_, _) => f.write_str("Script exited"),
        EvalAltResult::Return(_, _) => f.write_str("NOT AN ERROR - function returns value"),
        EvalAltResult::LoopBreak(_, true, _) => f.write_str("'break' must be within a loop"),
        EvalAltResult::LoopBreak(_, false, _) => f.write_str("'continue' must be within a loop"),
    }
}

fn named<W: Write>(what: &str, name: &Shared<Text>, f: &mut Formatter<W>) -> fmt::Result {
    f.write_str(what)?;
    f.write_str(": ")?;
    f.write_str(name.get().as_str())
}

fn write_types<W: Write>(types: &TypeMismatch, f: &mut Formatter<W>) -> fmt::Result {
    match (types.found.as_str(), types.wanted.as_str()) {
        ("", wanted) => write!(f, "Data type incorrect, expecting {wanted}"),
        (found, "") => write!(f, "Data type incorrect: {found}"),
        (found, wanted) => write!(f, "Data type incorrect: {found} (expecting {wanted})"),
    }
}

/// What an index is of, in the words of its error.
struct Indexed {
    start: &'static str,
    whole: &'static str,
    part: &'static str,
}

const OF_ARRAYS: Indexed = Indexed {
    start: "Array index ",
    whole: "array",
    part: "element",
};

const OF_STRINGS: Indexed = Indexed {
    start: "String index ",
    whole: "string",
    part: "character",
};

fn write_bounds<W: Write>(indexed: &Indexed, bounds: &Bounds, f: &mut Formatter<W>) -> fmt::Result {
    let Indexed { start, whole, part } = *indexed;
    let Bounds { length, index } = *bounds;
    write!(f, "{start}{index} out of bounds: ")?;
    match length {
        0 => write!(f, "{whole} is empty"),
        1 => write!(f, "only 1 {part} in {whole}"),
        _ => write!(f, "only {length} {part}s in {whole}"),
    }
}

fn write_bits<W: Write>(bounds: &Bounds, f: &mut Formatter<W>) -> fmt::Result {
    let Bounds { length, index } = *bounds;
    write!(
        f,
        "Bit-field index {index} out of bounds: only {length} bits in bit-field"
    )
}

fn write_race<W: Write>(name: &str, f: &mut Formatter<W>) -> fmt::Result {
    match name {
        "" => f.write_str("Data race detected"),
        name => write!(f, "Data race detected on variable '{name}'"),
    }
}

fn write_constant<W: Write>(name: &str, f: &mut Formatter<W>) -> fmt::Result {
    match name {
        "" => f.write_str("Cannot modify constant"),
        name => write!(f, "Cannot modify constant: {name}"),
    }
}

fn write_dot<W: Write>(name: &str, f: &mut Formatter<W>) -> fmt::Result {
    match name {
        "" => f.write_str("Malformed dot expression"),
        name => write!(f, "Unknown property '{name}'"),
    }
}

fn write_arithmetic<W: Write>(text: &str, f: &mut Formatter<W>) -> fmt::Result {
    match text {
        "" => f.write_str("Arithmetic error"),
        text => f.write_str(text),
    }
}

fn write_too_large<W: Write>(what: &str, f: &mut Formatter<W>) -> fmt::Result {
    write!(f, "{what} exceeds maximum limit")
}

fn write_runtime<H: Host, W: Write>(value: &Dynamic<H>, f: &mut Formatter<W>) -> fmt::Result {
    match &value.value {
        Union::Unit => f.write_str("Runtime error"),
        Union::Str(text) if text.get().is_empty() => f.write_str("Runtime error"),
        _ => write!(f, "Runtime error: {value}"),
    }
}

/// Writes that a native is not pure and was kept from a constant. It is a method, or what a property or
/// an index goes through.
fn write_non_pure<W: Write>(name: &str, f: &mut Formatter<W>) -> fmt::Result {
    if name == "index$get$" {
        f.write_str("Non-pure indexer cannot be accessed on constant")
    } else if name == "index$set$" {
        f.write_str("Cannot assign to indexer of constant")
    } else if let Some(property) = name.strip_prefix("get$") {
        write!(
            f,
            "Non-pure property '{property}' cannot be accessed on constant"
        )
    } else if let Some(property) = name.strip_prefix("set$") {
        write!(f, "Cannot modify property '{property}' of constant")
    } else {
        write!(f, "Non-pure method '{name}' cannot be called on constant")
    }
}
