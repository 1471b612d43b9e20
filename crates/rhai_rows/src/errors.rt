//! Errors as a user reads them.

use crate::maker::Maker;
use crate::sheet::Sheet;
use rhai_errors::error::{Bounds, FunctionCallError, TypeMismatch};
use rhai_errors::errors::shared_text;
use rhai_eval_base::base::{Boxed, Dynamic, EvalAltResult, Position, Shared, Text, Union};
use rhai_tables::host::Pair;
use std::alloc::{AllocError, Global};
use std::io;

/// Writes the error whose variant and parts the words tell, at line 1 and position 3. Behind `nowhere` it has
/// no position. Between two lines of it stands `\n`.
pub fn write_shown(alloc: Global, words: &str, out: &mut Vec<u8>) -> io::Result<()> {
    let (place, words) = match words.strip_prefix("nowhere ") {
        Some(words) => (Position::NONE, words),
        None => (Position::new(1, 3), words),
    };
    let (variant, parts) = words.split_once(' ').unwrap_or((words, ""));
    let mut sheet = Sheet::new(alloc);
    match sheet.maker.error(variant, parts, place) {
        Some(error) => sheet.tell_error(error),
        None => sheet.write("no error"),
    }
    sheet.hand_to(out)
}

impl Sheet {
    /// Appends an error as a user reads it, and lets go of it.
    pub fn tell_error(&mut self, error: EvalAltResult<Pair>) {
        self.read_error(&error);
        drop(error);
    }

    /// Appends an error as a user reads it. Between two lines of it stands `\n`.
    pub fn read_error(&mut self, error: &EvalAltResult<Pair>) {
        let shown = format!(in self.maker.allocator(); "{error}");
        if let Some(shown) = self.maker.kept(shown) {
            self.write_lines(shown.as_str());
        }
    }
}

impl Maker {
    /// Makes the error of a variant with its parts, None where there is no such variant or no memory.
    fn error(&mut self, variant: &str, parts: &str, at: Position) -> Option<EvalAltResult<Pair>> {
        match variant {
            "ErrorInFunctionCall" => Some(self.error_out_of_calls(parts, at)),
            "ErrorMismatchDataType" => self.mismatch(parts, at),
            "ErrorArrayBounds" | "ErrorStringBounds" | "ErrorBitFieldBounds" => {
                match self.bounds(parts) {
                    Some(bounds) => error_of_bounds(variant, bounds, at),
                    None => None,
                }
            }
            "ErrorRuntime" | "Exit" | "Return" | "LoopBreak" => match self.value(parts) {
                Some(value) => error_with_value(variant, value, parts == "break", at),
                None => None,
            },
            _ => self.error_about(variant, parts, at),
        }
    }

    /// Makes an error about a text, or one that has its position alone.
    fn error_about(
        &mut self,
        variant: &str,
        text: &str,
        at: Position,
    ) -> Option<EvalAltResult<Pair>> {
        let error = plain_error(variant, at);
        if error.is_some() {
            return error;
        }
        match self.name(text) {
            Some(text) => error_about(variant, text, at),
            None => None,
        }
    }

    /// Reads a length and an index.
    fn bounds(&mut self, parts: &str) -> Option<Boxed<Bounds>> {
        let (length, index) = parts.split_once(' ').unwrap_or((parts, ""));
        let length = length.parse().unwrap_or(0);
        let index = index.parse().unwrap_or(0);
        self.boxed(Bounds { length, index })
    }

    /// Makes `()`, 42, or the text behind `text`.
    fn value(&mut self, parts: &str) -> Option<Boxed<Dynamic<Pair>>> {
        let value = match parts.strip_prefix("text") {
            Some(text) => self.text(text.trim_start()),
            None if parts == "42" => Dynamic::new(Union::Int(42)),
            None => Dynamic::new(Union::Unit),
        };
        self.boxed(value)
    }

    /// Reads the type that is wanted and the one that was found.
    fn mismatch(&mut self, parts: &str, at: Position) -> Option<EvalAltResult<Pair>> {
        let (wanted, found) = parts.split_once(", ").unwrap_or((parts, ""));
        let types = mismatch(self.allocator(), wanted, found);
        match self.kept(types) {
            Some(types) => Some(EvalAltResult::ErrorMismatchDataType(types, at)),
            None => None,
        }
    }

    /// Makes the error that came out of all functions of these names, from the innermost on. Each name has its
    /// source behind `@` if it has one. It is an error of a variable `x` at line 2 and position 1.
    fn error_out_of_calls(&mut self, names: &str, at: Position) -> EvalAltResult<Pair> {
        let place = Position::new(2, 1);
        let mut error = match self.name("x") {
            Some(name) => EvalAltResult::ErrorVariableNotFound(name, place),
            None => EvalAltResult::ErrorOutOfMemory(place),
        };
        for called in names.split(' ') {
            error = self.error_out_of_call(called, error, at);
        }
        error
    }

    /// Makes the error that came out of a function.
    fn error_out_of_call(
        &mut self,
        called: &str,
        error: EvalAltResult<Pair>,
        at: Position,
    ) -> EvalAltResult<Pair> {
        let (name, source) = called.split_once('@').unwrap_or((called, ""));
        let call = call_error(self.allocator(), name, source, error);
        match self.kept(call) {
            Some(call) => EvalAltResult::ErrorInFunctionCall(call, at),
            None => EvalAltResult::ErrorOutOfMemory(at),
        }
    }
}

fn mismatch(alloc: Global, wanted: &str, found: &str) -> Result<Boxed<TypeMismatch>, AllocError> {
    let wanted = Text::from_str(alloc, wanted)?;
    let found = Text::from_str(alloc, found)?;
    Boxed::new(alloc, TypeMismatch { wanted, found })
}

fn call_error(
    alloc: Global,
    name: &str,
    source: &str,
    error: EvalAltResult<Pair>,
) -> Result<Boxed<FunctionCallError<Pair>>, AllocError> {
    let name = shared_text(alloc, name)?;
    let source = shared_text(alloc, source)?;
    Boxed::new(
        alloc,
        FunctionCallError {
            name,
            source,
            error,
        },
    )
}

/// Makes an error of a length and an index.
fn error_of_bounds(
    variant: &str,
    bounds: Boxed<Bounds>,
    at: Position,
) -> Option<EvalAltResult<Pair>> {
    match variant {
        "ErrorArrayBounds" => Some(EvalAltResult::ErrorArrayBounds(bounds, at)),
        "ErrorStringBounds" => Some(EvalAltResult::ErrorStringBounds(bounds, at)),
        _ => Some(EvalAltResult::ErrorBitFieldBounds(bounds, at)),
    }
}

/// Makes an error with a value, of which one says whether it is a `break`.
fn error_with_value(
    variant: &str,
    value: Boxed<Dynamic<Pair>>,
    is_break: bool,
    at: Position,
) -> Option<EvalAltResult<Pair>> {
    match variant {
        "ErrorRuntime" => Some(EvalAltResult::ErrorRuntime(value, at)),
        "Exit" => Some(EvalAltResult::Exit(value, at)),
        "Return" => Some(EvalAltResult::Return(value, at)),
        _ => Some(EvalAltResult::LoopBreak(value, is_break, at)),
    }
}

/// Makes an error that has its position alone.
fn plain_error(variant: &str, at: Position) -> Option<EvalAltResult<Pair>> {
    match variant {
        "ErrorUnboundThis" => Some(EvalAltResult::ErrorUnboundThis(at)),
        "ErrorFor" => Some(EvalAltResult::ErrorFor(at)),
        "ErrorTooManyOperations" => Some(EvalAltResult::ErrorTooManyOperations(at)),
        "ErrorTooManyVariables" => Some(EvalAltResult::ErrorTooManyVariables(at)),
        "ErrorTooManyModules" => Some(EvalAltResult::ErrorTooManyModules(at)),
        "ErrorStackOverflow" => Some(EvalAltResult::ErrorStackOverflow(at)),
        "ErrorOutOfMemory" => Some(EvalAltResult::ErrorOutOfMemory(at)),
        _ => None,
    }
}

/// Makes an error about a text.
fn error_about(variant: &str, text: Shared<Text>, at: Position) -> Option<EvalAltResult<Pair>> {
    match variant {
        "ErrorVariableExists" => Some(EvalAltResult::ErrorVariableExists(text, at)),
        "ErrorVariableNotFound" => Some(EvalAltResult::ErrorVariableNotFound(text, at)),
        "ErrorModuleNotFound" => Some(EvalAltResult::ErrorModuleNotFound(text, at)),
        "ErrorFunctionNotFound" => Some(EvalAltResult::ErrorFunctionNotFound(text, at)),
        "ErrorIndexingType" => Some(EvalAltResult::ErrorIndexingType(text, at)),
        "ErrorPropertyNotFound" => Some(EvalAltResult::ErrorPropertyNotFound(text, at)),
        "ErrorDataRace" => Some(EvalAltResult::ErrorDataRace(text, at)),
        "ErrorAssignmentToConstant" => Some(EvalAltResult::ErrorAssignmentToConstant(text, at)),
        "ErrorDotExpr" => Some(EvalAltResult::ErrorDotExpr(text, at)),
        "ErrorArithmetic" => Some(EvalAltResult::ErrorArithmetic(text, at)),
        "ErrorNonPureMethodCallOnConstant" => Some(EvalAltResult::ErrorNonPureMethodCallOnConstant(
            text, at,
        )),
        "ErrorDataTooLarge" => Some(EvalAltResult::ErrorDataTooLarge(text, at)),
        _ => None,
    }
}
