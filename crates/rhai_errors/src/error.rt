//! Why a run stopped.

ghost use Rattle.std.specs.Prelude.{◌≡◌};
ghost use Rattle.rhai_errors.specs.Errors.{at_position, error_name, error_of, is_catchable, is_pseudo, is_system};
ghost use Rattle.rhai_errors.specs.Errors.{position_of, way_out_of};

use rhai_tree::position::Position;
use rhai_tree::{Boxed, Shared, Text};
use rhai_values::base::value::Dynamic;

/// Why a run stopped, or which way out it took. Ports upstream's `EvalAltResult`.
///
/// Texts, values and errors inside stand behind one pointer, so that an answer stays small; the
/// limit errors, `ErrorUnboundThis` and `ErrorOutOfMemory` need no memory to be made.
#[cycle(error)]
pub enum EvalAltResult<H> {
    ErrorVariableExists(Shared<Text>, Position),
    ErrorVariableNotFound(Shared<Text>, Position),
    ErrorModuleNotFound(Shared<Text>, Position),
    ErrorFunctionNotFound(Shared<Text>, Position),
    ErrorInFunctionCall(Boxed<FunctionCallError<H>>, Position),
    ErrorUnboundThis(Position),
    ErrorMismatchDataType(Boxed<TypeMismatch>, Position),
    ErrorArrayBounds(Boxed<Bounds>, Position),
    ErrorStringBounds(Boxed<Bounds>, Position),
    ErrorBitFieldBounds(Boxed<Bounds>, Position),
    ErrorIndexingType(Shared<Text>, Position),
    ErrorPropertyNotFound(Shared<Text>, Position),
    ErrorFor(Position),
    ErrorDataRace(Shared<Text>, Position),
    ErrorAssignmentToConstant(Shared<Text>, Position),
    ErrorDotExpr(Shared<Text>, Position),
    ErrorArithmetic(Shared<Text>, Position),
    ErrorRuntime(Boxed<Dynamic<H>>, Position),
    ErrorNonPureMethodCallOnConstant(Shared<Text>, Position),
    ErrorTooManyOperations(Position),
    ErrorTooManyVariables(Position),
    ErrorTooManyModules(Position),
    ErrorStackOverflow(Position),
    ErrorDataTooLarge(Shared<Text>, Position),
    ErrorOutOfMemory(Position),
    Exit(Boxed<Dynamic<H>>, Position),
    Return(Boxed<Dynamic<H>>, Position),
    /// The value of a `break`, and whether it is one: a `continue` is the other.
    LoopBreak(Boxed<Dynamic<H>>, bool, Position),
}

// Written by hand, so that the crates above call this where an error goes out of scope, and need not go
// through its variants there.
impl<H: Drop> Drop for EvalAltResult<H> {
    #[cycle(error)]
    fn drop(self) {
        match self {
            EvalAltResult::ErrorInFunctionCall(call, _) => drop(call),
            EvalAltResult::ErrorMismatchDataType(types, _) => drop(types),
            EvalAltResult::ErrorArrayBounds(bounds, _)
            | EvalAltResult::ErrorStringBounds(bounds, _)
            | EvalAltResult::ErrorBitFieldBounds(bounds, _) => drop(bounds),
            EvalAltResult::ErrorVariableExists(text, _)
            | EvalAltResult::ErrorVariableNotFound(text, _)
            | EvalAltResult::ErrorModuleNotFound(text, _)
            | EvalAltResult::ErrorFunctionNotFound(text, _)
            | EvalAltResult::ErrorIndexingType(text, _)
            | EvalAltResult::ErrorPropertyNotFound(text, _)
            | EvalAltResult::ErrorDataRace(text, _)
            | EvalAltResult::ErrorAssignmentToConstant(text, _)
            | EvalAltResult::ErrorDotExpr(text, _)
            | EvalAltResult::ErrorArithmetic(text, _)
            | EvalAltResult::ErrorNonPureMethodCallOnConstant(text, _)
            | EvalAltResult::ErrorDataTooLarge(text, _) => drop(text),
            EvalAltResult::ErrorRuntime(value, _)
            | EvalAltResult::Exit(value, _)
            | EvalAltResult::Return(value, _)
            | EvalAltResult::LoopBreak(value, _, _) => drop(value),
            EvalAltResult::ErrorUnboundThis(_)
            | EvalAltResult::ErrorFor(_)
            | EvalAltResult::ErrorTooManyOperations(_)
            | EvalAltResult::ErrorTooManyVariables(_)
            | EvalAltResult::ErrorTooManyModules(_)
            | EvalAltResult::ErrorStackOverflow(_)
            | EvalAltResult::ErrorOutOfMemory(_) => {}
        }
    }
}

/// An error by the way out that a run takes: by a `return`, an exit, a `break` or `continue`, each with
/// its value, or by any other error.
#[derive(Drop)]
pub enum WayOut<H> {
    Return(Boxed<Dynamic<H>>, Position),
    Exit(Boxed<Dynamic<H>>, Position),
    /// As `EvalAltResult::LoopBreak` has it.
    LoopBreak(Boxed<Dynamic<H>>, bool, Position),
    Error(EvalAltResult<H>),
}

impl<H> EvalAltResult<H> {
    /// Sorts the error by the way out that the run takes, with all that is in it. It takes no memory.
    pub fn way_out(self) -> WayOut<H>
        ensures leaves { result ≡ way_out_of self }
        ensures whole { self ≡ error_of result }
    {
        match self {
            EvalAltResult::Return(value, at) => WayOut::Return(value, at),
            EvalAltResult::Exit(value, at) => WayOut::Exit(value, at),
            EvalAltResult::LoopBreak(value, is_break, at) => WayOut::LoopBreak(value, is_break, at),
            error => WayOut::Error(error),
        }
    }

    /// Returns the position where the error stands. Ports upstream's `EvalAltResult::position`.
    pub fn position(&self) -> Position
        ensures { result ≡ position_of self.now }
    {
        match self {
            EvalAltResult::ErrorVariableExists(_, at)
            | EvalAltResult::ErrorVariableNotFound(_, at)
            | EvalAltResult::ErrorModuleNotFound(_, at)
            | EvalAltResult::ErrorFunctionNotFound(_, at)
            | EvalAltResult::ErrorInFunctionCall(_, at)
            | EvalAltResult::ErrorUnboundThis(at)
            | EvalAltResult::ErrorMismatchDataType(_, at)
            | EvalAltResult::ErrorArrayBounds(_, at)
            | EvalAltResult::ErrorStringBounds(_, at)
            | EvalAltResult::ErrorBitFieldBounds(_, at)
            | EvalAltResult::ErrorIndexingType(_, at)
            | EvalAltResult::ErrorPropertyNotFound(_, at)
            | EvalAltResult::ErrorFor(at)
            | EvalAltResult::ErrorDataRace(_, at)
            | EvalAltResult::ErrorAssignmentToConstant(_, at)
            | EvalAltResult::ErrorDotExpr(_, at)
            | EvalAltResult::ErrorArithmetic(_, at)
            | EvalAltResult::ErrorRuntime(_, at)
            | EvalAltResult::ErrorNonPureMethodCallOnConstant(_, at)
            | EvalAltResult::ErrorTooManyOperations(at)
            | EvalAltResult::ErrorTooManyVariables(at)
            | EvalAltResult::ErrorTooManyModules(at)
            | EvalAltResult::ErrorStackOverflow(at)
            | EvalAltResult::ErrorDataTooLarge(_, at)
            | EvalAltResult::ErrorOutOfMemory(at)
            | EvalAltResult::Exit(_, at)
            | EvalAltResult::Return(_, at) => *at,
            EvalAltResult::LoopBreak(_, _, at) => *at,
        }
    }

    /// Moves the error to a position. Ports upstream's `EvalAltResult::set_position`.
    pub fn set_position(&mut self, position: Position)
        ensures { self.new ≡ at_position position self.old }
    {
        match self {
            EvalAltResult::ErrorVariableExists(_, at) => *at = position,
            EvalAltResult::ErrorVariableNotFound(_, at) => *at = position,
            EvalAltResult::ErrorModuleNotFound(_, at) => *at = position,
            EvalAltResult::ErrorFunctionNotFound(_, at) => *at = position,
            EvalAltResult::ErrorInFunctionCall(_, at) => *at = position,
            EvalAltResult::ErrorUnboundThis(at) => *at = position,
            EvalAltResult::ErrorMismatchDataType(_, at) => *at = position,
            EvalAltResult::ErrorArrayBounds(_, at) => *at = position,
            EvalAltResult::ErrorStringBounds(_, at) => *at = position,
            EvalAltResult::ErrorBitFieldBounds(_, at) => *at = position,
            EvalAltResult::ErrorIndexingType(_, at) => *at = position,
            EvalAltResult::ErrorPropertyNotFound(_, at) => *at = position,
            EvalAltResult::ErrorFor(at) => *at = position,
            EvalAltResult::ErrorDataRace(_, at) => *at = position,
            EvalAltResult::ErrorAssignmentToConstant(_, at) => *at = position,
            EvalAltResult::ErrorDotExpr(_, at) => *at = position,
            EvalAltResult::ErrorArithmetic(_, at) => *at = position,
            EvalAltResult::ErrorRuntime(_, at) => *at = position,
            EvalAltResult::ErrorNonPureMethodCallOnConstant(_, at) => *at = position,
            EvalAltResult::ErrorTooManyOperations(at) => *at = position,
            EvalAltResult::ErrorTooManyVariables(at) => *at = position,
            EvalAltResult::ErrorTooManyModules(at) => *at = position,
            EvalAltResult::ErrorStackOverflow(at) => *at = position,
            EvalAltResult::ErrorDataTooLarge(_, at) => *at = position,
            EvalAltResult::ErrorOutOfMemory(at) => *at = position,
            EvalAltResult::Exit(_, at) => *at = position,
            EvalAltResult::Return(_, at) => *at = position,
            EvalAltResult::LoopBreak(_, _, at) => *at = position,
        }
    }

    /// Returns the name of the variant.
    pub fn name(&self) -> &'static str
        ensures { result.now ≡ error_name self.now }
    {
        match self {
            EvalAltResult::ErrorVariableExists(_, _) => "ErrorVariableExists",
            EvalAltResult::ErrorVariableNotFound(_, _) => "ErrorVariableNotFound",
            EvalAltResult::ErrorModuleNotFound(_, _) => "ErrorModuleNotFound",
            EvalAltResult::ErrorFunctionNotFound(_, _) => "ErrorFunctionNotFound",
            EvalAltResult::ErrorInFunctionCall(_, _) => "ErrorInFunctionCall",
            EvalAltResult::ErrorUnboundThis(_) => "ErrorUnboundThis",
            EvalAltResult::ErrorMismatchDataType(_, _) => "ErrorMismatchDataType",
            EvalAltResult::ErrorArrayBounds(_, _) => "ErrorArrayBounds",
            EvalAltResult::ErrorStringBounds(_, _) => "ErrorStringBounds",
            EvalAltResult::ErrorBitFieldBounds(_, _) => "ErrorBitFieldBounds",
            EvalAltResult::ErrorIndexingType(_, _) => "ErrorIndexingType",
            EvalAltResult::ErrorPropertyNotFound(_, _) => "ErrorPropertyNotFound",
            EvalAltResult::ErrorFor(_) => "ErrorFor",
            EvalAltResult::ErrorDataRace(_, _) => "ErrorDataRace",
            EvalAltResult::ErrorAssignmentToConstant(_, _) => "ErrorAssignmentToConstant",
            EvalAltResult::ErrorDotExpr(_, _) => "ErrorDotExpr",
            EvalAltResult::ErrorArithmetic(_, _) => "ErrorArithmetic",
            EvalAltResult::ErrorRuntime(_, _) => "ErrorRuntime",
            EvalAltResult::ErrorNonPureMethodCallOnConstant(_, _) =>
                "ErrorNonPureMethodCallOnConstant",
            EvalAltResult::ErrorTooManyOperations(_) => "ErrorTooManyOperations",
            EvalAltResult::ErrorTooManyVariables(_) => "ErrorTooManyVariables",
            EvalAltResult::ErrorTooManyModules(_) => "ErrorTooManyModules",
            EvalAltResult::ErrorStackOverflow(_) => "ErrorStackOverflow",
            EvalAltResult::ErrorDataTooLarge(_, _) => "ErrorDataTooLarge",
            EvalAltResult::ErrorOutOfMemory(_) => "ErrorOutOfMemory",
            EvalAltResult::Exit(_, _) => "Exit",
            EvalAltResult::Return(_, _) => "Return",
            EvalAltResult::LoopBreak(_, _, _) => "LoopBreak",
        }
    }

    /// Tells whether a script may catch the error. Ports upstream's `EvalAltResult::is_catchable`.
    pub fn is_catchable(&self) -> bool
        ensures { result ≡ is_catchable self.now }
    {
        !self.is_system_exception() && !self.is_pseudo_error()
    }

    /// Tells whether it is no error, but the way in which a script, a function or a loop is left. Ports
    /// upstream's `EvalAltResult::is_pseudo_error`.
    pub fn is_pseudo_error(&self) -> bool
        ensures { result ≡ is_pseudo self.now }
    {
        matches!(
            self,
            EvalAltResult::Exit(..) | EvalAltResult::Return(..) | EvalAltResult::LoopBreak(..)
        )
    }

    /// Tells whether a limit was met or memory ran out. Ports upstream's
    /// `EvalAltResult::is_system_exception`.
    pub fn is_system_exception(&self) -> bool
        ensures { result ≡ is_system self.now }
    {
        matches!(
            self,
            EvalAltResult::ErrorTooManyOperations(_)
                | EvalAltResult::ErrorTooManyVariables(_)
                | EvalAltResult::ErrorTooManyModules(_)
                | EvalAltResult::ErrorStackOverflow(_)
                | EvalAltResult::ErrorDataTooLarge(..)
                | EvalAltResult::ErrorOutOfMemory(_)
        )
    }
}

/// An error that came out of a script function.
#[cycle(error)]
pub struct FunctionCallError<H> {
    pub name: Shared<Text>,
    pub source: Shared<Text>,
    pub error: EvalAltResult<H>,
}

// Written by hand for the same reason.
impl<H: Drop> Drop for FunctionCallError<H> {
    #[cycle(error)]
    fn drop(self) {
        let FunctionCallError {
            name: _,
            source: _,
            error,
        } = self;
        drop(error);
    }
}

/// The type that was wanted, and the one that was found.
#[derive(Drop)]
pub struct TypeMismatch {
    pub wanted: Text,
    pub found: Text,
}

/// An index outside a length.
#[derive(Clone, Copy, Debug, PartialEq, Eq)]
pub struct Bounds {
    pub length: usize,
    pub index: i64,
}
