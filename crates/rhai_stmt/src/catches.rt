//! What a `catch` makes of an error. Ports these parts of `Stmt::TryCatch` of upstream's `eval/stmt.rs`;
//! the contracts cite the machine's definitions.

ghost use Rattle.std.specs.Prelude.{◌≡◌, ◌++◌, IfOk, List, Ok, OnErr, OnOk, Option, [], codes, map, option_map, pos};
ghost use Rattle.std.specs.Option.{option_copied};
ghost use Rattle.rhai_tree.specs.Lookup.{with_entry};
ghost use Rattle.rhai_values.specs.Cells.{cells_of};
ghost use Rattle.rhai_values.specs.Copy.{plain};
ghost use Rattle.rhai_values.specs.declared.base.value.Union.TheVariants as value;
ghost use Rattle.rhai_errors.specs.Errors.{position_of};
ghost use Rattle.rhai_machine.specs.language.State.{Answers};
ghost use Rattle.rhai_machine.specs.language.Values.{through};
ghost use Rattle.rhai_machine.specs.language.Caught.{caught_value as value_caught, error_map as map_of, is_unit_seen};
ghost use Rattle.rhai_machine.specs.language.Caught.{message_of as message_in, number_value, raised as raised_by, raised_if};
ghost use Rattle.rhai_machine.specs.language.Caught.{text_of_error, text_value, thrown as thrown_by, with_known};

use rhai_errors::error::EvalAltResult;
use rhai_tree::position::Position;
use rhai_tree::{Boxed, Shared, Table, Text};
use rhai_values::base::value::{Dynamic, Host, Union};
use rhai_values::cells::CellStore;
use std::alloc::{AllocError, Global};

/// Returns the value that an error throws, itself or inside of function calls.
fn thrown<H>(error: &EvalAltResult<H>) -> Option<&Dynamic<H>>
    ensures { option_copied result ≡ thrown_by error.now }
{
    match error {
        EvalAltResult::ErrorInFunctionCall(call, _) => thrown(&call.get().error),
        EvalAltResult::ErrorRuntime(value, _) => Some(value.get()),
        _ => None,
    }
}

/// Returns the first text of an error, where it has one. Of a call that is the function's name, of two types
/// the one that was wanted.
fn text_of<H>(error: &EvalAltResult<H>) -> Option<&Text>
    ensures { option_copied result ≡ text_of_error error.now }
{
    match error {
        EvalAltResult::ErrorVariableExists(text, _)
        | EvalAltResult::ErrorVariableNotFound(text, _)
        | EvalAltResult::ErrorModuleNotFound(text, _)
        | EvalAltResult::ErrorFunctionNotFound(text, _)
        | EvalAltResult::ErrorIndexingType(text, _)
        | EvalAltResult::ErrorPropertyNotFound(text, _)
        | EvalAltResult::ErrorDataRace(text, _)
        | EvalAltResult::ErrorAssignmentToConstant(text, _)
        | EvalAltResult::ErrorDotExpr(text, _)
        | EvalAltResult::ErrorArithmetic(text, _)
        | EvalAltResult::ErrorNonPureMethodCallOnConstant(text, _)
        | EvalAltResult::ErrorDataTooLarge(text, _) => Some(text.get()),
        EvalAltResult::ErrorInFunctionCall(call, _) => Some(call.get().name.get()),
        EvalAltResult::ErrorMismatchDataType(types, _) => Some(&types.get().wanted),
        _ => None,
    }
}

/// Builds the message of an error: its name, and its first text where it has one.
fn message_of<H>(alloc: Global, error: &EvalAltResult<H>) -> Result<Text, AllocError>
    ensures { IfOk result (λ text. text ≡ message_in error.now) }
{
    let mut message = String::from_str(alloc, error.name())?;
    if let Some(text) = text_of(error) {
        message.push_str(": ")?;
        message.push_str(text.as_str())?;
    }
    Ok(Text::from_string(message))
}

/// The map of an error while it is made.
#[derive(Drop)]
struct ErrorMap<H> {
    alloc: Global,
    entries: Table<Dynamic<H>>,
}

impl<H: Host> ErrorMap<H> {
    /// Adds an entry.
    fn insert(&mut self, key: &str, value: Dynamic<H>) -> Result<(), AllocError>
        ensures { OnOk result (self.new.entries ≡ with_entry key.now value self.old.entries) }
    {
        let key = Shared::new(self.alloc, Text::from_str(self.alloc, key)?)?;
        self.entries.insert(key, value)
    }

    /// Adds a number, where it is known.
    fn insert_number(&mut self, key: &str, number: Option<u16>) -> Result<(), AllocError>
        ensures { OnOk result (self.new.entries
            ≡ with_known key.now (option_map number_value number) self.old.entries) }
    {
        match number {
            Some(number) => self.insert(key, Dynamic::new(Union::Int(i64::from(number)))),
            None => Ok(()),
        }
    }

    /// Adds a text.
    fn insert_text(&mut self, key: &str, text: Text) -> Result<(), AllocError>
        ensures { OnOk result (self.new.entries ≡ with_entry key.now (text_value text) self.old.entries) }
    {
        let text = Shared::new(self.alloc, text)?;
        self.insert(key, Dynamic::new(Union::Str(text)))
    }

    /// Adds the name of the source, where it has one.
    fn insert_source(&mut self, source: &Option<Shared<Text>>) -> Result<(), AllocError>
        ensures { OnOk result (self.new.entries
            ≡ with_known (codes "source") (option_map text_value source.now) self.old.entries) }
    {
        match source {
            Some(text) => {
                let text = text.share()?;
                self.insert("source", Dynamic::new(Union::Str(text)))
            }
            None => Ok(()),
        }
    }
}

/// Builds the map of an error.
fn error_map<H: Host>(
    alloc: Global,
    error: &EvalAltResult<H>,
    source: &Option<Shared<Text>>,
) -> Result<Dynamic<H>, AllocError>
    ensures { IfOk result (λ map. map ≡ map_of source.now error.now) }
{
    let mut map = ErrorMap {
        alloc,
        entries: Table::new(alloc),
    };
    map.insert_text("error", Text::from_str(alloc, error.name())?)?;
    map.insert_text("message", message_of(alloc, error)?)?;
    map.insert_number("line", error.position().line())?;
    map.insert_number("position", error.position().position())?;
    map.insert_source(source)?;
    Ok(Dynamic::new(Union::Map(Boxed::new(alloc, map.entries)?)))
}

/// Makes the value of a catch variable: a copy of what was thrown, or a map of the error.
///
/// # Errors
/// `ErrorOutOfMemory` at the position.
pub fn caught_value<H: Host>(
    alloc: Global,
    error: &EvalAltResult<H>,
    source: &Option<Shared<Text>>,
    pos: Position,
) -> Result<Dynamic<H>, EvalAltResult<H>>
    ensures { Answers result (Ok (value_caught (thrown_by error.now) source.now error.now)) }
{
    let made = match thrown(error) {
        Some(value) => value.try_clone(alloc),
        None => error_map(alloc, error, source),
    };
    match made {
        Ok(value) => Ok(value),
        Err(AllocError) => Err(EvalAltResult::ErrorOutOfMemory(pos)),
    }
}

/// Tells whether an error throws `()`, which in a branch raises the caught error again. A value in a cell
/// that is held counts as none.
fn throws_unit<H: Host>(cells: &CellStore<H>, error: &EvalAltResult<H>) -> bool
    ensures { (caught : _) → raised_by (cells_of cells.now) caught error.now
        ≡ raised_if result caught error.now }
{
    let EvalAltResult::ErrorRuntime(value, _) = error else {
        return false;
    };
    match &value.get().value {
        Union::Unit => true,
        Union::Cell(id) => match cells.get(*id) {
            Some(value) => matches!(value.value, Union::Unit),
            None => false,
        },
        _ => false,
    }
}

/// Returns the error that comes out of a branch which an error left. Where that error throws `()`, it is the
/// caught one at the position of the other, and else the error itself.
pub fn raised<H: Host>(
    cells: &CellStore<H>,
    caught: EvalAltResult<H>,
    error: EvalAltResult<H>,
) -> EvalAltResult<H>
    ensures { result ≡ raised_by (cells_of cells.now) caught error }
{
    let is_again = throws_unit(cells, &error);
    if !is_again {
        return error;
    }
    let mut caught = caught;
    caught.set_position(error.position());
    caught
}
