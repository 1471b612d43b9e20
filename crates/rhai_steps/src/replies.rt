//! Built-in operators and natives: what a call does without going down the tree.

ghost use Rattle.std.specs.Prelude.{◌≡◌, ◌<◌, ◌≤◌, ◌+◌, ◌∷◌, ◌++◌, [], Some, IfOk, IfSome, OnOk};
ghost use Rattle.std.specs.Prelude.{is_some, None, true, false, codes};
ghost use Rattle.std.specs.String.{string_bytes};
ghost use Rattle.rhai_errors.specs.Errors.{indexing_text as indexing_text_of, is_out_of_memory};
ghost use Rattle.rhai_values.specs.Cells.{cells_of};
ghost use Rattle.rhai_errors.specs.declared.error.EvalAltResult.TheVariants as error;
ghost use Rattle.rhai_errors.specs.Native.{Missing, reply_of};
ghost use Rattle.rhai_operators.specs.Answers.{HasMemory};
ghost use Rattle.rhai_machine.specs.language.State.{Answers, HasMemory as WithMemory};
ghost use Rattle.rhai_machine.specs.language.Calls.{applied as applied_at, builtin_of as builtin_for};
ghost use Rattle.rhai_machine.specs.language.Calls.{not_found as not_found_at};
ghost use Rattle.rhai_machine.specs.language.Calls.{with_position, replied as replied_at};
ghost use Rattle.rhai_machine.specs.language.Calls.{signature as signature_of, sized as sized_at, types_of};
ghost use Rattle.rhai_machine.specs.language.Calls.{names_indexer, property_named, second};
ghost use Rattle.rhai_steps.specs.Operations.{operation_of};
ghost use Rattle.rhai_values.specs.TypeNames.{type_name_of};
ghost use Rattle.std.specs.Option.{option_copied};

use crate::operation::Operation;
use rhai_errors::error::EvalAltResult;
use rhai_errors::errors::{data_too_large, indexing_text, shared_text};
use rhai_errors::table::Answer;
use rhai_operators::{builtin_binary, builtin_unary};
use rhai_state::session::Session;
use rhai_tree::position::Position;
use rhai_tree::token::Token;
use rhai_tree::{Items, Shared, Text};
use rhai_values::base::value::{Dynamic, Host};
use rhai_values::cells::CellStore;
use std::alloc::{AllocError, Global};

/// Adds a further type to a row of types.
fn push_type(text: &mut String, name: &str) -> Result<(), AllocError>
    ensures { OnOk result (string_bytes text.new ≡ string_bytes text.old ++ (codes ", " ++ name.now)) }
{
    text.push_str(", ")?;
    text.push_str(name)
}

/// Writes a function's name and the first of its arguments' types.
fn open_signature(alloc: Global, name: &str, first: &str) -> Result<String, AllocError>
    ensures { IfOk result (λ text. string_bytes text ≡ name.now ++ (codes " (" ++ first.now)) }
{
    let mut text = String::from_str(alloc, name)?;
    text.push_str(" (")?;
    text.push_str(first)?;
    Ok(text)
}

/// Writes a function's name with the types of its arguments in brackets.
fn signature<H: Host>(
    alloc: Global,
    cells: &CellStore<H>,
    name: &str,
    first: &Dynamic<H>,
    rest: &[Dynamic<H>],
) -> Result<Shared<Text>, AllocError>
    ensures { IfOk result (λ text. text ≡ signature_of name.now
        (types_of H.name_of (cells_of cells.now) (first.now ∷ rest.now))) }
{
    let mut text = open_signature(alloc, name, first.type_name(cells))?;
    'others: for value in rest {
        push_type(&mut text, value.type_name(cells))?;
    }
    text.push_str(")")?;
    Shared::new(alloc, Text::from_string(text))
}

/// Finds the property that a getter or a setter is of, by its name.
fn property_of(name: &str) -> Option<&str>
    ensures { option_copied result ≡ property_named name.now }
{
    match name.strip_prefix("get$") {
        Some(property) => Some(property),
        None => name.strip_prefix("set$"),
    }
}

/// Tells whether a name is an indexer's.
fn is_indexer(name: &str) -> bool
    ensures { result ≡ names_indexer name.now }
{
    name == "index$get$" || name == "index$set$"
}

/// Builds the error of a property that is not there.
fn unknown_property<H>(alloc: Global, property: &str, pos: Position) -> EvalAltResult<H>
    ensures { is_out_of_memory result ≡ false → result ≡ error.ErrorDotExpr property.now pos }
{
    match shared_text(alloc, property) {
        Ok(text) => EvalAltResult::ErrorDotExpr(text, pos),
        Err(_) => EvalAltResult::ErrorOutOfMemory(pos),
    }
}

/// Writes the types of a value and of the index behind it, the empty text where there is none.
fn indexed_types<H: Host>(
    alloc: Global,
    cells: &CellStore<H>,
    object: &Dynamic<H>,
    rest: &[Dynamic<H>],
) -> Result<Shared<Text>, AllocError>
    ensures { IfOk result (λ text. text ≡ indexing_text_of
        (type_name_of H.name_of (cells_of cells.now) object.now)
        (second (types_of H.name_of (cells_of cells.now) (object.now ∷ rest.now)))) }
{
    let index = if rest.len() == 0 {
        ""
    } else {
        rest[0].type_name(cells)
    };
    let text = indexing_text(alloc, object.type_name(cells), index)?;
    Shared::new(alloc, text)
}

/// Builds the error that there is no function of a name that takes these arguments.
#[cold]
#[inline(never)]
pub fn function_not_found<H: Host>(
    alloc: Global,
    cells: &CellStore<H>,
    name: &str,
    first: &Dynamic<H>,
    rest: &[Dynamic<H>],
    pos: Position,
) -> EvalAltResult<H>
    ensures { is_out_of_memory result ≡ false → result ≡ error.ErrorFunctionNotFound
        (signature_of name.now (types_of H.name_of (cells_of cells.now) (first.now ∷ rest.now))) pos }
{
    match signature(alloc, cells, name, first, rest) {
        Ok(text) => EvalAltResult::ErrorFunctionNotFound(text, pos),
        Err(_) => EvalAltResult::ErrorOutOfMemory(pos),
    }
}

/// Builds the error that no native takes these arguments. A getter or a setter is of a property that is not
/// there, an indexer's values do not go together, and of any other name, and of a number, there is no such
/// function.
#[cold]
#[inline(never)]
fn not_found<H: Host>(
    alloc: Global,
    cells: &CellStore<H>,
    name: &str,
    by_number: bool,
    first: &Dynamic<H>,
    rest: &[Dynamic<H>],
    pos: Position,
) -> EvalAltResult<H>
    ensures { is_out_of_memory result ≡ false → result ≡ not_found_at H.name_of (cells_of cells.now)
        name.now by_number (first.now ∷ rest.now) pos }
{
    if by_number {
        return function_not_found(alloc, cells, name, first, rest, pos);
    }
    if let Some(property) = property_of(name) {
        return unknown_property(alloc, property, pos);
    }
    if is_indexer(name) {
        return match indexed_types(alloc, cells, first, rest) {
            Ok(text) => EvalAltResult::ErrorIndexingType(text, pos),
            Err(_) => EvalAltResult::ErrorOutOfMemory(pos),
        };
    }
    function_not_found(alloc, cells, name, first, rest, pos)
}

/// Writes a function's name with no argument.
fn bare_signature(alloc: Global, name: &str) -> Result<Shared<Text>, AllocError>
    ensures { IfOk result (λ text. text ≡ signature_of name.now []) }
{
    let mut text = open_signature(alloc, name, "")?;
    text.push_str(")")?;
    Shared::new(alloc, Text::from_string(text))
}

/// Writes the types of a value and of an index, neither of which is there.
fn no_types(alloc: Global) -> Result<Shared<Text>, AllocError>
    ensures { IfOk result (λ text. text ≡ indexing_text_of [] []) }
{
    let text = indexing_text(alloc, "", "")?;
    Shared::new(alloc, text)
}

/// Builds the error that there is no function of a name that takes no argument.
pub fn nullary_function_not_found<H>(alloc: Global, name: &str, pos: Position) -> EvalAltResult<H>
    ensures { is_out_of_memory result ≡ false → result ≡ error.ErrorFunctionNotFound
        (signature_of name.now []) pos }
{
    match bare_signature(alloc, name) {
        Ok(text) => EvalAltResult::ErrorFunctionNotFound(text, pos),
        Err(_) => EvalAltResult::ErrorOutOfMemory(pos),
    }
}

/// Builds the error that no native of a name, or of a number, takes no argument.
#[cold]
#[inline(never)]
fn nullary_native_not_found<H>(
    alloc: Global,
    name: &str,
    by_number: bool,
    pos: Position,
) -> EvalAltResult<H>
    ensures { (host : _) (cells : _) → is_out_of_memory result ≡ false → result ≡ not_found_at host cells
        name.now by_number [] pos }
{
    if by_number {
        return nullary_function_not_found(alloc, name, pos);
    }
    if let Some(property) = property_of(name) {
        return unknown_property(alloc, property, pos);
    }
    if is_indexer(name) {
        return match no_types(alloc) {
            Ok(text) => EvalAltResult::ErrorIndexingType(text, pos),
            Err(_) => EvalAltResult::ErrorOutOfMemory(pos),
        };
    }
    nullary_function_not_found(alloc, name, pos)
}

/// Gives a native's fault the position of the call, where it has none of its own.
pub fn position_if_none<H: Host>(error: EvalAltResult<H>, pos: Position) -> EvalAltResult<H>
    ensures { result ≡ with_position pos error }
{
    let mut error = error;
    if error.position().is_none() {
        error.set_position(pos);
    }
    error
}

/// Computes what a built-in operator gives for one operand or two, None where there is no such built-in.
fn builtin<H: Host>(
    alloc: Global,
    token: Option<Token>,
    first: &Dynamic<H>,
    rest: &[Dynamic<H>],
) -> Option<Result<Dynamic<H>, EvalAltResult<H>>>
    ensures { HasMemory result → result ≡ builtin_for token (first.now ∷ rest.now) }
{
    let token = token?;
    match rest {
        [] => builtin_unary(alloc, token, first),
        [second] => builtin_binary(alloc, token, first, second),
        _ => None,
    }
}

/// Refuses a value whose data is too large. Ports upstream's `check_data_size`.
pub fn sized<H: Host>(
    session: &Session<'_, H>,
    value: Dynamic<H>,
    pos: Position,
) -> Result<Dynamic<H>, EvalAltResult<H>>
    ensures { Answers result (sized_at session.now.limits value pos) }
{
    match value.exceeds(
        session.limits.max_string_size,
        session.limits.max_array_size,
        session.limits.max_map_size,
    ) {
        None => Ok(value),
        Some(fault) => Err(data_too_large(session.alloc, fault, pos)),
    }
}

/// Turns what a built-in operator gave into the answer at the operator.
pub fn applied<H: Host>(
    session: &Session<'_, H>,
    outcome: Result<Dynamic<H>, EvalAltResult<H>>,
    pos: Position,
) -> Result<Dynamic<H>, EvalAltResult<H>>
    ensures { Answers result (applied_at session.now.limits outcome pos) }
{
    match outcome {
        Ok(value) => sized(session, value, pos),
        Err(error) => {
            let mut error = error;
            error.set_position(pos);
            Err(error)
        }
    }
}

/// Answers a call whose native is missing: by the built-in, or that there is no such function.
fn answer_missing<H: Host>(
    session: &Session<'_, H>,
    cells: &CellStore<H>,
    operation: &Operation<'_>,
    by_number: bool,
    first: &Dynamic<H>,
    rest: &[Dynamic<H>],
) -> Result<Dynamic<H>, EvalAltResult<H>>
    ensures { Answers result (replied_at session.now.limits H.name_of Missing (Some first.now) rest.now
        (operation_of operation.now) by_number (cells_of cells.now)) }
{
    match builtin(session.alloc, operation.token, first, rest) {
        Some(outcome) => applied(session, outcome, operation.at),
        None => Err(not_found(
            session.alloc,
            cells,
            operation.name,
            by_number,
            first,
            rest,
            operation.at,
        )),
    }
}

/// Turns a native's answer into what the call comes to. The cells are those of the moment when it is told;
/// the first argument is what the native left of it.
pub fn replied<H: Host>(
    session: &Session<'_, H>,
    cells: &CellStore<H>,
    answer: Answer<H>,
    operation: &Operation<'_>,
    by_number: bool,
    first: &Dynamic<H>,
    rest: &[Dynamic<H>],
) -> Result<Dynamic<H>, EvalAltResult<H>>
    ensures told { IfSome (reply_of answer) (λ reply. Answers result
        (replied_at session.now.limits H.name_of reply (Some first.now) rest.now
        (operation_of operation.now) by_number (cells_of cells.now))) }
    ensures memory { WithMemory result → is_some (reply_of answer) ≡ true }
{
    match answer {
        Answer::Missing => { answer_missing(session, cells, operation, by_number, first, rest) }
        Answer::Value(value) => sized(session, value, operation.at),
        Answer::Fault(error) => Err(position_if_none(error, operation.at)),
        Answer::NoMemory => Err(EvalAltResult::ErrorOutOfMemory(operation.at)),
    }
}

/// Turns the answer of a native that was called without arguments into what the call comes to.
pub fn settle_lone_reply<H: Host>(
    session: &Session<'_, H>,
    answer: Answer<H>,
    operation: &Operation<'_>,
    by_number: bool,
) -> Result<Dynamic<H>, EvalAltResult<H>>
    ensures told { (cells : _) → IfSome (reply_of answer) (λ reply. Answers result
        (replied_at session.now.limits H.name_of reply None [] (operation_of operation.now)
        by_number cells)) }
    ensures memory { WithMemory result → is_some (reply_of answer) ≡ true }
{
    match answer {
        Answer::Missing => Err(nullary_native_not_found(
            session.alloc,
            operation.name,
            by_number,
            operation.at,
        )),
        Answer::Value(value) => sized(session, value, operation.at),
        Answer::Fault(error) => Err(position_if_none(error, operation.at)),
        Answer::NoMemory => Err(EvalAltResult::ErrorOutOfMemory(operation.at)),
    }
}
