//! Values as the evaluator makes them and looks at them.

ghost use Rattle.std.specs.Prelude.{◌≡◌, ◌∷◌, [], Ok, true, false, IfErr, IfOk};
ghost use Rattle.rhai_values.specs.Cells.{cells_of, value_of_cell};
ghost use Rattle.rhai_values.specs.Copy.{copy_of, plain};
ghost use Rattle.rhai_values.specs.Literals.{value_of_literal};
ghost use Rattle.rhai_values.specs.declared.base.value.Union.TheVariants as kind;
ghost use Rattle.rhai_machine.specs.language.State.{Answers};
ghost use Rattle.rhai_machine.specs.language.Values.{bool_value as truth_of, copied, flat, is_handle};
ghost use Rattle.rhai_machine.specs.language.Values.{is_truth, through, truth, truth_union};
ghost use Rattle.rhai_machine.specs.language.Values.{unit_value as unit, used};
ghost use Rattle.rhai_steps.specs.Values.{unit_seen};

use rhai_errors::error::EvalAltResult;
use rhai_errors::errors::{data_race, mismatch};
use rhai_few::Few;
use rhai_tree::literal::Literal;
use rhai_tree::position::Position;
use rhai_tree::{Items, Shared, Text};
use rhai_values::base::literal::literal_value;
use rhai_values::base::value::{CellId, Dynamic, Host, Union};
use rhai_values::cells::CellStore;
use std::alloc::Global;

/// Makes `()`.
pub fn unit_value<H>() -> Dynamic<H>
    ensures { result ≡ unit }
{
    Dynamic::new(Union::Unit)
}

/// Makes a value of a truth value.
pub fn bool_value<H>(value: bool) -> Dynamic<H>
    ensures { result ≡ truth_of value }
{
    Dynamic::new(Union::Bool(value))
}

/// Makes a value of an integer.
pub fn int_value<H>(value: &i64) -> Dynamic<H>
    ensures { result ≡ plain (kind.Int value.now) }
{
    Dynamic::new(Union::Int(*value))
}

/// Makes a value of a character.
pub fn char_value<H>(letter: char) -> Dynamic<H>
    ensures { result ≡ plain (kind.Char letter) }
{
    Dynamic::new(Union::Char(letter))
}

/// Makes a value of a text of the tree, which it shares with the tree.
pub fn text_value<H>(text: &Shared<Text>, pos: Position) -> Result<Dynamic<H>, EvalAltResult<H>>
    ensures { Answers result (Ok (plain (kind.Str text.now))) }
{
    match text.share() {
        Ok(text) => Ok(Dynamic::new(Union::Str(text))),
        Err(_) => Err(EvalAltResult::ErrorOutOfMemory(pos)),
    }
}

/// Makes the value of a constant of the tree.
pub fn constant_value<H: Host>(
    alloc: Global,
    literal: &Literal,
    pos: Position,
) -> Result<Dynamic<H>, EvalAltResult<H>>
    ensures { Answers result (Ok (value_of_literal literal.now)) }
{
    match literal_value(alloc, literal) {
        Ok(value) => Ok(value),
        Err(_) => Err(EvalAltResult::ErrorOutOfMemory(pos)),
    }
}

/// Copies a value.
pub fn copy<H: Host>(
    alloc: Global,
    value: &Dynamic<H>,
    pos: Position,
) -> Result<Dynamic<H>, EvalAltResult<H>>
    ensures { Answers result (Ok (copy_of value.now)) }
{
    match value.try_clone(alloc) {
        Ok(value) => Ok(value),
        Err(_) => Err(EvalAltResult::ErrorOutOfMemory(pos)),
    }
}

/// Copies what a cell holds.
fn copy_cell<H: Host>(
    alloc: Global,
    cells: &CellStore<H>,
    id: CellId,
    pos: Position,
) -> Result<Dynamic<H>, EvalAltResult<H>>
    ensures { Answers result (copied (used [] pos (value_of_cell (cells_of cells.now) id.number))) }
{
    match cells.get(id) {
        Some(value) => copy(alloc, value, pos),
        None => Err(data_race(alloc, pos)),
    }
}

/// Replaces a handle by a copy of its cell's value; any other value stays.
#[inline(always)]
pub fn flatten<H: Host>(
    alloc: Global,
    cells: &CellStore<H>,
    value: Dynamic<H>,
    pos: Position,
) -> Result<Dynamic<H>, EvalAltResult<H>>
    ensures exact { Answers result (flat (cells_of cells.now) value pos) }
    ensures memory { IfErr result (λ _. is_handle value.value ≡ true) }
{
    match &value.value {
        Union::Cell(id) => copy_cell(alloc, cells, *id, pos),
        _ => Ok(value),
    }
}

fn plain_truth<H: Host>(
    alloc: Global,
    cells: &CellStore<H>,
    value: &Dynamic<H>,
    pos: Position,
) -> Result<bool, EvalAltResult<H>>
    ensures exact { Answers result (truth_union H.name_of (cells_of cells.now) value.now.value value.now
        pos) }
    ensures memory { IfErr result (λ _. is_truth value.now.value ≡ false) }
{
    match &value.value {
        Union::Bool(b) => Ok(*b),
        _ => Err(mismatch(alloc, "bool", value.type_name(cells), pos)),
    }
}

/// Reads the truth value that a condition gave, through a handle.
pub fn truth_value<H: Host>(
    alloc: Global,
    cells: &CellStore<H>,
    value: Dynamic<H>,
    pos: Position,
) -> Result<bool, EvalAltResult<H>>
    ensures exact { Answers result (truth H.name_of (cells_of cells.now) value pos) }
    ensures memory { IfErr result (λ _. is_truth value.value ≡ false) }
{
    match &value.value {
        Union::Cell(id) => match cells.get(*id) {
            Some(inner) => plain_truth(alloc, cells, inner, pos),
            None => Err(data_race(alloc, pos)),
        },
        _ => plain_truth(alloc, cells, &value, pos),
    }
}

/// Tells whether a value is `()`, through a handle.
pub fn is_unit<H: Host>(
    alloc: Global,
    cells: &CellStore<H>,
    value: &Dynamic<H>,
    pos: Position,
) -> Result<bool, EvalAltResult<H>>
    ensures { Answers result (unit_seen (through (cells_of cells.now) value.now pos)) }
{
    match &value.value {
        Union::Unit => Ok(true),
        Union::Cell(id) => match cells.get(*id) {
            Some(inner) => Ok(matches!(&inner.value, Union::Unit)),
            None => Err(data_race(alloc, pos)),
        },
        _ => Ok(false),
    }
}

/// Tells whether a value is a bare handle of a cell.
pub fn is_bare_handle<H: Host>(value: &Dynamic<H>) -> bool
    ensures { result ≡ is_handle value.now.value }
{
    matches!(&value.value, Union::Cell(_))
}

/// Makes a list of one value. Where there is no memory the value comes back.
pub fn list_of<H: Host>(alloc: Global, value: Dynamic<H>) -> Result<Few<Dynamic<H>>, Dynamic<H>>
    ensures ok { IfOk result (λ items. items ≡ value ∷ []) }
    ensures err { IfErr result (λ v. v ≡ value) }
{
    let mut items = Few::new(alloc);
    match items.try_push(value) {
        Ok(()) => Ok(items),
        Err(failed) => Err(failed.value),
    }
}

/// Lets go of a value.
pub fn let_go<H: Host>(_value: Dynamic<H>) {}
