//! The indexer of a host that reads: the native `index$get$`. It is called on the focus, which is `object`
//! here. The contracts cite specs/Indexers.antt and specs/Calls.antt.

ghost use Rattle.std.specs.Prelude.{◌≡◌, ◌<◌, length, slice_get, Some, true, false, IfSome, is_some};
ghost use Rattle.rhai_values.specs.Cells.{cells_of, IsNoHandle};
ghost use Rattle.rhai_values.specs.TypeNames.{type_name_of};
ghost use Rattle.rhai_errors.specs.Errors.{indexing_text, is_out_of_memory};
ghost use Rattle.rhai_errors.specs.Native.{MayLeave, reply_of};
ghost use Rattle.rhai_errors.specs.declared.error.EvalAltResult.TheVariants as error;
ghost use Rattle.rhai_machine.specs.language.State.{Answers, HasMemory};
ghost use Rattle.rhai_index.specs.Calls.{Asked, Leaves};
ghost use Rattle.rhai_index.specs.Indexers.{by_itself, call_effect, indexer_request, indexer_result, read_call};
ghost use Rattle.rhai_index.specs.Indexers.{request_of};
ghost use Rattle.rhai_index.specs.Indexers.{is_barred as is_barred_from, is_pure_on as is_pure_at};

use rhai_errors::error::EvalAltResult;
use rhai_errors::errors::non_pure;
use rhai_errors::table::{Answer, NativeTable};
use rhai_few::Few;
use rhai_places::errors::indexing_error;
use rhai_spots::spot::{Access, Refusal};
use rhai_state::session::Session;
use rhai_steps::replies::{position_if_none, sized};
use rhai_steps::values::{let_go, list_of, unit_value};
use rhai_tree::position::Position;
use rhai_values::base::value::{AccessMode, Dynamic, Host};
use rhai_values::cells::CellStore;
use std::alloc::Global;
use std::mem::replace;

/// Takes the first value off a list.
fn first_of<H: Host>(items: &mut Few<Dynamic<H>>) -> Dynamic<H>
    requires { 0 < length items.old }
    ensures { slice_get items.old 0 ≡ Some result }
{
    items.remove(0)
}

/// Asks the table whether an indexer changes nothing of the focus.
fn is_pure_on<H: Host, T: NativeTable<H>>(
    cells: &CellStore<H>,
    table: &T,
    name: &str,
    object: &Dynamic<H>,
    count: usize,
) -> bool
    ensures { result ≡ is_pure_at T.natives H.name_of (cells_of cells.now) (T.state table.now)
        name.now object.now count }
{
    table.is_pure(name, object.type_name(cells), count)
}

/// Tells whether the focus is a constant that is lent to an indexer that is not pure.
fn is_barred<H: Host>(is_lent: bool, is_pure: bool, object: &Dynamic<H>) -> bool
    ensures { result ≡ is_barred_from is_lent is_pure object.now }
{
    is_lent && matches!(object.mode, AccessMode::ReadOnly) && !is_pure
}

/// Builds the error of a focus and an index that do not go together.
fn not_indexed<H: Host>(
    alloc: Global,
    cells: &CellStore<H>,
    object: &Dynamic<H>,
    index: &Dynamic<H>,
    pos: Position,
) -> EvalAltResult<H>
    ensures { is_out_of_memory result ≡ false → result ≡ error.ErrorIndexingType
        (indexing_text (type_name_of H.name_of (cells_of cells.now) object.now)
        (type_name_of H.name_of (cells_of cells.now) index.now)) pos }
{
    let how = Access {
        idx_pos: pos,
        op_pos: pos,
        add_if_not_found: false,
        fail_on_invalid_map_property: false,
    };
    indexing_error(alloc, cells, object, index, how, Refusal::NotIndexed)
}

/// Makes the result of a call of what the indexer answered, at the call's position.
fn indexer_answer<H: Host>(
    session: &Session<'_, H>,
    cells: &CellStore<H>,
    answer: Answer<H>,
    object: &Dynamic<H>,
    index: &Dynamic<H>,
    pos: Position,
) -> Result<Dynamic<H>, EvalAltResult<H>>
    ensures told { IfSome (reply_of answer) (λ reply. Answers result
        (indexer_result session.now.limits H.name_of (cells_of cells.now) object.now index.now pos reply)) }
    ensures memory { HasMemory result → is_some (reply_of answer) ≡ true }
{
    match answer {
        Answer::Missing => Err(not_indexed(session.alloc, cells, object, index, pos)),
        Answer::Value(value) => sized(session, value, pos),
        Answer::Fault(error) => Err(position_if_none(error, pos)),
        Answer::NoMemory => Err(EvalAltResult::ErrorOutOfMemory(pos)),
    }
}

/// Calls an indexer on the focus, unless the focus is barred from it.
fn call_indexer<H: Host, T: NativeTable<H>>(
    session: &Session<'_, H>,
    cells: &CellStore<H>,
    table: &mut T,
    name: &str,
    object: &mut Dynamic<H>,
    index: &Dynamic<H>,
    others: &[Dynamic<H>],
    barred: bool,
    pos: Position,
) -> Result<Dynamic<H>, EvalAltResult<H>>
    requires { IsNoHandle object.old.value }
    ensures leaves { Leaves (call_effect T.natives (cells_of cells.now) pos barred (T.state table.old)
        name.now object.old others.now)
        (indexer_result session.now.limits H.name_of (cells_of cells.now) object.old index.now pos)
        object.new (T.state table.new) result }
    ensures reached { MayLeave H.name_of T.natives (T.state table.old)
        (indexer_request (cells_of cells.now) name.now object.old others.now pos)
        (Some object.new) (T.state table.new) }
{
    if barred {
        return Err(non_pure(session.alloc, name, pos));
    }
    let answer = table.call(cells, name, Some(&mut *object), others, pos);
    indexer_answer(session, cells, answer, object, index, pos)
}

/// Calls the indexer that reads on a focus that is no handle.
pub(crate) fn ask_get<H: Host, T: NativeTable<H>>(
    session: &Session<'_, H>,
    cells: &CellStore<H>,
    table: &mut T,
    object: &mut Dynamic<H>,
    index: &mut Dynamic<H>,
    pos: Position,
) -> Result<Dynamic<H>, EvalAltResult<H>>
    requires { IsNoHandle object.old.value }
    ensures asked { Asked session.now.limits H.name_of T.natives (cells_of cells.now)
        (read_call index.old pos) by_itself
        (T.state table.old) object.old (T.state table.new) object.new result }
    ensures reached { MayLeave H.name_of T.natives (T.state table.old)
        (request_of (cells_of cells.now) (read_call index.old pos) object.old)
        (Some object.new) (T.state table.new) }
    ensures index { index.new ≡ index.old }
{
    let is_pure = is_pure_on(cells, &*table, "index$get$", object, 2);
    let barred = is_barred(true, is_pure, object);
    match list_of(session.alloc, replace(index, unit_value())) {
        Ok(others) => {
            let mut others = others;
            let args = others.as_slice();
            let result = call_indexer(
                session,
                cells,
                table,
                "index$get$",
                object,
                &args[0],
                args,
                barred,
                pos,
            );
            let_go(replace(index, first_of(&mut others)));
            drop(others);
            result
        }
        Err(value) => {
            let_go(replace(index, value));
            Err(EvalAltResult::ErrorOutOfMemory(pos))
        }
    }
}
