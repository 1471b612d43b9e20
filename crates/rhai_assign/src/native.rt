//! The natives of an update: their names, the call on the target, and what an answer comes to.

ghost use Rattle.std.specs.Prelude.{◌≡◌, ◌∷◌, [], Some, true, is_some, IfSome, IfOk, IfErr, false};
ghost use Rattle.rhai_values.specs.Cells.{IsNoHandle, cells_of};
ghost use Rattle.rhai_errors.specs.Native.{Leaves, Named, Obeys, reply_of, request};
ghost use Rattle.rhai_machine.specs.language.State.{Answers, HasMemory};
ghost use Rattle.rhai_machine.specs.language.Calls.{replied as replied_at};
ghost use Rattle.rhai_machine.specs.language.Frames.{AskUpdate, Fail, InPlace};
ghost use Rattle.rhai_machine.specs.language.Assignment.{native_of, says_missing as missing_said};
ghost use Rattle.rhai_machine.specs.language.Runs.{Steps};
ghost use Rattle.rhai_steps.specs.Agreement.{KeepsSight};
ghost use Rattle.rhai_steps.specs.Sessions.{under};
ghost use Rattle.rhai_steps.specs.States.{state_of};
ghost use Rattle.rhai_assign.specs.Follows.{Asked};
ghost use Rattle.rhai_assign.specs.Keeps.{Charges};
ghost use Rattle.rhai_assign.specs.Lending.{cells_seen, placed, IsFree, IsLentFrom, IsOwnCell};
ghost use Rattle.rhai_assign.specs.Updates.{is_barred_for, other_fault, update_of};

use crate::place::Update;
use rhai_errors::error::EvalAltResult;
use rhai_errors::errors::{data_race_of, non_pure_of};
use rhai_errors::table::{Answer, NativeTable};
use rhai_lookups::run::RunState;
use rhai_state::session::Session;
use rhai_steps::charges::track_operation;
use rhai_steps::operation::Operation;
use rhai_steps::replies::replied;
use rhai_steps::values::{is_bare_handle, let_go, unit_value};
use rhai_tree::position::Position;
use rhai_tree::token::Token;
use rhai_tree::{Shared, Text};
use rhai_values::base::value::{AccessMode, Dynamic, Host};
use rhai_values::cells::{CellStore, put_back};
use std::alloc::{AllocError, Global};
use std::mem::replace;

/// Calls a native on a target, which is lent to it.
fn call_on<H: Host, T: NativeTable<H>>(
    cells: &CellStore<H>,
    table: &mut T,
    target: &mut Dynamic<H>,
    name: &str,
    rest: &[Dynamic<H>],
    pos: Position,
) -> Answer<H>
    requires { IsNoHandle target.old.value }
    ensures obeys { Obeys (T.natives.gives (T.state table.old)
        (request (cells_of cells.now) (Named name.now) (Some target.old) rest.now pos))
        (reply_of result) (Some target.new) (T.state table.new) }
    ensures plain { IsNoHandle target.new.value }
    ensures leaves { Leaves H.name_of T.natives (T.state table.old)
        (request (cells_of cells.now) (Named name.now) (Some target.old) rest.now pos)
        (Some target.new) (T.state table.new) }
{
    table.call(cells, name, Some(&mut *target), rest, pos)
}

/// Builds the name of the native that changes a target: the operator's text with `=` behind it.
pub(crate) fn assigning_name(alloc: Global, token: Token) -> Result<Shared<Text>, AllocError>
    ensures { IfOk result (λ name. name ≡ native_of InPlace token) }
{
    let mut text = String::from_str(alloc, token.as_str())?;
    text.push_str("=")?;
    Shared::new(alloc, Text::from_string(text))
}

/// Tells whether an error says that no function has the name.
fn says_missing<H: Host>(name: &Shared<Text>, error: &EvalAltResult<H>) -> bool
    ensures { result ≡ missing_said name.now error.now }
{
    match error {
        EvalAltResult::ErrorFunctionNotFound(text, _) => {
            let name = name.get().as_str().as_bytes();
            text.get().as_str().as_bytes().starts_with(name)
        }
        _ => false,
    }
}

/// Returns a native's fault, unless it says that no function has the name.
pub(crate) fn unless_missing<H: Host>(
    name: &Shared<Text>,
    error: EvalAltResult<H>,
) -> Option<EvalAltResult<H>>
    ensures { result ≡ other_fault name.now error }
{
    if says_missing(name, &error) {
        None
    } else {
        Some(error)
    }
}

/// Tells whether a native is barred from a target: that is a constant, and the native is not pure. A target
/// that is a constant is no handle.
fn is_barred<H: Host, T: NativeTable<H>>(table: &T, name: &str, target: &Dynamic<H>) -> bool
    ensures { result ≡ is_barred_for H.name_of T.natives (T.state table.now) name.now target.now }
{
    matches!(target.access_mode(), AccessMode::ReadOnly)
        && !table.is_pure(name, target.own_type_name(), 2)
}

/// Charges an update at its operator, and calls a native on the target, unless it is barred from it.
pub(crate) fn ask_native<H: Host, T: NativeTable<H>>(
    session: &Session<'_, H>,
    global: &mut RunState<H>,
    table: &mut T,
    target: &mut Dynamic<H>,
    update: Update,
    name: &Shared<Text>,
    rest: &[Dynamic<H>],
) -> Result<Answer<H>, EvalAltResult<H>>
    requires own { IsOwnCell update.cell (cells_of global.old.cells) }
    requires free { IsFree target.old }
    ensures charges { Charges global.old global.new }
    ensures sight { KeepsSight global.old global.new }
    ensures left { IfOk result (λ _. IsNoHandle target.new.value) }
    ensures refused { IfErr result (λ e. (scope : _) (held : _) (place : _) (attempt : _)
        (operand : _) → name.now ≡ native_of attempt update.token →
        Steps (under H.name_of session.now T.natives)
        (AskUpdate (update_of update attempt place target.old operand))
        (placed place target.old (state_of (T.state table.old) global.old scope held))
        (Fail e) (placed place target.new (state_of (T.state table.new) global.new scope held))) }
    ensures asked { IfOk result (λ answer. (scope : _) (held : _) (place : _) (attempt : _)
        (operand : _) → IsLentFrom place update.cell → name.now ≡ native_of attempt update.token →
        rest.now ≡ operand ∷ [] → Asked (under H.name_of session.now T.natives)
        (update_of update attempt place target.old operand)
        (placed place target.old (state_of (T.state table.old) global.old scope held))
        (reply_of answer) target.new
        (placed place target.new (state_of (T.state table.new) global.new scope held))) }
{
    track_operation(&session.limits, global, update.at)?;
    if is_barred(&*table, name.get().as_str(), target) {
        return Err(non_pure_of(name, update.at));
    }
    if is_bare_handle(target) {
        return Err(data_race_of(name, update.at));
    }
    let cells = &global.cells;
    Ok(call_on(cells, table, target, name.get().as_str(), rest, update.at))
}

/// Reads what the answer of the native `op` comes to. It is read while the target is back in its own cell, to
/// which the operand may lead.
pub(crate) fn outcome_of<H: Host>(
    session: &Session<'_, H>,
    cells: &mut CellStore<H>,
    answer: Answer<H>,
    name: &Shared<Text>,
    target: &mut Dynamic<H>,
    update: Update,
    rest: &[Dynamic<H>],
) -> Result<Dynamic<H>, EvalAltResult<H>>
    requires { IsOwnCell update.cell (cells_of cells.old) }
    ensures cells { cells.new ≡ cells.old }
    ensures target { target.new ≡ target.old }
    ensures told { IfSome (reply_of answer) (λ reply. Answers result
        (replied_at session.now.limits H.name_of reply (Some target.old) rest.now
        (record { name = name.now; token = Some update.token; at = update.at }) false
        (cells_seen update.cell target.old (cells_of cells.old)))) }
    ensures memory { HasMemory result → is_some (reply_of answer) ≡ true }
{
    let name = name.get().as_str();
    let token = Some(update.token);
    let Some(id) = update.cell else {
        return replied(
            session,
            cells,
            answer,
            &Operation {
                name,
                token,
                at: update.at,
            },
            false,
            target,
            rest,
        );
    };
    put_back(cells, id, replace(target, unit_value()));
    let back = cells.get(id).unwrap();
    let outcome = replied(
        session,
        cells,
        answer,
        &Operation {
            name,
            token,
            at: update.at,
        },
        false,
        back,
        rest,
    );
    let_go(replace(target, cells.take(id).unwrap()));
    outcome
}
