//! A text while it is joined of the values of its parts. Ports the interpolated text of upstream's
//! `eval/expr.rs`.

ghost use Rattle.std.specs.Prelude.{◌≡◌, ◌≤◌, IfErr, OnOk, Ok, Err, false};
ghost use Rattle.std.specs.Option.{option_copied};
ghost use Rattle.std.specs.String.{string_bytes};
ghost use Rattle.rhai_tree.specs.Positions.{position_of};
ghost use Rattle.rhai_values.specs.Cells.{cells_of};
ghost use Rattle.rhai_values.specs.TypeNames.{type_name_of};
ghost use Rattle.rhai_errors.specs.Errors.{is_out_of_memory};
ghost use Rattle.rhai_machine.specs.language.Data.{text_of, with_part, joined_core};
ghost use Rattle.rhai_machine.specs.language.State.{Answers};
ghost use Rattle.rhai_machine.specs.language.Runs.{Goes};
ghost use Rattle.rhai_steps.specs.Agreement.{KeepsSight};
ghost use Rattle.rhai_steps.specs.Sessions.{under};
ghost use Rattle.rhai_steps.specs.States.{state_of};
ghost use Rattle.rhai_context.specs.Ends.{came};
ghost use Rattle.rhai_data.specs.Texts.{text_in as text_of_value, print_of, prints_part};
ghost use Rattle.rhai_data.specs.Texts.{print_core};
ghost use Rattle.rhai_data.specs.Texts.{after_part};
ghost use Rattle.rhai_data.specs.Texts.{part_comes};

use rhai_calls::native::call_native;
use rhai_context::ends::{put, stop};
use rhai_context::outcomes::flatten_at;
use rhai_errors::error::EvalAltResult;
use rhai_errors::errors::{data_too_large, shared_text};
use rhai_errors::table::NativeTable;
use rhai_lookups::run::RunState;
use rhai_state::session::Session;
use rhai_steps::operation::Operation;
use rhai_steps::values::{copy, is_bare_handle};
use rhai_tree::expr::Expr;
use rhai_tree::position::Position;
use rhai_tree::{Items, Shared, Text};
use rhai_values::base::size::DataSizes;
use rhai_values::base::value::{Dynamic, Host, Union};
use std::alloc::Global;

/// Joins a part to a text.
///
/// # Errors
/// `ErrorDataTooLarge` at the part where the text is above the limit with it. The text stays then.
fn join_text<H>(
    session: &Session<'_, H>,
    text: &mut String,
    part: &str,
    pos: Position,
) -> Result<(), EvalAltResult<H>>
    ensures joined { OnOk result (with_part {H = H} session.now.limits (string_bytes text.old) part.now pos
        ≡ Ok (string_bytes text.new)) }
    ensures refused { IfErr result (λ error. is_out_of_memory error ≡ false →
        with_part session.now.limits (string_bytes text.old) part.now pos ≡ Err error) }
{
    let sizes = DataSizes::of_strings(text.len().saturating_add(part.len()));
    if let Some(fault) = sizes.exceeds(
        session.limits.max_string_size,
        session.limits.max_array_size,
        session.limits.max_map_size,
    ) {
        return Err(data_too_large(session.alloc, fault, pos));
    }
    match text.push_str(part) {
        Ok(()) => Ok(()),
        Err(_) => Err(EvalAltResult::ErrorOutOfMemory(pos)),
    }
}

/// Shares the text that a native answered, None where it answered another value.
fn text_in<H: Host>(
    value: Dynamic<H>,
    pos: Position,
) -> Result<Option<Shared<Text>>, EvalAltResult<H>>
    ensures { Answers result (Ok (text_of_value value.value)) }
{
    let text = match &value.value {
        Union::Str(text) => Some(text.share()),
        _ => None,
    };
    drop(value);
    match text {
        Some(Ok(text)) => Ok(Some(text)),
        Some(Err(_)) => Err(EvalAltResult::ErrorOutOfMemory(pos)),
        None => Ok(None),
    }
}

/// Takes the text out of what a call of the native `to_string` came to. None where it printed none.
fn printed<H: Host>(
    outcome: Result<Dynamic<H>, EvalAltResult<H>>,
    pos: Position,
) -> Result<Option<Shared<Text>>, EvalAltResult<H>>
    ensures { Answers result (print_of outcome) }
{
    match outcome {
        Ok(value) => text_in(value, pos),
        Err(error) => {
            if error.is_system_exception() {
                return Err(error);
            }
            drop(error);
            Ok(None)
        }
    }
}

/// Prints a value by the native `to_string`, which gets a copy of it. None where it prints no text.
///
/// # Errors
/// Those of the system alone: `ErrorTooManyOperations` at the value where the count has reached the
/// limit, `ErrorDataTooLarge` there for an answer above a limit.
fn print<H: Host, T: NativeTable<H>>(
    session: &Session<'_, H>,
    global: &mut RunState<H>,
    table: &mut T,
    value: &Dynamic<H>,
    pos: Position,
) -> Result<Option<Shared<Text>>, EvalAltResult<H>>
    ensures counts { global.old.num_operations ≤ global.new.num_operations }
    ensures sight { KeepsSight global.old global.new }
    ensures runs { (scope : _) (held : _) (text : _) (type : _) (rest : _) →
        let rules = under H.name_of session.now T.natives in
        Goes rules (prints_part value.now pos text type rest)
        (state_of (T.state table.old) global.old scope held)
        (print_core rules.setting result text type pos rest)
        (state_of (T.state table.new) global.new scope held) }
{
    let mut first = copy(session.alloc, value, pos)?;
    let rest = Items::new(session.alloc);
    let rest = rest.as_slice();
    let outcome = call_native(
        session,
        global,
        table,
        &Operation {
            name: "to_string",
            token: None,
            at: pos,
        },
        &mut first,
        rest,
        false,
    );
    drop(first);
    printed(outcome, pos)
}

/// Joins a value that is no text: what the native `to_string` prints of it, or else its type's name.
fn join_typed<H: Host, T: NativeTable<H>>(
    session: &Session<'_, H>,
    global: &mut RunState<H>,
    table: &mut T,
    text: &mut String,
    value: &Dynamic<H>,
    type_name: &str,
    pos: Position,
) -> Result<(), EvalAltResult<H>>
    requires { type_name.now ≡ type_name_of H.name_of (cells_of global.old.cells) value.now }
    ensures counts { global.old.num_operations ≤ global.new.num_operations }
    ensures sight { KeepsSight global.old global.new }
    ensures runs { (scope : _) (held : _) (rest : _) → Goes (under H.name_of session.now T.natives)
        (prints_part value.now pos (string_bytes text.old) (type_name_of H.name_of (cells_of global.old.cells) value.now) rest)
        (state_of (T.state table.old) global.old scope held) (after_part result (string_bytes text.new) rest)
        (state_of (T.state table.new) global.new scope held) }
{
    match print(session, global, table, value, pos)? {
        Some(part) => join_text(session, text, part.get().as_str(), pos),
        None => join_text(session, text, type_name, pos),
    }
}

/// Joins a handle as `join_typed` does a value. The name of its type is taken before the native may change
/// its cell.
fn join_handle<H: Host, T: NativeTable<H>>(
    session: &Session<'_, H>,
    global: &mut RunState<H>,
    table: &mut T,
    text: &mut String,
    value: &Dynamic<H>,
    pos: Position,
) -> Result<(), EvalAltResult<H>>
    ensures counts { global.old.num_operations ≤ global.new.num_operations }
    ensures sight { KeepsSight global.old global.new }
    ensures runs { (scope : _) (held : _) (rest : _) → Goes (under H.name_of session.now T.natives)
        (prints_part value.now pos (string_bytes text.old) (type_name_of H.name_of (cells_of global.old.cells) value.now) rest)
        (state_of (T.state table.old) global.old scope held) (after_part result (string_bytes text.new) rest)
        (state_of (T.state table.new) global.new scope held) }
{
    match shared_text(session.alloc, value.type_name(&global.cells)) {
        Ok(name) => {
            let name = name.get().as_str();
            join_typed(session, global, table, text, value, name, pos)
        }
        Err(_) => Err(EvalAltResult::ErrorOutOfMemory(pos)),
    }
}

/// Joins any value that is no text, as `join_typed` does.
fn join_printed<H: Host, T: NativeTable<H>>(
    session: &Session<'_, H>,
    global: &mut RunState<H>,
    table: &mut T,
    text: &mut String,
    value: &Dynamic<H>,
    pos: Position,
) -> Result<(), EvalAltResult<H>>
    ensures counts { global.old.num_operations ≤ global.new.num_operations }
    ensures sight { KeepsSight global.old global.new }
    ensures runs { (scope : _) (held : _) (rest : _) → Goes (under H.name_of session.now T.natives)
        (prints_part value.now pos (string_bytes text.old) (type_name_of H.name_of (cells_of global.old.cells) value.now) rest)
        (state_of (T.state table.old) global.old scope held) (after_part result (string_bytes text.new) rest)
        (state_of (T.state table.new) global.new scope held) }
{
    if is_bare_handle(value) {
        return join_handle(session, global, table, text, value, pos);
    }
    let name = value.own_type_name();
    join_typed(session, global, table, text, value, name, pos)
}

/// Returns the text that a value is.
fn text_at<H>(value: &Dynamic<H>) -> Option<&str>
    ensures { option_copied result ≡ text_of_value value.now.value }
{
    match &value.value {
        Union::Str(text) => Some(text.get().as_str()),
        _ => None,
    }
}

/// Joins a value that is no handle: a text as it is, any other as it is printed.
fn join_flat<H: Host, T: NativeTable<H>>(
    session: &Session<'_, H>,
    global: &mut RunState<H>,
    table: &mut T,
    text: &mut String,
    value: &Dynamic<H>,
    pos: Position,
) -> Result<(), EvalAltResult<H>>
    ensures counts { global.old.num_operations ≤ global.new.num_operations }
    ensures sight { KeepsSight global.old global.new }
    ensures runs { (scope : _) (held : _) (rest : _) →
        let rules = under H.name_of session.now T.natives in
        Goes rules (joined_core rules.setting value.now.value value.now (string_bytes text.old) pos rest)
        (state_of (T.state table.old) global.old scope held) (after_part result (string_bytes text.new) rest)
        (state_of (T.state table.new) global.new scope held) }
{
    match text_at(value) {
        Some(part) => join_text(session, text, part, pos),
        None => join_printed(session, global, table, text, value, pos),
    }
}

/// Joins the value that a part gave a run. A text is joined as it is, any other value as the native
/// `to_string` prints it, or as its type's name where that answers no text. Tells whether it went well; an
/// error is left in `place`.
///
/// # Errors
/// All at the part: `ErrorDataRace` for a handle whose cell is held, the errors of the system that the
/// native's call meets, and `ErrorDataTooLarge` where the text is above the limit.
pub fn join<H: Host, T: NativeTable<H>>(
    session: &Session<'_, H>,
    global: &mut RunState<H>,
    table: &mut T,
    text: &mut String,
    out: &mut Dynamic<H>,
    place: &mut Option<EvalAltResult<H>>,
    part: &Expr,
) -> bool
    ensures counts { global.old.num_operations ≤ global.new.num_operations }
    ensures sight { KeepsSight global.old global.new }
    ensures runs { (scope : _) (held : _) (rest : _) → Goes (under H.name_of session.now T.natives)
        (part_comes (string_bytes text.old) out.old (position_of part.now) rest)
        (state_of (T.state table.old) global.old scope held)
        (after_part (came result (string_bytes text.new) place.new) (string_bytes text.new) rest)
        (state_of (T.state table.new) global.new scope held) }
{
    if !flatten_at(session.alloc, &global.cells, out, place, part) {
        return false;
    }
    match join_flat(session, global, table, text, &*out, part.position()) {
        Ok(()) => true,
        Err(error) => stop(place, error),
    }
}

/// Makes a joined text the value of a run. Tells whether there was memory for it; else the error is left in
/// `place`.
pub fn finish<H: Host>(
    alloc: Global,
    out: &mut Dynamic<H>,
    place: &mut Option<EvalAltResult<H>>,
    text: String,
    pos: Position,
) -> bool
    ensures { Answers (came result out.new place.new) (Ok (text_of (string_bytes text))) }
{
    match Shared::new(alloc, Text::from_string(text)) {
        Ok(text) => {
            put(out, Dynamic::new(Union::Str(text)));
            true
        }
        Err(_) => stop(place, EvalAltResult::ErrorOutOfMemory(pos)),
    }
}
