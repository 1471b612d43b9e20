//! A call of a native at once: a call by name whose one argument is a variable, where no function of a script
//! has the name. The native is called on the variable's value where it stands. Ports a part of upstream's
//! `make_function_call`. The contracts cite the machine's specs/language/Arguments.antt and the crate's own
//! specs/.

ghost use Rattle.rhai_steps.specs.Operations.{operation_of};
ghost use Rattle.std.specs.Prelude.{◌≡◌, ◌<◌, ◌≤◌, ◌∷◌, [], IsTrue, IfErr, IfOk, IfSome, None, Some, is_some, length, slice_get};
ghost use Rattle.std.specs.Prelude.{false, true, ℤ};
ghost use Rattle.std.specs.Option.{option_copied, option_map};
ghost use Rattle.rhai_tree.specs.declared.expr.Expr.TheOpen as layer;
ghost use Rattle.rhai_tree.specs.Frame.{resolves_call};
ghost use Rattle.rhai_values.specs.declared.base.value.Union.TheVariants as kind;
ghost use Rattle.rhai_values.specs.Cells.{cells_of, IsNoHandle};
ghost use Rattle.rhai_values.specs.Copy.{plain};
ghost use Rattle.rhai_errors.specs.Native.{Gives, Leaves, Named, Obeys, reply_of, request};
ghost use Rattle.rhai_state.specs.Scope.{entries_of, names_in, value_in, value_of};
ghost use Rattle.rhai_machine.specs.language.Frames.{Ask, FromEntry, OpenExpr};
ghost use Rattle.rhai_machine.specs.language.Calls.{replied as replied_at};
ghost use Rattle.rhai_machine.specs.language.Runs.{Runs};
ghost use Rattle.rhai_machine.specs.language.State.{Answers, HasMemory};
ghost use Rattle.rhai_steps.specs.Agreement.{AgreesAt, KeepsSight};
ghost use Rattle.rhai_steps.specs.Sessions.{offer_of, under};
ghost use Rattle.rhai_steps.specs.States.{state_of, surroundings_of};
ghost use Rattle.rhai_context.specs.Ends.{came};
ghost use Rattle.rhai_calls.specs.Dispatch.{plain_found};
ghost use Rattle.rhai_steps.specs.Lending.{lent_call};
ghost use Rattle.rhai_names.specs.Passed.{is_lendable as is_lent};
ghost use Rattle.rhai_fast_calls.specs.AtOnce.{IsLone};

use crate::callee::is_by_name;
use rhai_context::ends::{put_number, settle};
use rhai_context::outcomes::charge;
use rhai_errors::error::EvalAltResult;
use rhai_errors::table::{Answer, NativeTable};
use rhai_functions::key::FnKey;
use rhai_functions::words::has_own_meaning;
use rhai_lookups::run::RunState;
use rhai_names::variables::{entry_of_variable, is_lendable};
use rhai_state::scope::Scope;
use rhai_state::session::{Offered, Session};
use rhai_steps::charges::charge_one;
use rhai_steps::operation::Operation;
use rhai_steps::replies::replied;
use rhai_tree::expr::{Expr, FnCallExpr};
use rhai_tree::position::Position;
use rhai_values::base::value::{AccessMode, Dynamic, Host, Union};
use rhai_values::cells::CellStore;

/// Returns the one of some arguments, None where there are none or more.
#[inline(always)]
fn only_argument(args: &[Expr]) -> Option<&Expr>
    ensures { IfSome (option_copied result) (λ arg. args.now ≡ arg ∷ []) }
{
    let [arg] = args else {
        return None;
    };
    Some(arg)
}

/// Returns the argument of a call by its name alone that has no other. None where the name means something
/// besides functions.
#[inline(always)]
fn lone_argument(call: &FnCallExpr) -> Option<&Expr>
    ensures { IfSome (option_copied result) (λ arg. IsLone call.now arg) }
{
    if !is_by_name(call) {
        return None;
    }
    if has_own_meaning(call.name.get().as_str()) {
        return None;
    }
    only_argument(call.args.as_slice())
}

/// Tells whether a call by a name looks through no module.
#[inline(always)]
fn has_no_modules<H: Host>(offered: &Offered<'_, H>, global: &RunState<H>) -> bool
    ensures libraries { IsTrue result → global.now.lists.0 ≡ [] }
    ensures modules { IsTrue result → offered.now.global_modules.now ≡ [] }
    ensures imports { IsTrue result → global.now.lists.1 ≡ [] }
    ensures named { IsTrue result → offered.now.global_sub_modules.now.1 ≡ [] }
{
    global.lists.lib().is_empty()
        && offered.global_modules.is_empty()
        && global.lists.imports().is_empty()
        && offered.global_sub_modules.values().is_empty()
}

/// Tells whether a function of a script has a name and one parameter.
#[inline(always)]
fn is_scripted<H: Host>(session: &Session<'_, H>, global: &mut RunState<H>, name: &str) -> bool
    ensures found { result ≡ is_some (plain_found (offer_of session.now) (surroundings_of global.old) name.now
        1) }
    ensures same { global.new ≡ global.old }
{
    if has_no_modules(&session.offered, &*global) {
        return false;
    }
    let key = FnKey {
        name,
        arity: 1,
        this_type: None,
    };
    global.lists.has(&key, &session.offered)
}

/// Tells whether a value is an integer that may be written.
#[inline(always)]
fn is_number<H>(value: &Dynamic<H>) -> bool
    ensures { IsTrue result → (number : ℤ) × (value.now ≡ plain (kind.Int number)) }
{
    match (&value.value, value.mode) {
        (Union::Int(_), AccessMode::ReadWrite) => true,
        _ => false,
    }
}

/// Takes the integer that may be written out of a native's answer. Any other answer comes back as it is.
#[inline(always)]
fn take_number<H: Host>(answer: Answer<H>) -> Result<Dynamic<H>, Answer<H>>
    ensures number { IfOk result (λ value. (reply_of answer ≡ Some (Gives value))
        × (number : ℤ) × (value ≡ plain (kind.Int number))) }
    ensures other { IfErr result (λ same. same ≡ answer) }
{
    match answer {
        Answer::Value(value) => {
            if is_number(&value) {
                Ok(value)
            } else {
                Err(Answer::Value(value))
            }
        }
        answer => Err(answer),
    }
}

/// Settles what a native's answer comes to, at the call, as `rhai_steps::replies::replied` has it. How the
/// call ended stands in the run. An integer is within every limit.
#[inline(always)]
fn settle_answer<H: Host>(
    session: &Session<'_, H>,
    cells: &CellStore<H>,
    out: &mut Dynamic<H>,
    place: &mut Option<EvalAltResult<H>>,
    answer: Answer<H>,
    operation: &Operation<'_>,
    first: &Dynamic<H>,
    rest: &[Dynamic<H>],
) -> bool
    ensures told { IfSome (reply_of answer) (λ reply. Answers (came result out.new place.new)
        (replied_at session.now.limits H.name_of reply (Some first.now) rest.now
        (operation_of operation.now) false (cells_of cells.now))) }
    ensures memory { HasMemory (came result out.new place.new) → is_some (reply_of answer) ≡ true }
{
    let answer = match take_number(answer) {
        Ok(value) => {
            put_number(out, value);
            return true;
        }
        Err(answer) => answer,
    };
    let answered = replied(session, cells, answer, operation, false, first, rest);
    settle(place, out, answered)
}

/// Calls the native of a name on a value that is no handle.
#[inline(always)]
fn ask<H: Host, T: NativeTable<H>>(
    table: &mut T,
    cells: &CellStore<H>,
    name: &str,
    first: &mut Dynamic<H>,
    rest: &[Dynamic<H>],
    pos: Position,
) -> Answer<H>
    requires { IsNoHandle first.old.value }
    ensures obeys { Obeys (T.natives.gives (T.state table.old)
        (request (cells_of cells.now) (Named name.now) (Some first.old) rest.now pos))
        (reply_of result) (Some first.new) (T.state table.new) }
    ensures no_handle { IsNoHandle first.new.value }
    ensures leaves { Leaves H.name_of T.natives (T.state table.old)
        (request (cells_of cells.now) (Named name.now) (Some first.old) rest.now pos)
        (Some first.new) (T.state table.new) }
{
    table.call(cells, name, Some(&mut *first), rest, pos)
}

/// Charges a call, and calls the native of its name on the value of a variable where it stands. How it ended
/// stands in the run.
#[inline(always)]
fn call_entry<H: Host, T: NativeTable<H>>(
    session: &Session<'_, H>,
    global: &mut RunState<H>,
    table: &mut T,
    scope: &mut Scope<H>,
    out: &mut Dynamic<H>,
    place: &mut Option<EvalAltResult<H>>,
    index: usize,
    operation: &Operation<'_>,
) -> bool
    requires within { index < length (entries_of scope.old) }
    requires lendable { IfSome (option_map value_of (slice_get (entries_of scope.old) index))
        (λ v. is_lent v ≡ true) }
    ensures counts { global.old.num_operations ≤ global.new.num_operations }
    ensures sight { KeepsSight global.old global.new }
    ensures names { names_in scope.new ≡ names_in scope.old }
    ensures runs { (held : _) (v : _) → value_in (entries_of scope.old) (Some index) ≡ Some v →
        Runs (under H.name_of session.now T.natives)
        (Ask (lent_call (operation_of operation.now) (Some (FromEntry index)) true
        (v ∷ [])))
        (state_of (T.state table.old) global.old scope.old held)
        (came result out.new place.new) (state_of (T.state table.new) global.new scope.new held) }
{
    if !charge(&session.limits, global, place, operation.at) {
        return false;
    }
    let rest: [Dynamic<H>; 0] = [];
    let rest = rest.as_slice();
    let cells = &global.cells;
    let first = scope.value_at_mut(index);
    let answer = ask(table, cells, operation.name, first, rest, operation.at);
    settle_answer(session, cells, out, place, answer, operation, &*first, rest)
}

/// Calls by name a native whose one argument is a variable, which is read and lent at once. None where that
/// is not so: where an operator was written, a path stands in front or variables are captured, where the name
/// means something besides functions or a function of a script, where no entry has the argument or it is a
/// constant's or a handle's, and where the limit has no room for the variable; then nothing is charged or
/// changed. How it ended stands in the run. Asked: the call resolves to the names of the scope.
///
/// # Errors
/// Those of `rhai_calls::native::pass_native`, but for a race and a constant.
#[inline(never)]
pub fn call_at_once<H: Host, T: NativeTable<H>>(
    session: &Session<'_, H>,
    global: &mut RunState<H>,
    table: &mut T,
    scope: &mut Scope<H>,
    out: &mut Dynamic<H>,
    place: &mut Option<EvalAltResult<H>>,
    call: &FnCallExpr,
    pos: Position,
) -> Option<bool>
    requires resolves { AgreesAt global.old scope.old (resolves_call call.now pos) }
    ensures left_global { result ≡ None → global.new ≡ global.old }
    ensures left_scope { result ≡ None → scope.new ≡ scope.old }
    ensures left_table { result ≡ None → T.state table.new ≡ T.state table.old }
    ensures counts { global.old.num_operations ≤ global.new.num_operations }
    ensures sight { KeepsSight global.old global.new }
    ensures names { names_in scope.new ≡ names_in scope.old }
    ensures runs { (held : _) → IfSome result (λ done.
        Runs (under H.name_of session.now T.natives) (OpenExpr (layer.Expr::FnCall call.now pos))
        (state_of (T.state table.old) global.old scope.old held)
        (came done out.new place.new) (state_of (T.state table.new) global.new scope.new held)) }
{
    let Some(arg) = lone_argument(call) else {
        return None;
    };
    let Expr::Variable {
        offset,
        name,
        namespace,
        ..
    } = arg
    else {
        return None;
    };
    let Some(index) = entry_of_variable(global, scope, *offset, name, namespace) else {
        return None;
    };
    let value = scope.value_at(index);
    if !is_lendable(value) {
        return None;
    }
    let function = call.name.get().as_str();
    if is_scripted(session, global, function) {
        return None;
    }
    if !charge_one(&session.limits, global) {
        return None;
    }
    Some(call_entry(
        session,
        global,
        table,
        scope,
        out,
        place,
        index,
        &Operation {
            name: function,
            token: None,
            at: pos,
        },
    ))
}
