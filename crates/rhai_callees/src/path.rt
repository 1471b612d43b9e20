//! Calls behind a path: what is charged first and read last, and the public function of the module that the
//! path leads to. Ports what upstream's `make_qualified_function_call` does with functions of scripts. The
//! contracts cite specs/Behind.antt.

ghost use Rattle.std.specs.Prelude.{◌≡◌, ◌≤◌, ◌∷◌, ◌++◌, [], Err, IfErr, IsTrue, Ok, OnOk, Some};
ghost use Rattle.std.specs.Prelude.{false, is_some, length, true, None};
ghost use Rattle.std.specs.Option.{option_and_then, option_copied};
ghost use Rattle.rhai_tree.specs.declared.expr.Expr.{out-Expr};
ghost use Rattle.rhai_values.specs.Cells.{cells_of};
ghost use Rattle.rhai_errors.specs.Errors.{is_out_of_memory};
ghost use Rattle.rhai_state.specs.Scope.{entries_of, in_use, Fits};
ghost use Rattle.rhai_errors.specs.declared.error.EvalAltResult.TheVariants as error;
ghost use Rattle.rhai_functions.specs.Keys.{function_key_of};
ghost use Rattle.rhai_functions.specs.Namespaces.{down, public_in};
ghost use Rattle.rhai_machine.specs.Qualified.{text_behind, path_text};
ghost use Rattle.rhai_machine.specs.language.Calls.{public_or_unknown, signature, types_of};
ghost use Rattle.rhai_machine.specs.language.Functions.{key_by};
ghost use Rattle.rhai_machine.specs.language.Names.{looked_up, meant};
ghost use Rattle.rhai_machine.specs.language.State.{Answers};
ghost use Rattle.rhai_machine.specs.language.Variables.{path_of, variable_in};
ghost use Rattle.rhai_steps.specs.Agreement.{AgreesAt, KeepsSight, RootStands};
ghost use Rattle.rhai_steps.specs.Offers.{globals_in};
ghost use Rattle.rhai_names.specs.Roots.{root_searched};
ghost use Rattle.rhai_steps.specs.States.{surroundings_of};
ghost use Rattle.rhai_names.specs.Variables.{offset_is_good, variable_told};
ghost use Rattle.rhai_context.specs.Ends.{error_in};
ghost use Rattle.rhai_calls.specs.Called.{with_args};
ghost use Rattle.rhai_calls.specs.Dispatch.{Means};
ghost use Rattle.rhai_callees.specs.Behind.{before_last, behind_call, last_of, last_value, led_by, public_call};
ghost use Rattle.rhai_callees.specs.Behind.{public_for, public_from_root, value_at, IsCharged, IsSpent};
ghost use Rattle.rhai_callees.specs.Behind.{is_read_last as read_last};
ghost use Rattle.rhai_callees.specs.Behind.{behind_is_good, form_is_good, last_is_good};
ghost use Rattle.rhai_callees.specs.Linked.{Comes};
ghost use Rattle.rhai_names.specs.Passed.{copy_passed, meaning_passed};

use crate::variable::{pass_beside, pass_value};
use rhai_call_forms::arguments::this_in;
use rhai_calls::dispatch::{Called, is_held};
use rhai_context::outcomes::charge_expr;
use rhai_errors::error::EvalAltResult;
use rhai_errors::errors::data_race_of;
use rhai_few::Few;
use rhai_functions::function::{Function, share_function};
use rhai_functions::key::FnKey;
use rhai_functions::paths::{find_down, find_public};
use rhai_lookups::run::RunState;
use rhai_names::qualified::{full_text, no_module};
use rhai_names::roots::root_of;
use rhai_names::variables::{Variable, entry_of_variable, is_plain, read_this};
use rhai_state::limits::Limits;
use rhai_state::scope::Scope;
use rhai_state::session::Session;
use rhai_steps::replies::{function_not_found, nullary_function_not_found};
use rhai_tree::expr::{Expr, Namespace};
use rhai_tree::position::Position;
use rhai_tree::{Shared, Text};
use rhai_values::base::value::{Dynamic, Host, Module, ModuleFn};
use rhai_values::cells::CellStore;
use std::alloc::Global;

/// Tells whether an argument is a variable.
fn is_variable(arg: &Expr) -> bool
    ensures { result ≡ is_some (variable_in (out-Expr arg.now)) }
{
    matches!(arg, Expr::Variable { .. })
}

/// Tells whether the first argument of a call behind a path is charged first and read last.
fn is_read_last<H: Host>(this: &Option<Dynamic<H>>, arg: &Expr) -> bool
    ensures { result ≡ read_last (out-Expr arg.now) this.now }
{
    this_in(arg, this).is_some() || is_variable(arg)
}

/// Splits the arguments of a call behind a path into the first one and those evaluated before it is read. The
/// first one stands apart only where it is charged first and read last.
pub fn split_last_read<'a, H: Host>(
    this: &Option<Dynamic<H>>,
    args: &'a [Expr],
) -> (Option<&'a Expr>, &'a [Expr])
    ensures last { option_copied result.0 ≡ last_of args.now this.now }
    ensures others { result.1.now ≡ before_last args.now this.now }
{
    let [first, rest @ ..] = args else {
        return (None, args);
    };
    if is_read_last(this, first) {
        return (Some(first), rest);
    }
    (None, args)
}

/// Charges what a call behind a path reads last, if it does so. Where the count has reached the limit, it
/// stays and the run stops.
#[inline(always)]
pub fn charge_last<H: Host>(
    limits: &Limits,
    global: &mut RunState<H>,
    place: &mut Option<EvalAltResult<H>>,
    last: Option<&Expr>,
) -> bool
    ensures charged { IsTrue result →
        IsCharged limits.now.max_operations (option_copied last.entry) global.old global.new }
    ensures spent { result ≡ false →
        IsSpent limits.now.max_operations (option_copied last.entry) global.old (error_in place.new) }
    ensures same { result ≡ false → global.new ≡ global.old }
    ensures counts { global.old.num_operations ≤ global.new.num_operations }
    ensures sight { KeepsSight global.old global.new }
{
    match last {
        Some(last) => charge_expr(limits, global, place, last),
        None => true,
    }
}

/// Copies a variable's value as it is passed by itself.
fn pass_entry<H: Host>(
    alloc: Global,
    cells: &CellStore<H>,
    value: &Dynamic<H>,
    name: &Shared<Text>,
    pos: Position,
) -> Result<Dynamic<H>, EvalAltResult<H>>
    ensures { Answers result (copy_passed (cells_of cells.now) pos
        (looked_up (cells_of cells.now) name.now pos value.now.value value.now)) }
{
    if is_held(cells, value) {
        return Err(data_race_of(name, pos));
    }
    pass_value(alloc, cells, value, pos)
}

/// Copies what a variable means, as it is passed by itself.
fn pass_variable<H: Host>(
    session: &Session<'_, H>,
    global: &RunState<H>,
    scope: &Scope<H>,
    variable: &Variable<'_>,
) -> Result<Dynamic<H>, EvalAltResult<H>>
    requires { AgreesAt global.now scope.now (offset_is_good variable.now) }
    ensures { Answers result (meaning_passed (cells_of global.now.cells) variable.now.at
        (meant (globals_in session.now.offered) (surroundings_of global.now) (entries_of scope.now)
        (variable_told variable.now))) }
{
    match entry_of_variable(
        global,
        scope,
        variable.offset,
        variable.name,
        variable.namespace,
    ) {
        Some(index) => pass_entry(
            session.alloc,
            &global.cells,
            scope.value_at(index),
            variable.name,
            variable.at,
        ),
        None => pass_beside(
            session,
            global,
            variable.name,
            variable.namespace,
            variable.at,
        ),
    }
}

/// Reads what is read last. None where it is neither a variable nor `this`.
fn read_last_value<H: Host>(
    session: &Session<'_, H>,
    global: &RunState<H>,
    scope: &Scope<H>,
    this: &Option<Dynamic<H>>,
    last: &Expr,
) -> Option<Result<Dynamic<H>, EvalAltResult<H>>>
    requires { AgreesAt global.now scope.now (form_is_good (out-Expr last.now)) }
    ensures { Means result (value_at (globals_in session.now.offered) (surroundings_of global.now)
        (entries_of scope.now) this.now (out-Expr last.now)) }
{
    match last {
        Expr::Variable {
            offset,
            name,
            namespace,
            pos,
        } => Some(pass_variable(
            session,
            global,
            scope,
            &Variable {
                offset: *offset,
                name,
                namespace,
                at: *pos,
            },
        )),
        Expr::ThisPtr(pos) => Some(read_this(session.alloc, this, *pos)),
        _ => None,
    }
}

/// Puts a value before the other arguments of a call.
fn put_first<H: Host>(
    args: &mut Few<Dynamic<H>>,
    first: Dynamic<H>,
    pos: Position,
) -> Result<(), EvalAltResult<H>>
    ensures put { OnOk result (args.new ≡ first ∷ args.old) }
    ensures refused { IfErr result (λ e. is_out_of_memory e ≡ true) }
{
    match args.insert(0, first) {
        Ok(()) => Ok(()),
        Err(_) => Err(EvalAltResult::ErrorOutOfMemory(pos)),
    }
}

/// Reads what is read last, if anything is, and puts it before the other arguments.
fn prepend_last<H: Host>(
    session: &Session<'_, H>,
    global: &RunState<H>,
    scope: &Scope<H>,
    this: &Option<Dynamic<H>>,
    last: Option<&Expr>,
    args: &mut Few<Dynamic<H>>,
    pos: Position,
) -> Result<(), EvalAltResult<H>>
    requires { AgreesAt global.now scope.now (last_is_good (option_copied last)) }
    ensures led { OnOk result (led_by (last_value (globals_in session.now.offered) (surroundings_of global.now)
        (entries_of scope.now) this.now (option_copied last.entry)) args.old ≡ Ok args.new) }
    ensures refused { IfErr result (λ e. is_out_of_memory e ≡ false →
        led_by (last_value (globals_in session.now.offered) (surroundings_of global.now)
        (entries_of scope.now) this.now (option_copied last.entry)) args.old ≡ Err e) }
{
    let Some(last) = last else {
        return Ok(());
    };
    match read_last_value(session, global, scope, this, last) {
        Some(Ok(first)) => put_first(args, first, pos),
        Some(Err(error)) => Err(error),
        None => Ok(()),
    }
}

/// Finds the public function of a key in the module that a path leads to from its root.
fn find_public_down<'m, H>(
    root: &'m Module<H>,
    path: &[Shared<Text>],
    key: FnKey<'_>,
) -> Option<&'m ModuleFn<H>>
    ensures { option_copied result ≡
        option_and_then (public_in (function_key_of key.entry)) (down path.now (Some root.now)) }
{
    find_public(find_down(root, path)?, key)
}

/// Builds the error where there is no function of a name behind a path that takes these arguments.
#[cold]
#[inline(never)]
fn no_function<H: Host>(
    alloc: Global,
    cells: &CellStore<H>,
    path: &[Shared<Text>],
    name: &str,
    args: &[Dynamic<H>],
    pos: Position,
) -> EvalAltResult<H>
    ensures { is_out_of_memory result ≡ false → result ≡ error.ErrorFunctionNotFound
        (signature (path_text path.now ++ text_behind (name.now ∷ []))
        (types_of H.name_of (cells_of cells.now) args.now)) pos }
{
    let Ok(name) = full_text(alloc, path, name) else {
        return EvalAltResult::ErrorOutOfMemory(pos);
    };
    match args {
        [] => nullary_function_not_found(alloc, name.as_str(), pos),
        [first, rest @ ..] => function_not_found(alloc, cells, name.as_str(), first, rest, pos),
    }
}

/// Shares a function that was found, with an owner of its own, or tells that there is none.
fn share_found<H: Host>(
    alloc: Global,
    cells: &CellStore<H>,
    found: Option<&ModuleFn<H>>,
    path: &[Shared<Text>],
    name: &str,
    args: &[Dynamic<H>],
    pos: Position,
) -> Result<Function<H>, EvalAltResult<H>>
    ensures { Answers result (public_or_unknown (option_copied found.entry) path.now name.now
        (types_of H.name_of (cells_of cells.now) args.now) pos) }
{
    match found {
        Some(function) => match share_function(function) {
            Ok(function) => Ok(function),
            Err(_) => Err(EvalAltResult::ErrorOutOfMemory(pos)),
        },
        None => Err(no_function(alloc, cells, path, name, args, pos)),
    }
}

/// Finds the public function of a name behind a path, whose root is found as `root_of` says, which asks the
/// same of its index. It takes so many arguments and no `this` of a certain type.
fn public_searched<H: Host>(
    session: &Session<'_, H>,
    global: &RunState<H>,
    namespace: &Namespace,
    name: &str,
    args: &[Dynamic<H>],
    pos: Position,
) -> Result<Function<H>, EvalAltResult<H>>
    requires { Fits (in_use global.now.always_search_scope namespace.now.index) (length global.now.lists.1) }
    ensures { Answers result (public_from_root (root_searched
        (in_use global.now.always_search_scope namespace.now.index) namespace.now.path global.now.lists.1
        session.now.offered.global_sub_modules.now) namespace.now.path namespace.now.position
        (key_by name.now (length args.now) None) (types_of H.name_of (cells_of global.now.cells) args.now)
        pos) }
{
    let path = namespace.path.as_slice();
    let [_root, rest @ ..] = path else {
        return Err(no_module(session.alloc, path, namespace.position));
    };
    let index = global.offset_in_use(namespace.index);
    match root_of(
        global.lists.imports(),
        session.offered.global_sub_modules,
        index,
        path,
    ) {
        Some(root) => {
            let key = FnKey {
                name,
                arity: args.len(),
                this_type: None,
            };
            let found = find_public_down(root, rest, key);
            share_found(session.alloc, &global.cells, found, path, name, args, pos)
        }
        None => Err(no_module(session.alloc, path, namespace.position)),
    }
}

/// Finds the public function that a name means behind a path, for these arguments. Asked: the index of the
/// path leads to the newest import of its first name, or is not in use.
fn public_function<H: Host>(
    session: &Session<'_, H>,
    global: &RunState<H>,
    namespace: &Namespace,
    name: &str,
    args: &[Dynamic<H>],
    pos: Position,
) -> Result<Function<H>, EvalAltResult<H>>
    requires { RootStands global.now namespace.now }
    ensures { Answers result (public_for (globals_in session.now.offered) (surroundings_of global.now)
        H.name_of (path_of namespace.now) name.now pos args.now) }
{
    if is_plain(namespace) {
        let path = namespace.path.as_slice();
        return Err(no_module(session.alloc, path, namespace.position));
    }
    public_searched(session, global, namespace, name, args, pos)
}

/// Makes a call behind a path whose arguments are all there.
fn call_public<H: Host>(
    session: &Session<'_, H>,
    global: &RunState<H>,
    namespace: &Namespace,
    name: &str,
    args: &[Dynamic<H>],
    pos: Position,
) -> Called<Dynamic<H>, Function<H>, H>
    requires { RootStands global.now namespace.now }
    ensures { Comes (with_args result args.now) (public_call (globals_in session.now.offered)
        (surroundings_of global.now) H.name_of (path_of namespace.now) name.now pos (Ok args.now)) }
{
    match public_function(session, global, namespace, name, args, pos) {
        Ok(function) => Called::Enters(function),
        Err(error) => Called::Ended(Err(error)),
    }
}

/// Makes a call behind a path whose other arguments are there. What is read last is read now: of a variable a
/// copy, without its handle, and of `this` a copy. The public function of the name in the module that the
/// path leads to is for the caller to enter, with all arguments in the list. Nothing is charged. Asked: a
/// variable's offset leads to the newest of its name, and the index of the path, as that of the variable's,
/// to the newest import of its first name.
///
/// # Errors
/// Those of reading the variable, at it, and `ErrorUnboundThis`; `ErrorModuleNotFound` at the path, where
/// nothing has its first name; and `ErrorFunctionNotFound` at the call, with the path, the name and the types
/// of the arguments.
pub fn call_behind<H: Host>(
    session: &Session<'_, H>,
    global: &RunState<H>,
    scope: &Scope<H>,
    this: &Option<Dynamic<H>>,
    last: Option<&Expr>,
    namespace: &Namespace,
    name: &str,
    args: &mut Few<Dynamic<H>>,
    pos: Position,
) -> Called<Dynamic<H>, Function<H>, H>
    requires { AgreesAt global.now scope.now (behind_is_good (option_copied last) namespace.now) }
    ensures { Comes (with_args result args.new) (behind_call (globals_in session.now.offered)
        (surroundings_of global.now) (entries_of scope.now) this.now H.name_of (option_copied last.entry)
        (path_of namespace.now) name.now args.old pos) }
{
    match prepend_last(session, global, scope, this, last, args, pos) {
        Ok(()) => {
            let all = args.as_slice();
            call_public(session, global, namespace, name, all, pos)
        }
        Err(error) => Called::Ended(Err(error)),
    }
}
