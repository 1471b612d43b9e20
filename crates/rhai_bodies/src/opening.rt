//! A body is entered. The contracts cite the machine's specs/language/Bodies.antt and the crate's own
//! specs/Opening.antt and specs/Closing.antt.

ghost use Rattle.std.specs.Prelude.{◌≡◌, ◌≢◌, [], ◌++◌, false, true, length, take};
ghost use Rattle.std.specs.Prelude.{Err, IfErr, IfOk, IfSome, IsTrue, None, OnErr, OnOk};
ghost use Rattle.std.specs.Option.{option_copied};
ghost use Rattle.rhai_errors.specs.declared.error.EvalAltResult.TheVariants as error;
ghost use Rattle.rhai_errors.specs.Errors.{is_out_of_memory};
ghost use Rattle.rhai_state.specs.Scope.{entries_of};
ghost use Rattle.rhai_functions.specs.Entering.{left_of, parameters, TakesSome};
ghost use Rattle.rhai_machine.specs.language.Bodies.{statements_of as statements_in};
ghost use Rattle.rhai_context.specs.Ends.{error_in};
ghost use Rattle.rhai_bodies.specs.Closing.{taken_back};
ghost use Rattle.rhai_bodies.specs.Opening.{brought, entered_global, entry, exit_seen};
ghost use Rattle.rhai_bodies.specs.Opening.{is_deep, is_full as full_with};
ghost use Rattle.rhai_bodies.specs.Opening.{OnEntered, OnPassed, UnlessEntered};

use rhai_context::ends::stop;
use rhai_errors::error::EvalAltResult;
use rhai_functions::entering::push_parameters;
use rhai_lookups::lists::Lists;
use rhai_lookups::run::RunState;
use rhai_state::limits::Limits;
use rhai_state::scope::Scope;
use rhai_tree::Shared;
use rhai_tree::expr::Stmt;
use rhai_tree::function::{ScriptFuncDef, ScriptFuncPayload};
use rhai_tree::position::Position;
use rhai_values::base::value::{Dynamic, EncapsulatedEnviron, Host, Import, Module};
use std::alloc::AllocError;

/// What the end of a call takes back: the scope, the libraries and the imports up to these lengths, the table
/// of constants, and the level.
#[derive(Clone, Copy, Debug, PartialEq, Eq)]
pub struct CallExit {
    pub scope_length: usize,
    pub lib_length: usize,
    pub imports_length: usize,
    pub constants: usize,
    pub level: usize,
}

/// Notes what the end of a call will take back, as it stands now.
fn exit_now<H: Host>(global: &RunState<H>, scope: &Scope<H>) -> CallExit
    ensures { result ≡ exit_seen global.now scope.now }
{
    CallExit {
        scope_length: scope.len(),
        lib_length: global.lists.lib().len(),
        imports_length: global.lists.imports().len(),
        constants: global.constants,
        level: global.level,
    }
}

/// Returns the statements of a function.
pub fn statements_of(def: &ScriptFuncDef) -> &[Stmt]
    ensures { result.now ≡ statements_in def.now.body }
{
    match &def.body {
        ScriptFuncPayload::Statements(block) => block.statements.as_slice(),
    }
}

/// Tells whether a scope of so many variables has no room for so many parameters.
fn is_full(limits: &Limits, variables: usize, parameters: usize) -> bool
    ensures { result ≡ full_with limits.now variables parameters }
{
    variables > limits.max_variables || parameters > limits.max_variables - variables
}

/// Checks whether a body may be entered: calls are only so deep, and a scope has only so many variables.
///
/// # Errors
/// `ErrorStackOverflow` first, then `ErrorTooManyVariables`, both at the call.
fn may_enter<H: Host>(
    limits: &Limits,
    level: usize,
    scope: &Scope<H>,
    parameters: usize,
    pos: Position,
) -> Result<(), EvalAltResult<H>>
    ensures { result ≡ entry limits.now level (length (entries_of scope.now)) parameters pos }
{
    if level > limits.max_call_levels {
        return Err(EvalAltResult::ErrorStackOverflow(pos));
    }
    if is_full(limits, scope.len(), parameters) {
        return Err(EvalAltResult::ErrorTooManyVariables(pos));
    }
    Ok(())
}

/// Begins a call of a function, which gets a cache of its own where it has an environment, before that is
/// brought. Where there is no memory nothing is changed.
fn open_cache<H: Host>(
    global: &mut RunState<H>,
    environ: Option<&EncapsulatedEnviron<H>>,
) -> Result<(), AllocError>
    ensures { global.new ≡ global.old }
{
    if environ.is_none() {
        return Ok(());
    }
    global.lists.begin_call()
}

/// Ends such a call: the cache that it got goes.
#[inline(always)]
fn close_cache<H: Host>(global: &mut RunState<H>, environ: Option<&EncapsulatedEnviron<H>>)
    ensures { global.new ≡ global.old }
{
    if environ.is_none() {
        return;
    }
    global.lists.end_call();
}

/// Adds libraries behind those that are there. Where memory runs out some may have been added.
fn add_libraries<H: Host>(
    lists: &mut Lists<H>,
    more: &[Shared<Module<H>>],
) -> Result<(), AllocError>
    ensures ok { OnOk result (lists.new ≡ (lists.old.0 ++ more.now, lists.old.1)) }
    ensures lib { OnErr result (take (length lists.old.0) lists.new.0 ≡ lists.old.0) }
    ensures imports { OnErr result (lists.new.1 ≡ lists.old.1) }
{
    let mut at = 0;
    'modules: while at < more.len() {
        lists.push_lib(more[at].share()?)?;
        at += 1;
    }
    Ok(())
}

/// Adds imports behind those that are there. Where memory runs out some may have been added.
fn add_imports<H: Host>(lists: &mut Lists<H>, more: &[Import<H>]) -> Result<(), AllocError>
    ensures ok { OnOk result (lists.new ≡ (lists.old.0, lists.old.1 ++ more.now)) }
    ensures lib { OnErr result (lists.new.0 ≡ lists.old.0) }
    ensures imports { OnErr result (take (length lists.old.1) lists.new.1 ≡ lists.old.1) }
{
    let mut at = 0;
    'imports: while at < more.len() {
        lists.push_import(Import {
            name: more[at].name.share()?,
            module: more[at].module.share()?,
        })?;
        at += 1;
    }
    Ok(())
}

/// Brings the imports and libraries of a function's environment, and its table of constants. Where memory
/// runs out some may be there.
fn bring<H: Host>(
    global: &mut RunState<H>,
    environ: Option<&EncapsulatedEnviron<H>>,
) -> Result<(), AllocError>
    ensures ok { OnOk result (global.new ≡ brought (option_copied environ.entry) global.old) }
    ensures err { OnErr result ((scope : _) →
        taken_back (exit_seen global.old scope) global.new ≡ global.old) }
    ensures search { global.new.always_search_scope ≡ global.old.always_search_scope }
{
    let Some(environ) = environ else {
        return Ok(());
    };
    add_libraries(&mut global.lists, environ.lib.as_slice())?;
    add_imports(&mut global.lists, environ.imports.as_slice())?;
    global.constants = environ.constants;
    Ok(())
}

/// Adds the variables and the surroundings of a body, its level aside. Where memory runs out some may be
/// there.
fn add_surroundings<H: Host>(
    global: &mut RunState<H>,
    scope: &mut Scope<H>,
    def: &ScriptFuncDef,
    environ: Option<&EncapsulatedEnviron<H>>,
    args: &mut [Dynamic<H>],
) -> Result<(), AllocError>
    ensures state { OnOk result (global.new ≡ brought (option_copied environ.entry) global.old) }
    ensures variables { OnOk result (entries_of scope.new ≡ entries_of scope.old
        ++ parameters def.now.params args.old) }
    ensures left { OnOk result (args.new ≡ left_of (length def.now.params) args.old) }
    ensures taken { TakesSome args.old args.new }
    ensures state_back { OnErr result (taken_back (exit_seen global.old scope.old) global.new ≡ global.old) }
    ensures search { global.new.always_search_scope ≡ global.old.always_search_scope }
    ensures variables_back { OnErr result (take (length (entries_of scope.old)) (entries_of scope.new)
        ≡ entries_of scope.old) }
{
    bring(global, environ)?;
    push_parameters(scope, def.params.as_slice(), args)
}

/// Adds the variables and the surroundings of a body, its level aside. A function with an environment gets a
/// cache of its own before. Where memory runs out that is gone again, and some of the others may be there.
fn surround<H: Host>(
    global: &mut RunState<H>,
    scope: &mut Scope<H>,
    def: &ScriptFuncDef,
    environ: Option<&EncapsulatedEnviron<H>>,
    args: &mut [Dynamic<H>],
) -> Result<(), AllocError>
    ensures state { OnOk result (global.new ≡ brought (option_copied environ.entry) global.old) }
    ensures variables { OnOk result (entries_of scope.new ≡ entries_of scope.old
        ++ parameters def.now.params args.old) }
    ensures left { OnOk result (args.new ≡ left_of (length def.now.params) args.old) }
    ensures taken { TakesSome args.old args.new }
    ensures state_back { OnErr result (taken_back (exit_seen global.old scope.old) global.new ≡ global.old) }
    ensures search { global.new.always_search_scope ≡ global.old.always_search_scope }
    ensures variables_back { OnErr result (take (length (entries_of scope.old)) (entries_of scope.new)
        ≡ entries_of scope.old) }
{
    let has_cache = open_cache(global, environ).is_ok();
    if !has_cache {
        return Err(AllocError);
    }
    match add_surroundings(global, scope, def, environ, args) {
        Ok(()) => Ok(()),
        Err(error) => {
            close_cache(global, environ);
            Err(error)
        }
    }
}

/// Takes back everything that a call has brought.
#[inline(always)]
pub fn take_back<H: Host>(global: &mut RunState<H>, exit: CallExit)
    ensures state { global.new ≡ taken_back exit global.old }
    ensures search { global.new.always_search_scope ≡ global.old.always_search_scope }
{
    global.lists.truncate(exit.lib_length, exit.imports_length);
    global.constants = exit.constants;
    global.level = exit.level;
}

/// Takes back everything that a call of a function has brought, and the cache that it got.
#[inline(always)]
pub(crate) fn leave_surroundings<H: Host>(
    global: &mut RunState<H>,
    environ: Option<&EncapsulatedEnviron<H>>,
    exit: CallExit,
)
    ensures state { global.new ≡ taken_back exit global.old }
    ensures search { global.new.always_search_scope ≡ global.old.always_search_scope }
{
    close_cache(global, environ);
    take_back(global, exit);
}

/// Enters a body at a level, its call charged. The parameters are pushed as variables that may be written,
/// each with its argument, of which `()` is left, or with `()` where there is none; and an environment brings
/// its imports and libraries, and its table of constants. None for a body without statements, which takes
/// nothing. Ports what upstream's `call_script_fn` does before the body.
///
/// # Errors
/// All at the call: `ErrorStackOverflow`, then `ErrorTooManyVariables`. Scope and state are then as they
/// were, and so are the arguments, but that some may have been taken where memory ran out.
pub fn open_function<H: Host>(
    limits: &Limits,
    level: usize,
    global: &mut RunState<H>,
    scope: &mut Scope<H>,
    def: &ScriptFuncDef,
    environ: Option<&EncapsulatedEnviron<H>>,
    args: &mut [Dynamic<H>],
    pos: Position,
) -> Result<Option<CallExit>, EvalAltResult<H>>
    ensures not_deep { OnOk result (is_deep limits.now level ≡ false) }
    ensures not_full { OnOk result (full_with limits.now (length (entries_of scope.old))
        (length def.now.params) ≡ false) }
    ensures refused { IfErr result (λ e. is_out_of_memory e ≡ false → entry limits.now
        level (length (entries_of scope.old)) (length def.now.params) pos ≡ Err e) }
    ensures ran_out { IfErr result (λ e. is_out_of_memory e ≡ true → (e ≡ error.ErrorOutOfMemory pos)
        × (entry {H = H} limits.now level (length (entries_of scope.old))
        (length def.now.params) pos ≡ Ok tt)) }
    ensures exit { IfOk result (λ opened. IfSome opened (λ exit. exit ≡ exit_seen global.old scope.old)) }
    ensures body { OnEntered result (statements_in def.now.body ≢ []) }
    ensures variables { OnEntered result (entries_of scope.new ≡ entries_of scope.old
        ++ parameters def.now.params args.old) }
    ensures state { OnEntered result (global.new
        ≡ entered_global (option_copied environ.entry) level global.old) }
    ensures search { global.new.always_search_scope ≡ global.old.always_search_scope }
    ensures left { OnEntered result (args.new ≡ left_of (length def.now.params) args.old) }
    ensures no_body { OnPassed result (statements_in def.now.body ≡ []) }
    ensures same_scope { UnlessEntered result (entries_of scope.new ≡ entries_of scope.old) }
    ensures same_state { UnlessEntered result (global.new ≡ global.old) }
    ensures same_args { OnPassed result (args.new ≡ args.old) }
    ensures untaken { IfErr result (λ e. is_out_of_memory e ≡ false → args.new ≡ args.old) }
    ensures taken { TakesSome args.old args.new }
{
    may_enter(limits, level, scope, def.params.len(), pos)?;
    if statements_of(def).is_empty() {
        return Ok(None);
    }
    let exit = exit_now(global, scope);
    match surround(global, scope, def, environ, args) {
        Ok(()) => {
            global.level = level;
            Ok(Some(exit))
        }
        Err(_) => {
            take_back(global, exit);
            scope.rewind(exit.scope_length);
            Err(EvalAltResult::ErrorOutOfMemory(pos))
        }
    }
}

/// Checks whether a function may be entered at a level, its call charged. Its parameters are its only
/// variables. An error stands in the run's place.
///
/// # Errors
/// Both at the call: `ErrorStackOverflow`, then `ErrorTooManyVariables`.
#[inline(always)]
pub fn may_run<H: Host>(
    limits: &Limits,
    level: usize,
    place: &mut Option<EvalAltResult<H>>,
    def: &ScriptFuncDef,
    pos: Position,
) -> bool
    ensures not_deep { IsTrue result → is_deep limits.now level ≡ false }
    ensures not_full { IsTrue result → full_with limits.now 0 (length def.now.params) ≡ false }
    ensures refused { result ≡ false →
        entry limits.now level 0 (length def.now.params) pos ≡ Err (error_in place.new) }
    ensures memory { result ≡ false → is_out_of_memory (error_in place.new) ≡ false }
{
    if level > limits.max_call_levels {
        return stop(place, EvalAltResult::ErrorStackOverflow(pos));
    }
    if is_full(limits, 0, def.params.len()) {
        return stop(place, EvalAltResult::ErrorTooManyVariables(pos));
    }
    true
}

/// Enters a function without an environment at a level. Its parameters are its only variables, and stand in
/// their scope already. It tells what the end of the call takes back.
#[inline(always)]
pub fn enter_level<H: Host>(global: &mut RunState<H>, level: usize) -> CallExit
    ensures exit { (scope : _) → result ≡ record (exit_seen global.old scope) { scope_length = 0 } }
    ensures state { global.new ≡ entered_global None level global.old }
    ensures search { global.new.always_search_scope ≡ global.old.always_search_scope }
{
    let exit = CallExit {
        scope_length: 0,
        lib_length: global.lists.lib().len(),
        imports_length: global.lists.imports().len(),
        constants: global.constants,
        level: global.level,
    };
    global.level = level;
    exit
}
