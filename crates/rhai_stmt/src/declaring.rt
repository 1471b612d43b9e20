//! Variables that a script declares, and those that it overwrites. Ports what upstream's `eval_stmt` does
//! with a `let` and a `const`.

ghost use Rattle.std.specs.Prelude.{◌≡◌, ◌<◌, ◌&&◌, [], IfErr, IsTrue, None, OnErr, OnOk, Some, false, true};
ghost use Rattle.std.specs.Prelude.{is_none, length, slice_get};
ghost use Rattle.std.specs.Option.{option_map};
ghost use Rattle.rhai_tree.specs.Forms.{is_exported as exported};
ghost use Rattle.rhai_tree.specs.Frame.{var_names};
ghost use Rattle.rhai_errors.specs.Errors.{is_out_of_memory};
ghost use Rattle.rhai_state.specs.Scope.{entries_of, index_of, names_in, value_of};
ghost use Rattle.rhai_machine.specs.language.State.{Answers};
ghost use Rattle.rhai_machine.specs.language.Statements.{constant_core, enters};
ghost use Rattle.rhai_machine.specs.language.Values.{unit_value as unit};
ghost use Rattle.rhai_steps.specs.Agreement.{AgreesAt, KeepsSight, variable_is_good};
ghost use Rattle.rhai_names.specs.Declaring.{declarable, is_full, is_taken};
ghost use Rattle.rhai_steps.specs.States.{local_of};
ghost use Rattle.rhai_context.specs.Ends.{came, error_in};
ghost use Rattle.rhai_stmt.specs.Declares.{own_alias, Declares, Misses};

use rhai_context::ends::{stop, take_value};
use rhai_errors::error::EvalAltResult;
use rhai_lookups::run::RunState;
use rhai_names::constants::enter_constant;
use rhai_names::variables::{
    define_variable, index_of_variable, is_exported, may_declare, mode_of,
};
use rhai_state::limits::Limits;
use rhai_state::scope::Scope;
use rhai_tree::expr::Ident;
use rhai_tree::flags::ASTFlags;
use rhai_tree::position::Position;
use rhai_tree::{Shared, Text};
use rhai_values::base::value::{Dynamic, Host};
use std::alloc::Global;
use std::num::NonZeroUsize;

/// A declaration of a variable: its name, the entry that it overwrites, if it does, its flags, whether its block takes back
/// what it adds, and where it stands.
#[derive(Clone, Copy)]
pub struct Declaration<'a> {
    pub ident: &'a Ident,
    pub index: Option<NonZeroUsize>,
    pub options: ASTFlags,
    pub restoring: bool,
    pub at: Position,
}

/// Checks whether a variable may be declared; one that overwrites another needs no room. Where it may not,
/// the run stops.
///
/// # Errors
/// Those of `may_declare`.
#[inline(always)]
pub fn is_declarable<H: Host>(
    limits: &Limits,
    allow_shadowing: bool,
    scope: &Scope<H>,
    place: &mut Option<EvalAltResult<H>>,
    name: &Shared<Text>,
    index: Option<NonZeroUsize>,
    pos: Position,
) -> bool
    ensures { Answers (came result tt place.new) (declarable name.now pos (is_taken allow_shadowing name.now
        (entries_of scope.now)) (is_none index && is_full limits.now (entries_of scope.now))) }
{
    match may_declare(limits, allow_shadowing, scope, name, index, pos) {
        Ok(()) => true,
        Err(error) => stop(place, error),
    }
}

/// Gives an entry its variable's own name as an alias, where the variable is exported. Where memory runs out
/// the scope stays.
///
/// # Errors
/// `ErrorOutOfMemory` at the position alone.
fn add_own_alias<H: Host>(
    scope: &mut Scope<H>,
    at: usize,
    name: &Shared<Text>,
    options: ASTFlags,
    pos: Position,
) -> Result<(), EvalAltResult<H>>
    requires { at < length (entries_of scope.old) }
    ensures aliased { OnOk result (entries_of scope.new
        ≡ own_alias (exported options) (entries_of scope.old) at name.now) }
    ensures refused { IfErr result (λ e. is_out_of_memory e ≡ true) }
    ensures same { OnErr result (entries_of scope.new ≡ entries_of scope.old) }
{
    if !is_exported(options) {
        return Ok(());
    }
    let Ok(alias) = name.share() else {
        return Err(EvalAltResult::ErrorOutOfMemory(pos));
    };
    match scope.add_alias(at, alias) {
        Ok(()) => Ok(()),
        Err(_) => Err(EvalAltResult::ErrorOutOfMemory(pos)),
    }
}

/// Adds what comes with the variable at an entry. Where it is exported that is its own name as an alias, and
/// where it is a constant at the top its value among the constants of a script that has a library. Where
/// memory runs out nothing is changed.
///
/// # Errors
/// `ErrorOutOfMemory` at the position alone.
fn publish<H: Host>(
    alloc: Global,
    global: &mut RunState<H>,
    scope: &mut Scope<H>,
    at: usize,
    declaration: &Declaration<'_>,
) -> Result<(), EvalAltResult<H>>
    requires { at < length (entries_of scope.old) }
    ensures aliased { OnOk result (entries_of scope.new
        ≡ own_alias (exported declaration.now.options) (entries_of scope.old) at declaration.now.ident.now.name) }
    ensures entered { (v : _) (s : _) (held : _) → OnOk result
        (option_map value_of (slice_get (entries_of scope.old) at) ≡ Some v → local_of global.new s held
        ≡ constant_core (enters declaration.now.options declaration.now.restoring (local_of global.old s held)) declaration.now.ident.now.name v
        (local_of global.old s held)) }
    ensures counts { global.new.num_operations ≡ global.old.num_operations }
    ensures sight { KeepsSight global.old global.new }
    ensures refused { IfErr result (λ e. is_out_of_memory e ≡ true) }
    ensures same { OnErr result (global.new ≡ global.old) }
    ensures same_scope { OnErr result (entries_of scope.new ≡ entries_of scope.old) }
{
    let count = scope.entries()[at].aliases.len();
    add_own_alias(
        scope,
        at,
        &declaration.ident.name,
        declaration.options,
        declaration.at,
    )?;
    let value = scope.value_at(at);
    let entered = enter_constant(
        alloc,
        global,
        &declaration.ident.name,
        value,
        declaration.options,
        declaration.restoring,
        declaration.at,
    );
    if let Err(error) = entered {
        scope.truncate_aliases(at, count);
        return Err(error);
    }
    Ok(())
}

/// Adds a variable with a value. Where memory runs out nothing is changed.
///
/// # Errors
/// `ErrorOutOfMemory` at the position alone.
fn add_variable<H: Host>(
    alloc: Global,
    global: &mut RunState<H>,
    scope: &mut Scope<H>,
    value: Dynamic<H>,
    declaration: &Declaration<'_>,
) -> Result<(), EvalAltResult<H>>
    ensures declares { (held : _) → OnOk result (Declares value declaration.now.ident.now None declaration.now.options declaration.now.restoring
        (local_of global.old scope.old held) (local_of global.new scope.new held)) }
    ensures names { OnOk result (names_in scope.new ≡ var_names None declaration.now.ident.now.name (names_in scope.old)) }
    ensures counts { global.new.num_operations ≡ global.old.num_operations }
    ensures sight { KeepsSight global.old global.new }
    ensures refused { IfErr result (λ e. is_out_of_memory e ≡ true) }
    ensures same { OnErr result (global.new ≡ global.old) }
    ensures same_scope { OnErr result (entries_of scope.new ≡ entries_of scope.old) }
{
    let at = scope.len();
    define_variable(
        scope,
        declaration.ident,
        mode_of(declaration.options),
        value,
        declaration.at,
    )?;
    let published = publish(alloc, global, scope, at, declaration);
    if let Err(error) = published {
        scope.rewind(at);
        return Err(error);
    }
    Ok(())
}

/// Enters the value of a variable that is to overwrite another where none has its name. It goes among the
/// constants, as `publish` has it. Where memory runs out nothing is changed.
///
/// # Errors
/// `ErrorVariableNotFound` at the name where the variable is exported, and `ErrorOutOfMemory` at the
/// position.
#[cold]
#[inline(never)]
fn overwrite_none<H: Host>(
    alloc: Global,
    global: &mut RunState<H>,
    value: &Dynamic<H>,
    declaration: &Declaration<'_>,
) -> Result<(), EvalAltResult<H>>
    ensures declares { (offset : _) (scope : _) (held : _) → index_of declaration.now.ident.now.name (entries_of scope) ≡ None →
        OnOk result (Declares value.now declaration.now.ident.now (Some offset) declaration.now.options declaration.now.restoring
        (local_of global.old scope held) (local_of global.new scope held)) }
    ensures misses { (offset : _) (scope : _) (held : _) → index_of declaration.now.ident.now.name (entries_of scope) ≡ None →
        IfErr result (λ e. is_out_of_memory e ≡ false → Misses value.now declaration.now.ident.now (Some offset) declaration.now.options
        declaration.now.restoring e (local_of global.old scope held) (local_of global.new scope held)) }
    ensures counts { global.new.num_operations ≡ global.old.num_operations }
    ensures sight { KeepsSight global.old global.new }
    ensures same { IfErr result (λ e. is_out_of_memory e ≡ true → global.new ≡ global.old) }
{
    if !is_exported(declaration.options) {
        return enter_constant(
            alloc,
            global,
            &declaration.ident.name,
            value,
            declaration.options,
            declaration.restoring,
            declaration.at,
        );
    }
    let Ok(name) = declaration.ident.name.share() else {
        return Err(EvalAltResult::ErrorOutOfMemory(declaration.at));
    };
    match enter_constant(
        alloc,
        global,
        &declaration.ident.name,
        value,
        declaration.options,
        declaration.restoring,
        declaration.at,
    ) {
        Ok(()) => Err(EvalAltResult::ErrorVariableNotFound(name, declaration.ident.pos)),
        Err(error) => Err(error),
    }
}

/// Puts a value into the newest variable of a name as it stands there, a constant or a handle too. Where
/// memory runs out nothing is changed. Asked: the offset leads to that variable, or variables are searched
/// for.
///
/// # Errors
/// `ErrorOutOfMemory` at the position, and `ErrorVariableNotFound` at the name where no variable has it and
/// it is to be exported.
fn overwrite_variable<H: Host>(
    alloc: Global,
    global: &mut RunState<H>,
    scope: &mut Scope<H>,
    mut value: Dynamic<H>,
    declaration: &Declaration<'_>,
    offset: NonZeroUsize,
) -> Result<(), EvalAltResult<H>>
    requires { AgreesAt global.old scope.old (variable_is_good (Some offset) declaration.now.ident.now.name []) }
    ensures declares { (held : _) → OnOk result (Declares value declaration.now.ident.now (Some offset) declaration.now.options declaration.now.restoring
        (local_of global.old scope.old held) (local_of global.new scope.new held)) }
    ensures names { OnOk result (names_in scope.new
        ≡ var_names (Some offset) declaration.now.ident.now.name (names_in scope.old)) }
    ensures counts { global.new.num_operations ≡ global.old.num_operations }
    ensures sight { KeepsSight global.old global.new }
    ensures misses { (held : _) → IfErr result (λ e. is_out_of_memory e ≡ false → Misses value declaration.now.ident.now
        (Some offset) declaration.now.options declaration.now.restoring e (local_of global.old scope.old held)
        (local_of global.new scope.new held)) }
    ensures same { IfErr result (λ e. is_out_of_memory e ≡ true → global.new ≡ global.old) }
    ensures same_scope { OnErr result (entries_of scope.new ≡ entries_of scope.old) }
{
    let Some(at) = index_of_variable(global, scope, Some(offset), &declaration.ident.name) else {
        return overwrite_none(alloc, global, &value, declaration);
    };
    value.set_access_mode(mode_of(declaration.options));
    let before = scope.replace_value(at, value);
    let published = publish(alloc, global, scope, at, declaration);
    if let Err(error) = published {
        scope.replace_value(at, before);
        return Err(error);
    }
    Ok(())
}

/// Declares a variable with the value of a run, which is `()` then. It is a new one, or, with an offset,
/// overwrites the one that it leads to. An exported one has its own name as an alias; a constant at the top
/// of a script that has a library is entered among its constants. Where memory runs out the run stops, and
/// nothing but its value is changed. Asked: the offset leads to the newest variable of the name, or variables
/// are searched for.
///
/// # Errors
/// `ErrorOutOfMemory` at the position, and `ErrorVariableNotFound` at the name of one that is to overwrite
/// another and to be exported, where no variable has it.
pub fn declare<H: Host>(
    alloc: Global,
    global: &mut RunState<H>,
    scope: &mut Scope<H>,
    out: &mut Dynamic<H>,
    place: &mut Option<EvalAltResult<H>>,
    declaration: &Declaration<'_>,
) -> bool
    requires { AgreesAt global.old scope.old (variable_is_good declaration.now.index declaration.now.ident.now.name []) }
    ensures value { IsTrue result → out.new ≡ unit }
    ensures declares { (held : _) → IsTrue result → Declares out.old declaration.now.ident.now declaration.now.index declaration.now.options declaration.now.restoring
        (local_of global.old scope.old held) (local_of global.new scope.new held) }
    ensures names { IsTrue result → names_in scope.new ≡ var_names declaration.now.index declaration.now.ident.now.name (names_in scope.old) }
    ensures counts { global.new.num_operations ≡ global.old.num_operations }
    ensures sight { KeepsSight global.old global.new }
    ensures misses { (held : _) → result ≡ false → is_out_of_memory (error_in place.new) ≡ false →
        Misses out.old declaration.now.ident.now declaration.now.index declaration.now.options declaration.now.restoring (error_in place.new)
        (local_of global.old scope.old held) (local_of global.new scope.new held) }
    ensures same { result ≡ false → is_out_of_memory (error_in place.new) ≡ true → global.new ≡ global.old }
    ensures same_scope { result ≡ false → entries_of scope.new ≡ entries_of scope.old }
{
    let value = take_value(out);
    let declared = match declaration.index {
        None => add_variable(alloc, global, scope, value, declaration),
        Some(offset) => overwrite_variable(alloc, global, scope, value, declaration, offset),
    };
    match declared {
        Ok(()) => true,
        Err(error) => stop(place, error),
    }
}
