//! The constants of a script that has a library: they are entered into the state's current table, where its
//! functions find them. Ports what upstream's `eval_stmt` does with a constant at the top.

ghost use Rattle.std.specs.Prelude.{◌≡◌, OnOk, OnErr, IfErr, slice_get, true};
ghost use Rattle.std.specs.List.{list_any};
ghost use Rattle.rhai_values.specs.Copy.{copy_of};
ghost use Rattle.rhai_errors.specs.Errors.{is_out_of_memory};
ghost use Rattle.rhai_machine.specs.language.Statements.{constant_core, enters as enters_in};
ghost use Rattle.rhai_machine.specs.language.Statements.{has_some as has_some_in, with_entry_at};
ghost use Rattle.rhai_steps.specs.Agreement.{KeepsSight};
ghost use Rattle.rhai_steps.specs.States.{local_of};

use bitflags::Flags;
use rhai_errors::error::EvalAltResult;
use rhai_lookups::run::RunState;
use rhai_steps::values::copy;
use rhai_tree::flags::ASTFlags;
use rhai_tree::position::Position;
use rhai_tree::{Shared, Text};
use rhai_values::base::value::{Dynamic, Host, Module};
use std::alloc::Global;

/// Tells whether a library has anything in it.
fn has_some<H>(within: &Module<H>) -> bool
    ensures { result ≡ has_some_in within.now }
{
    !within.functions.is_empty() || within.constants.len() > 0 || within.sub_modules.len() > 0
}

/// Tells whether some library has anything in it.
fn any_has_some<H>(lib: &[Shared<Module<H>>]) -> bool
    ensures { result ≡ list_any has_some_in lib.now }
{
    'modules: for library in lib {
        if has_some(library.get()) {
            return true;
        }
    }
    false
}

/// Tells whether a variable with these options is entered. That is a constant at the top of a script that has
/// a library.
fn enters<H>(global: &RunState<H>, options: ASTFlags, restoring: bool) -> bool
    ensures { (scope : _) (held : _) → result ≡ enters_in options restoring (local_of global.now scope held) }
{
    options.contains(ASTFlags::CONSTANT)
        && !restoring
        && global.scope_level == 0
        && any_has_some(global.lists.lib())
}

/// Copies a value into the current table of constants, under a name.
fn add_constant<H: Host>(
    alloc: Global,
    global: &mut RunState<H>,
    name: &Shared<Text>,
    value: &Dynamic<H>,
    pos: Position,
) -> Result<(), EvalAltResult<H>>
    ensures entered { OnOk result (global.new ≡ record global.old {
      constant_tables = with_entry_at name.now
          (copy_of value.now) global.old.constant_tables global.old.constants
          (slice_get global.old.constant_tables global.old.constants);
    }) }
    ensures refused { IfErr result (λ e. is_out_of_memory e ≡ true) }
    ensures same { OnErr result (global.new ≡ global.old) }
    ensures sight { KeepsSight global.old global.new }
{
    let at = global.constants;
    let is_there = at < global.constant_tables.len();
    if !is_there {
        return Ok(());
    }
    let value = copy(alloc, value, pos)?;
    let Ok(name) = name.share() else {
        return Err(EvalAltResult::ErrorOutOfMemory(pos));
    };
    match global.constant_tables.at_mut(at).insert(name, value) {
        Ok(_) => Ok(()),
        Err(_) => Err(EvalAltResult::ErrorOutOfMemory(pos)),
    }
}

/// Enters a new variable's value into the current table of constants, as a copy. It does so where the
/// variable is a constant at the top of a script that has a library. A later one of the name replaces an
/// earlier.
///
/// # Errors
/// `ErrorOutOfMemory` at the position alone, and then nothing is entered.
pub fn enter_constant<H: Host>(
    alloc: Global,
    global: &mut RunState<H>,
    name: &Shared<Text>,
    value: &Dynamic<H>,
    options: ASTFlags,
    restoring: bool,
    pos: Position,
) -> Result<(), EvalAltResult<H>>
    ensures entered { (scope : _) (held : _) → OnOk result (local_of global.new scope held
        ≡ constant_core (enters_in options restoring (local_of global.old scope held)) name.now value.now
        (local_of global.old scope held)) }
    ensures counts { global.new.num_operations ≡ global.old.num_operations }
    ensures sight { KeepsSight global.old global.new }
    ensures refused { IfErr result (λ e. is_out_of_memory e ≡ true) }
    ensures same { OnErr result (global.new ≡ global.old) }
{
    let is_entered = enters(global, options, restoring);
    if is_entered {
        return add_constant(alloc, global, name, value, pos);
    }
    Ok(())
}
