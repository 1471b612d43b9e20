//! The statement `import`, but for the evaluation of its path. Ports `Stmt::Import` of upstream's
//! `eval/stmt.rs`, over the engine's table instead of a resolver.

ghost use Rattle.std.specs.Prelude.{◌≡◌, Err, IfOk, IsTrue, OnErr, OnOk, false, nat_le, true};
ghost use Rattle.rhai_tree.specs.Positions.{position_of, start_of};
ghost use Rattle.rhai_values.specs.Cells.{cells_of};
ghost use Rattle.rhai_errors.specs.Errors.{is_out_of_memory};
ghost use Rattle.rhai_machine.specs.language.Imports.{importing, module_meant, name_asked};
ghost use Rattle.rhai_machine.specs.language.State.{Answers};
ghost use Rattle.rhai_machine.specs.language.Values.{unit_value as unit};
ghost use Rattle.rhai_steps.specs.Agreement.{AddsImport};
ghost use Rattle.rhai_steps.specs.States.{local_of};
ghost use Rattle.rhai_context.specs.Ends.{came, error_in};
ghost use Rattle.rhai_stmt.specs.Imports.{Imports, importable};

use rhai_call_forms::pointers::text_of;
use rhai_context::ends::{stop, take_value};
use rhai_errors::error::EvalAltResult;
use rhai_lookups::run::RunState;
use rhai_state::limits::Limits;
use rhai_tree::expr::{Expr, Ident};
use rhai_tree::position::Position;
use rhai_tree::{Shared, Text};
use rhai_values::base::value::{Dynamic, Host, Import, Module, ModuleTable};
use std::alloc::{AllocError, Global};

/// Checks whether a module may be imported. Where it may not, the run stops.
///
/// # Errors
/// `ErrorTooManyModules` at the position, where as many are loaded as may be.
pub fn may_import<H: Host>(
    limits: &Limits,
    global: &RunState<H>,
    place: &mut Option<EvalAltResult<H>>,
    pos: Position,
) -> bool
    ensures { Answers (came result tt place.new)
        (importable pos (nat_le limits.now.max_modules global.now.num_modules_loaded)) }
{
    if global.num_modules_loaded >= limits.max_modules {
        return stop(place, EvalAltResult::ErrorTooManyModules(pos));
    }
    true
}

/// Returns the name that an alias asks for, or the empty one.
fn name_of(alloc: Global, alias: &Option<Ident>) -> Result<Shared<Text>, AllocError>
    ensures { IfOk result (λ name. name ≡ name_asked alias.now) }
{
    match alias {
        Some(alias) => alias.name.share(),
        None => Shared::new(alloc, Text::new(alloc)),
    }
}

/// Adds a module behind the others, under the name that is asked for, and counts it. Where memory runs out
/// nothing is changed.
fn push_module<H: Host>(
    alloc: Global,
    global: &mut RunState<H>,
    alias: &Option<Ident>,
    found: &Shared<Module<H>>,
) -> Result<(), AllocError>
    ensures imported { (scope : _) (held : _) → OnOk result (local_of global.new scope held
        ≡ importing (name_asked alias.now) found.now (local_of global.old scope held)) }
    ensures counts { global.new.num_operations ≡ global.old.num_operations }
    ensures sight { OnOk result (AddsImport (name_asked alias.now) global.old global.new) }
    ensures same { OnErr result (global.new ≡ global.old) }
{
    let name = name_of(alloc, alias)?;
    let module = found.share()?;
    global.lists.push_import(Import { name, module })?;
    global.num_modules_loaded = global.num_modules_loaded.saturating_add(1);
    Ok(())
}

/// Adds the module that a run's value leads to, which is `()` then. Where that fails the run stops, and
/// nothing but its value is changed.
///
/// # Errors
/// At the path: `ErrorDataRace` for a handle whose cell is held, `ErrorMismatchDataType` for a value that is
/// no text. At its start: `ErrorModuleNotFound`, and `ErrorOutOfMemory`.
pub fn import_module<H: Host>(
    alloc: Global,
    modules: &ModuleTable<H>,
    global: &mut RunState<H>,
    out: &mut Dynamic<H>,
    place: &mut Option<EvalAltResult<H>>,
    path: &Expr,
    alias: &Option<Ident>,
) -> bool
    ensures value { IsTrue result → out.new ≡ unit }
    ensures imports { (scope : _) (held : _) → IsTrue result →
        Imports (module_meant H.name_of (cells_of global.old.cells) modules.now.modules out.old
        (position_of path.now)
        (start_of path.now)) alias.now (local_of global.old scope held) (local_of global.new scope held) }
    ensures counts { global.new.num_operations ≡ global.old.num_operations }
    ensures sight { IsTrue result → AddsImport (name_asked alias.now) global.old global.new }
    ensures refused { result ≡ false → is_out_of_memory (error_in place.new) ≡ false →
        Err (error_in place.new)
        ≡ module_meant H.name_of (cells_of global.old.cells) modules.now.modules out.old
        (position_of path.now)
        (start_of path.now) }
    ensures same { result ≡ false → global.new ≡ global.old }
{
    let value = take_value(out);
    let name = match text_of(alloc, &global.cells, value, path.position()) {
        Ok(name) => name,
        Err(error) => return stop(place, error),
    };
    let Some(found) = modules.modules.get(name.get().as_str()) else {
        let error = EvalAltResult::ErrorModuleNotFound(name, path.start_position());
        return stop(place, error);
    };
    match push_module(alloc, global, alias, found) {
        Ok(()) => true,
        Err(_) => stop(
            place,
            EvalAltResult::ErrorOutOfMemory(path.start_position()),
        ),
    }
}
