//! The place of a variable in a scope. The contracts cite specs/Search.antt and specs/Lends.antt.

ghost use Rattle.std.specs.Prelude.{◌≡◌, Some, Ok, Err, IfOk, IfErr, IsTrue, length, true, false};
ghost use Rattle.std.specs.Borrow.{sem};
ghost use Rattle.std.specs.Option.{option_copied};
ghost use Rattle.rhai_tree.specs.declared.expr.Expr.{out-Expr};
ghost use Rattle.rhai_values.specs.Cells.{cells_of};
ghost use Rattle.rhai_errors.specs.Errors.{is_out_of_memory};
ghost use Rattle.rhai_state.specs.Scope.{entries_of, Fits};
ghost use Rattle.rhai_names.specs.Lends.{lends_variable};
ghost use Rattle.rhai_steps.specs.Offers.{globals_in};
ghost use Rattle.rhai_steps.specs.Offsets.{index_in, offset_in};
ghost use Rattle.rhai_steps.specs.Callers.{surroundings_of};
ghost use Rattle.rhai_steps.specs.States.{surroundings_of as surroundings_in};
ghost use Rattle.rhai_eval.specs.Lends.{with_variable};
ghost use Rattle.rhai_eval.specs.Search.{is_variable, names_variable, value_there, variable_searched};
ghost use Rattle.rhai_eval.specs.Search.{IsBehind, IsBeside};

use rhai_context::{lend_state, return_state};
use rhai_errors::error::EvalAltResult;
use rhai_lookups::run::RunState;
use rhai_names::qualified::search_path;
use rhai_names::variables::{find_variable, is_plain, read_global};
use rhai_state::scope::Scope;
use rhai_state::session::Session;
use rhai_state::state::GlobalRuntimeState;
use rhai_tree::expr::Expr;
use rhai_values::base::value::{Dynamic, Host};

/// Lends the value of the variable that an expression names, to be changed where it stands. Where it has an
/// offset and variables are not searched for, it is that of the entry there, whatever its name, and else of
/// the newest of the name. Of a variable `Engine::search_scope_only` is this with the value as a target.
/// Asked for a variable alone, whose offset is at most the scope's length.
///
/// The scope comes first, so that a clause can tell what becomes of it: when the borrow ends, what was
/// written stands at the entry that was found, and every other entry is as it was. Of a variable that is the
/// handle of a cell the handle is lent, and not the value of the cell. At an error the scope is as it was.
///
/// # Errors
/// `ErrorVariableNotFound` where there is none, and `ErrorDataRace` where it is the handle of a cell
/// that is held, both at the variable.
pub fn variable_mut<'s, H: Host>(
    scope: &'s mut Scope<H>,
    global: &GlobalRuntimeState<H>,
    expr: &Expr,
) -> Result<&'s mut Dynamic<H>, EvalAltResult<H>>
    requires variable { is_variable (out-Expr expr.now) ≡ true }
    requires fits { Fits (offset_in global.now.always_search_scope (out-Expr expr.now))
        (length (entries_of scope.old)) }
    ensures* writes_back { sem 𝓛 (lends_variable H.row scope.entry
        (with_variable scope.entry.now global.now.always_search_scope (out-Expr expr.now)) result) }
    ensures found { IfOk result (λ value.
        variable_searched global.now.always_search_scope (out-Expr expr.now) (cells_of global.now.cells)
        (entries_of scope.old) ≡ Some (Ok value.now)) }
    ensures missed { IfErr result (λ e. is_out_of_memory e ≡ false →
        variable_searched global.now.always_search_scope (out-Expr expr.now) (cells_of global.now.cells)
        (entries_of scope.old) ≡ Some (Err e)) }
{
    match expr {
        Expr::Variable {
            offset,
            name,
            pos,
            ..
        } => {
            let offset = global.offset_in_use(*offset);
            find_variable(scope, &global.cells, offset, name, *pos)
        }
        _ => unreachable!(),
    }
}

/// Reads the value of the variable that an expression names, if the scope has it.
pub(crate) fn seen_variable<'s, H: Host>(
    scope: &'s Scope<H>,
    global: &GlobalRuntimeState<H>,
    expr: &Expr,
) -> Option<&'s Dynamic<H>>
    requires variable { is_variable (out-Expr expr.now) ≡ true }
    requires fits { Fits (offset_in global.now.always_search_scope (out-Expr expr.now))
        (length (entries_of scope.now)) }
    ensures { option_copied result ≡ value_there global.now.always_search_scope (out-Expr expr.now)
        (entries_of scope.now) }
{
    match expr {
        Expr::Variable { offset, name, .. } => {
            let offset = global.offset_in_use(*offset);
            let index = scope.place_of(offset, name.get().as_str())?;
            Some(scope.value_at(index))
        }
        _ => unreachable!(),
    }
}

/// Tells whether an expression is a variable behind a path.
pub(crate) fn is_behind_path(expr: &Expr) -> bool
    ensures behind { IsTrue result → is_variable (out-Expr expr.now) ≡ false }
    ensures alone { result ≡ false → names_variable (out-Expr expr.now) ≡ true →
        is_variable (out-Expr expr.now) ≡ true }
{
    match expr {
        Expr::Variable { namespace, .. } => !is_plain(namespace),
        _ => false,
    }
}

/// Reads what a name without a path means that no variable of the scope has, as
/// `rhai_names::variables::read_beside` reads it.
///
/// # Errors
/// `ErrorVariableNotFound` at the variable where there is no such thing.
pub(crate) fn value_alone<H: Host>(
    session: &Session<'_, H>,
    global: &GlobalRuntimeState<H>,
    expr: &Expr,
) -> Result<Dynamic<H>, EvalAltResult<H>>
    requires variable { is_variable (out-Expr expr.now) ≡ true }
    ensures { IsBeside (globals_in session.now.offered) (surroundings_of global.now) (out-Expr expr.now) result }
{
    match expr {
        Expr::Variable { name, pos, .. } => {
            read_global(session, global.lib.as_slice(), name, *pos)
        }
        _ => unreachable!(),
    }
}

/// Reads what a name behind a path means in a run, as `rhai_names::qualified::search_path` reads it, which asks
/// the same of the path's index.
///
/// # Errors
/// Those of `search_path`.
fn value_in_run<H: Host>(
    session: &Session<'_, H>,
    run: &RunState<H>,
    expr: &Expr,
) -> Result<Dynamic<H>, EvalAltResult<H>>
    requires variable { names_variable (out-Expr expr.now) ≡ true }
    requires behind { is_variable (out-Expr expr.now) ≡ false }
    requires fits { Fits (index_in run.now.always_search_scope (out-Expr expr.now)) (length run.now.lists.1) }
    ensures { IsBehind run.now.always_search_scope (globals_in session.now.offered)
        (surroundings_in run.now) (out-Expr expr.now) result }
{
    match expr {
        Expr::Variable {
            name,
            namespace,
            ..
        } => search_path(session, run, namespace, name.get().as_str()),
        _ => unreachable!(),
    }
}

/// Reads what a name behind a path means. The state is as it was then.
///
/// # Errors
/// Those of `value_in_run`.
pub(crate) fn value_behind<H: Host>(
    session: &Session<'_, H>,
    global: &mut GlobalRuntimeState<H>,
    expr: &Expr,
) -> Result<Dynamic<H>, EvalAltResult<H>>
    requires variable { names_variable (out-Expr expr.now) ≡ true }
    requires behind { is_variable (out-Expr expr.now) ≡ false }
    requires fits { Fits (index_in global.old.always_search_scope (out-Expr expr.now))
        (length global.old.imports) }
    ensures found { IsBehind global.old.always_search_scope (globals_in session.now.offered)
        (surroundings_of global.old) (out-Expr expr.now) result }
    ensures same { global.new ≡ global.old }
{
    let run = lend_state(session.alloc, global);
    let found = value_in_run(session, &run, expr);
    return_state(session.alloc, run, global);
    found
}
