//! Variables that a script exports. Ports `Stmt::Export` of upstream's `eval/stmt.rs`; the contracts speak of
//! the machine's runs.

ghost use Rattle.std.specs.Prelude.{◌≡◌};
ghost use Rattle.rhai_tree.specs.declared.expr.Expr.TheOpen as layer;
ghost use Rattle.rhai_state.specs.Scope.{names_in};
ghost use Rattle.rhai_machine.specs.language.Exports.{alias_or as alias_of};
ghost use Rattle.rhai_machine.specs.language.Frames.{OpenStmt};
ghost use Rattle.rhai_machine.specs.language.Runs.{Runs};
ghost use Rattle.rhai_steps.specs.Sessions.{under};
ghost use Rattle.rhai_steps.specs.States.{state_of};
ghost use Rattle.rhai_context.specs.Ends.{came};

use rhai_context::ends::{put_unit, stop};
use rhai_errors::error::EvalAltResult;
use rhai_errors::errors::variable_not_found;
use rhai_errors::table::NativeTable;
use rhai_state::scope::Scope;
use rhai_state::session::Session;
use rhai_tree::expr::Ident;
use rhai_tree::{Shared, Text};
use rhai_values::base::value::{Dynamic, Host};

/// Returns the alias that is asked for, or else the variable's own name. An empty one is none.
fn alias_or<'a>(own: &'a Shared<Text>, alias: &'a Option<Ident>) -> &'a Shared<Text>
    ensures { result.now ≡ alias_of own.now alias.now }
{
    match alias {
        None => own,
        Some(alias) => {
            if alias.name.get().as_str().is_empty() {
                own
            } else {
                &alias.name
            }
        }
    }
}

/// Gives the newest variable of a name an alias, or its own name as one, unless it has it already. How that
/// ended stands in the run, whose value is `()` then. The table is not called.
///
/// # Errors
/// At the name: `ErrorVariableNotFound` where no variable has it, and `ErrorOutOfMemory`; then nothing is
/// changed.
pub fn export_variable<H: Host, T: NativeTable<H>>(
    session: &Session<'_, H>,
    _table: &T,
    scope: &mut Scope<H>,
    out: &mut Dynamic<H>,
    place: &mut Option<EvalAltResult<H>>,
    ident: &Ident,
    alias: &Option<Ident>,
) -> bool
    ensures names { names_in scope.new ≡ names_in scope.old }
    ensures runs { (global : _) (held : _) (pos : _) (restoring : _) →
        Runs (under H.name_of session.now T.natives)
        (OpenStmt (layer.Export ident.now alias.now pos) restoring)
        (state_of (T.state _table.now) global scope.old held)
        (came result out.new place.new) (state_of (T.state _table.now) global scope.new held) }
{
    let Some(index) = scope.place_of(None, ident.name.get().as_str()) else {
        return stop(place, variable_not_found(&ident.name, ident.pos));
    };
    let Ok(alias) = alias_or(&ident.name, alias).share() else {
        return stop(place, EvalAltResult::ErrorOutOfMemory(ident.pos));
    };
    match scope.add_alias(index, alias) {
        Ok(()) => {
            put_unit(out);
            true
        }
        Err(_) => stop(place, EvalAltResult::ErrorOutOfMemory(ident.pos)),
    }
}
