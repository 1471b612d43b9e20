//! What a `for` is made of, and how it starts.

ghost use Rattle.std.specs.Prelude.{◌≡◌, ◌+◌, ◌++◌, IfErr, IfSome, None, OnErr, OnOk, Some, false, length};
ghost use Rattle.std.specs.Prelude.{nat_le, true};
ghost use Rattle.rhai_tree.specs.Positions.{start_of};
ghost use Rattle.rhai_values.specs.Layers.{layer_of};
ghost use Rattle.rhai_errors.specs.declared.error.EvalAltResult.TheVariants as error;
ghost use Rattle.rhai_errors.specs.Errors.{is_out_of_memory};
ghost use Rattle.rhai_state.specs.Scope.{entries_of};
ghost use Rattle.rhai_machine.specs.language.Turns.{turns_of as turns_in_value};
ghost use Rattle.rhai_machine.specs.language.Walks.{counter_entry, counters, loop_entries};
ghost use Rattle.rhai_context.specs.Ends.{error_in};
ghost use Rattle.rhai_stmt.specs.TurnsLeft.{turns_in};
ghost use Rattle.rhai_stmt.specs.Loops.{loop_in};

use crate::turns::{Turns, turns_of};
use rhai_context::ends::{stop, take_value};
use rhai_errors::error::EvalAltResult;
use rhai_names::variables::define_variable;
use rhai_state::limits::Limits;
use rhai_state::scope::Scope;
use rhai_steps::values::unit_value;
use rhai_tree::expr::{Expr, Ident, StmtBlock};
use rhai_values::base::value::{AccessMode, Dynamic, Host, Union};

/// What a `for` is made of, in the tree.
#[derive(Clone, Copy)]
pub struct ForParts<'t> {
    pub variable: &'t Ident,
    pub counter: &'t Option<Ident>,
    pub items: &'t Expr,
    pub body: &'t StmtBlock,
}

/// Counts the variables that the counter of a `for` is.
fn counters_of(counter: &Option<Ident>) -> usize
    ensures { result ≡ counters counter.now }
{
    match counter {
        Some(_) => 1,
        None => 0,
    }
}

/// Tells whether the scope has no room for the variables of a `for`.
fn has_no_room<H: Host>(limits: &Limits, scope: &Scope<H>, counter: &Option<Ident>) -> bool
    ensures { result ≡ nat_le limits.now.max_variables
        (length (entries_of scope.now) + counters counter.now) }
{
    scope.len() >= limits.max_variables.saturating_sub(counters_of(counter))
}

/// Checks whether the scope has room for the variables of a `for`. Where it has none, the run stops.
///
/// # Errors
/// `ErrorTooManyVariables` at the variable.
pub fn has_room<H: Host>(
    limits: &Limits,
    scope: &Scope<H>,
    place: &mut Option<EvalAltResult<H>>,
    parts: ForParts<'_>,
) -> bool
    ensures room { result ≡ true → nat_le limits.now.max_variables
        (length (entries_of scope.now) + counters parts.entry.counter.now) ≡ false }
    ensures full { result ≡ false → nat_le limits.now.max_variables
        (length (entries_of scope.now) + counters parts.entry.counter.now) ≡ true }
    ensures told { result ≡ false →
        error_in place.new ≡ error.ErrorTooManyVariables parts.entry.variable.now.pos }
{
    if has_no_room(limits, scope, parts.counter) {
        return stop(
            place,
            EvalAltResult::ErrorTooManyVariables(parts.variable.pos),
        );
    }
    true
}

/// Adds the counter, at 0, if there is one.
fn push_counter<H: Host>(
    scope: &mut Scope<H>,
    counter: &Option<Ident>,
) -> Result<(), EvalAltResult<H>>
    ensures pushed { OnOk result (entries_of scope.new ≡ entries_of scope.old ++ counter_entry counter.now) }
    ensures refused { IfErr result (λ e. is_out_of_memory e ≡ true) }
    ensures same { OnErr result (entries_of scope.new ≡ entries_of scope.old) }
{
    let Some(counter) = counter else {
        return Ok(());
    };
    let zero = Dynamic::new(Union::Int(0));
    match define_variable(scope, counter, AccessMode::ReadWrite, zero, counter.pos) {
        Ok(value) => {
            drop(value);
            Ok(())
        }
        Err(error) => Err(error),
    }
}

/// Adds the variables of a `for`: its counter, if there is one, and its variable, which is `()`. Where memory
/// runs out the scope stays.
fn push_variables<H: Host>(
    scope: &mut Scope<H>,
    parts: ForParts<'_>,
) -> Result<(), EvalAltResult<H>>
    ensures pushed { OnOk result (entries_of scope.new
        ≡ entries_of scope.old ++ loop_entries (loop_in parts.entry)) }
    ensures refused { IfErr result (λ e. is_out_of_memory e ≡ true) }
    ensures same { OnErr result (entries_of scope.new ≡ entries_of scope.old) }
{
    let base = scope.len();
    push_counter(scope, parts.counter)?;
    let variable = parts.variable;
    match define_variable(
        scope,
        variable,
        AccessMode::ReadWrite,
        unit_value(),
        variable.pos,
    ) {
        Ok(value) => {
            drop(value);
            Ok(())
        }
        Err(error) => {
            scope.rewind(base);
            Err(error)
        }
    }
}

/// Starts a `for` over the value of a run: its variables are added, and it has these turns. None where the
/// run stops.
///
/// # Errors
/// `ErrorFor` at the start of the expression where the value cannot be walked. Then, and where memory runs
/// out, the scope stays.
pub fn start_turns<H: Host>(
    scope: &mut Scope<H>,
    parts: ForParts<'_>,
    out: &mut Dynamic<H>,
    place: &mut Option<EvalAltResult<H>>,
) -> Option<Turns<H>>
    ensures turns { IfSome result (λ turns. turns_in_value (layer_of out.old) ≡ Some (turns_in turns)) }
    ensures variables { IfSome result (λ _. entries_of scope.new ≡ entries_of scope.old
        ++ loop_entries (loop_in parts.entry)) }
    ensures none { result ≡ None → is_out_of_memory (error_in place.new) ≡ false →
        turns_in_value (layer_of out.old) ≡ None }
    ensures told { result ≡ None → is_out_of_memory (error_in place.new) ≡ false →
        error_in place.new ≡ error.ErrorFor (start_of parts.entry.items.now) }
    ensures same { result ≡ None → entries_of scope.new ≡ entries_of scope.old }
{
    let Some(turns) = turns_of(take_value(out)) else {
        stop(place, EvalAltResult::ErrorFor(parts.items.start_position()));
        return None;
    };
    match push_variables(scope, parts) {
        Ok(()) => Some(turns),
        Err(error) => {
            drop(turns);
            stop(place, error);
            None
        }
    }
}
