//! Arguments that are literals. Ports the first part of upstream's `get_arg_value`.

ghost use Rattle.std.specs.Prelude.{◌≡◌, ◌<◌, IfSome, IsTrue, Some, None, Ok, is_some};
ghost use Rattle.rhai_tree.specs.declared.expr.Expr.{out-Expr};
ghost use Rattle.rhai_machine.specs.language.Expressions.{literal_of};
ghost use Rattle.rhai_machine.specs.language.Frames.{Argument};
ghost use Rattle.rhai_machine.specs.language.Runs.{Runs};
ghost use Rattle.rhai_machine.specs.language.State.{Answers};
ghost use Rattle.rhai_steps.specs.Agreement.{KeepsSight};
ghost use Rattle.rhai_steps.specs.Sessions.{under};
ghost use Rattle.rhai_steps.specs.States.{state_of};
ghost use Rattle.rhai_context.specs.Ends.{came};

use rhai_context::ends::{settle, stop};
use rhai_errors::error::EvalAltResult;
use rhai_errors::table::NativeTable;
use rhai_lookups::run::RunState;
use rhai_state::session::Session;
use rhai_steps::charges::charge_one;
use rhai_steps::values::{
    bool_value, char_value, constant_value, int_value, text_value, unit_value,
};
use rhai_tree::expr::Expr;
use rhai_values::base::value::{Dynamic, Host};
use std::alloc::Global;

/// Tells whether an expression is a literal.
fn is_literal<H: Host>(expr: &Expr) -> bool
    ensures { result ≡ is_some (literal_of {H = H} (out-Expr expr.now)) }
{
    matches!(
        expr,
        Expr::DynamicConstant(..)
            | Expr::BoolConstant(..)
            | Expr::IntegerConstant(..)
            | Expr::CharConstant(..)
            | Expr::StringConstant(..)
            | Expr::Unit(_)
    )
}

/// Builds the value of a literal, None for any other expression.
fn literal_value<H: Host>(
    alloc: Global,
    expr: &Expr,
) -> Option<Result<Dynamic<H>, EvalAltResult<H>>>
    ensures found { is_some result ≡ is_some (literal_of {H = H} (out-Expr expr.now)) }
    ensures exact { IfSome result (λ r. (v : _) →
        literal_of (out-Expr expr.now) ≡ Some v → Answers r (Ok v)) }
{
    match expr {
        Expr::DynamicConstant(literal, pos) => Some(constant_value(alloc, literal, *pos)),
        Expr::BoolConstant(value, _) => Some(Ok(bool_value(*value))),
        Expr::IntegerConstant(value, _) => Some(Ok(int_value(value))),
        Expr::CharConstant(letter, _) => Some(Ok(char_value(*letter))),
        Expr::StringConstant(text, pos) => Some(text_value(text, *pos)),
        Expr::Unit(_) => Some(Ok(unit_value())),
        _ => None,
    }
}

/// Charges an argument that is a literal and reads its value, as `read_literal` does.
///
/// # Errors
/// `ErrorTooManyOperations` at the literal where the count has reached the limit.
#[inline(never)]
fn charge_literal<H: Host, T: NativeTable<H>>(
    session: &Session<'_, H>,
    global: &mut RunState<H>,
    _table: &T,
    out: &mut Dynamic<H>,
    place: &mut Option<EvalAltResult<H>>,
    arg: &Expr,
) -> Option<bool>
    ensures found { is_some result ≡ is_some (literal_of {H = H} (out-Expr arg.now)) }
    ensures left_alone { result ≡ None → global.new ≡ global.old }
    ensures charges { IfSome result (λ done. IsTrue done →
        global.old.num_operations < global.new.num_operations) }
    ensures sight { KeepsSight global.old global.new }
    ensures runs { (scope : _) (held : _) →
        IfSome result (λ done. Runs (under H.name_of session.now T.natives) (Argument arg.now)
        (state_of (T.state _table.now) global.old scope held)
        (came done out.new place.new) (state_of (T.state _table.now) global.new scope held)) }
{
    if !is_literal::<H>(arg) {
        return None;
    }
    if !charge_one(&session.limits, global) {
        let error = EvalAltResult::ErrorTooManyOperations(arg.start_position());
        return Some(stop(place, error));
    }
    match literal_value(session.alloc, arg) {
        Some(answer) => Some(settle(place, out, answer)),
        None => None,
    }
}

/// Charges an argument that is a literal at its start, and then reads its value. None for any other
/// expression: then nothing is charged. The table is not called. How it ended stands in the run's places.
///
/// # Errors
/// `ErrorTooManyOperations` at the literal where the count has reached the limit.
#[inline(always)]
pub fn read_literal<H: Host, T: NativeTable<H>>(
    session: &Session<'_, H>,
    global: &mut RunState<H>,
    _table: &T,
    out: &mut Dynamic<H>,
    place: &mut Option<EvalAltResult<H>>,
    arg: &Expr,
) -> Option<bool>
    ensures found { is_some result ≡ is_some (literal_of {H = H} (out-Expr arg.now)) }
    ensures left_alone { result ≡ None → global.new ≡ global.old }
    ensures charges { IfSome result (λ done. IsTrue done →
        global.old.num_operations < global.new.num_operations) }
    ensures sight { KeepsSight global.old global.new }
    ensures runs { (scope : _) (held : _) →
        IfSome result (λ done. Runs (under H.name_of session.now T.natives) (Argument arg.now)
        (state_of (T.state _table.now) global.old scope held)
        (came done out.new place.new) (state_of (T.state _table.now) global.new scope held)) }
{
    if !is_literal::<H>(arg) {
        return None;
    }
    charge_literal(session, global, _table, out, place, arg)
}
