//! Expressions that are read as they stand: literals, variables and `this`. Ports these forms of upstream's
//! `eval/expr.rs`.

ghost use Rattle.std.specs.Prelude.{◌≡◌, IfErr, IsTrue, false, true};
ghost use Rattle.rhai_tree.specs.declared.expr.Expr.{out-Expr};
ghost use Rattle.rhai_tree.specs.Frame.{resolves_expr};
ghost use Rattle.rhai_errors.specs.Errors.{is_out_of_memory};
ghost use Rattle.rhai_machine.specs.language.State.{Answers};
ghost use Rattle.rhai_machine.specs.language.Values.{is_handle, is_truth};
ghost use Rattle.rhai_steps.specs.Agreement.{AgreesAt};
ghost use Rattle.rhai_steps.specs.Offers.{globals_in};
ghost use Rattle.rhai_steps.specs.States.{local_of};
ghost use Rattle.rhai_context.specs.Ends.{came};
ghost use Rattle.rhai_operands.specs.Reading.{asks_read, read_as};

use crate::operands::integer_in_place;
use rhai_context::ends::{put, put_number, put_truth, put_unit, settle, stop};
use rhai_errors::error::EvalAltResult;
use rhai_lookups::run::RunState;
use rhai_names::variables::{Variable, read_this, read_variable};
use rhai_state::scope::Scope;
use rhai_state::session::Session;
use rhai_steps::values::{char_value, constant_value, int_value, text_value};
use rhai_tree::expr::Expr;
use rhai_values::base::value::{Dynamic, Host};

/// Reads a literal, a variable or `this`, as `read_expr` does.
///
/// # Errors
/// Those of `read_expr`.
#[inline(never)]
fn read_any<H: Host>(
    session: &Session<'_, H>,
    global: &RunState<H>,
    scope: &Scope<H>,
    this: &Option<Dynamic<H>>,
    out: &mut Dynamic<H>,
    place: &mut Option<EvalAltResult<H>>,
    expr: &Expr,
) -> bool
    requires { AgreesAt global.now scope.now (resolves_expr expr.now) }
    ensures exact { (focus : _) → Answers (came result out.new place.new)
        (read_as (globals_in session.now.offered) (local_of global.now scope.now (record { this = this.now; focus = focus }))
        (out-Expr expr.now)) }
    ensures memory { IfErr (came result out.new place.new) (λ error.
        is_out_of_memory error ≡ true → IsTrue (asks_read (out-Expr expr.now)).0) }
    ensures plain { IsTrue result → is_handle out.new.value ≡ true →
        IsTrue (asks_read (out-Expr expr.now)).0 }
    ensures truth { IsTrue result → is_truth out.new.value ≡ false →
        IsTrue (asks_read (out-Expr expr.now)).1 }
{
    match expr {
        Expr::IntegerConstant(value, _) => {
            put(out, int_value(value));
            true
        }
        Expr::Variable {
            offset,
            name,
            namespace,
            pos,
        } => {
            let answer = read_variable(
                session,
                global,
                scope,
                &Variable {
                    offset: *offset,
                    name,
                    namespace,
                    at: *pos,
                },
            );
            settle(place, out, answer)
        }
        Expr::BoolConstant(value, _) => {
            put_truth(out, *value);
            true
        }
        Expr::CharConstant(letter, _) => {
            put(out, char_value(*letter));
            true
        }
        Expr::StringConstant(text, pos) => settle(place, out, text_value(text, *pos)),
        Expr::DynamicConstant(literal, pos) => {
            settle(place, out, constant_value(session.alloc, literal, *pos))
        }
        Expr::Unit(_) => {
            put_unit(out);
            true
        }
        Expr::ThisPtr(pos) => settle(place, out, read_this(session.alloc, this, *pos)),
        _ => stop(place, EvalAltResult::ErrorOutOfMemory(expr.position())),
    }
}

/// Reads a literal, a variable or `this` that is charged already, and puts its value into its place. Asked:
/// the expression resolves to the variables of the scope. What is made of other expressions is the caller's:
/// here each counts as one that finds no memory.
///
/// # Errors
/// At a variable: `ErrorVariableNotFound`, and `ErrorDataRace` where it is the handle of a cell that is held.
/// At the path of one: `ErrorModuleNotFound` and `ErrorVariableNotFound`. At `this`: `ErrorUnboundThis`.
#[inline(never)]
pub fn read_expr<H: Host>(
    session: &Session<'_, H>,
    global: &RunState<H>,
    scope: &Scope<H>,
    this: &Option<Dynamic<H>>,
    out: &mut Dynamic<H>,
    place: &mut Option<EvalAltResult<H>>,
    expr: &Expr,
) -> bool
    requires { AgreesAt global.now scope.now (resolves_expr expr.now) }
    ensures exact { (focus : _) → Answers (came result out.new place.new)
        (read_as (globals_in session.now.offered) (local_of global.now scope.now (record { this = this.now; focus = focus }))
        (out-Expr expr.now)) }
    ensures memory { IfErr (came result out.new place.new) (λ error.
        is_out_of_memory error ≡ true → IsTrue (asks_read (out-Expr expr.now)).0) }
    ensures plain { IsTrue result → is_handle out.new.value ≡ true →
        IsTrue (asks_read (out-Expr expr.now)).0 }
    ensures truth { IsTrue result → is_truth out.new.value ≡ false →
        IsTrue (asks_read (out-Expr expr.now)).1 }
{
    match expr {
        Expr::IntegerConstant(value, _) => {
            put_number(out, int_value(value));
            true
        }
        Expr::Variable { .. } => match integer_in_place(global, scope, expr) {
            Some(number) => {
                put_number(out, int_value(&number));
                true
            }
            None => read_any(session, global, scope, this, out, place, expr),
        },
        Expr::BoolConstant(value, _) => {
            put_truth(out, *value);
            true
        }
        _ => read_any(session, global, scope, this, out, place, expr),
    }
}
