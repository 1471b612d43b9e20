//! Operands as they stand.

ghost use Rattle.std.specs.Prelude.{◌≡◌, IfSome, IsTrue, Some};
ghost use Rattle.std.specs.Option.{option_map};
ghost use Rattle.rhai_tree.specs.declared.expr.Expr.{out-Expr};
ghost use Rattle.rhai_tree.specs.Frame.{resolves_expr};
ghost use Rattle.rhai_state.specs.Scope.{entries_of};
ghost use Rattle.rhai_operators.specs.Direct.{integer_in};
ghost use Rattle.rhai_steps.specs.Agreement.{AgreesAt};
ghost use Rattle.rhai_operands.specs.Standing.{integer_of, standing, operand_pair, value_of};

use rhai_lookups::run::RunState;
use rhai_names::variables::{entry_of_variable, index_by_offset};
use rhai_state::scope::Scope;
use rhai_steps::values::{bool_value, char_value, int_value, is_bare_handle, unit_value};
use rhai_tree::expr::{Expr, FnCallExpr};
use rhai_values::base::value::{Dynamic, Host, Union};

/// An operand as it stands.
#[derive(Drop)]
pub enum Operand<'a, H> {
    /// The value of a literal.
    Literal(Dynamic<H>),
    /// The value of a variable, where it stands in the scope.
    Variable(&'a Dynamic<H>),
}

impl<'a, H> Operand<'a, H> {
    /// Returns the value of the operand.
    pub fn value(&self) -> &Dynamic<H>
        ensures { result.now ≡ value_of self.now }
    {
        match self {
            Operand::Literal(value) => value,
            Operand::Variable(value) => *value,
        }
    }
}

/// Reads an operand as it stands: a literal that takes no memory, or a variable. None for a variable that has
/// a path, that no entry has or that is a handle, and for any other expression. Asked: the expression
/// resolves to the variables of the scope.
pub fn operand_in_place<'a, H: Host>(
    global: &RunState<H>,
    scope: &'a Scope<H>,
    expr: &Expr,
) -> Option<Operand<'a, H>>
    requires { AgreesAt global.now scope.now (resolves_expr expr.now) }
    ensures { option_map value_of result ≡ standing (out-Expr expr.now) (entries_of scope.now) }
{
    match expr {
        Expr::BoolConstant(value, _) => Some(Operand::Literal(bool_value(*value))),
        Expr::IntegerConstant(value, _) => Some(Operand::Literal(int_value(value))),
        Expr::CharConstant(letter, _) => Some(Operand::Literal(char_value(*letter))),
        Expr::Unit(_) => Some(Operand::Literal(unit_value())),
        Expr::Variable {
            offset,
            name,
            namespace,
            ..
        } => {
            let index = entry_of_variable(global, scope, *offset, name, namespace)?;
            let value = scope.value_at(index);
            if is_bare_handle(value) {
                return None;
            }
            Some(Operand::Variable(value))
        }
        _ => None,
    }
}

/// Returns the integer that a value is, None where it is of another type.
#[inline(always)]
pub fn integer_at<H>(value: &Dynamic<H>) -> Option<i64>
    ensures { result ≡ integer_in value.now.value }
{
    match &value.value {
        Union::Int(number) => Some(*number),
        _ => None,
    }
}

/// Reads the integer that an operand as it stands is. None where it is of another type, has to be evaluated,
/// or is a variable behind a path or one that is to be searched for. Asked: the expression resolves to the
/// variables of the scope.
#[inline(always)]
pub fn integer_in_place<H: Host>(global: &RunState<H>, scope: &Scope<H>, expr: &Expr) -> Option<i64>
    requires { AgreesAt global.now scope.now (resolves_expr expr.now) }
    ensures { IfSome result (λ number.
        integer_of (standing (out-Expr expr.now) (entries_of scope.now)) ≡ Some number) }
{
    match expr {
        Expr::IntegerConstant(value, _) => Some(*value),
        Expr::Variable {
            offset,
            name,
            namespace,
            ..
        } => {
            let index = index_by_offset(global, scope, *offset, name, namespace)?;
            integer_at(scope.value_at(index))
        }
        _ => None,
    }
}

/// Returns the operands of a call that has two, None for any other call.
pub(crate) fn two_operands(call: &FnCallExpr) -> Option<(&Expr, &Expr)>
    ensures { option_map (λ pair. (pair.0.now, pair.1.now)) result ≡ operand_pair call.now.args }
{
    let args = call.args.as_slice();
    if args.len() != 2 {
        return None;
    }
    Some((&args[0], &args[1]))
}
