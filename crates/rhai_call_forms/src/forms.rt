//! Whether a call is an operator's on its operands.

ghost use Rattle.std.specs.Prelude.{◌≡◌, Some, true, false};
ghost use Rattle.rhai_call_forms.specs.Forms.{IsForm};
ghost use Rattle.rhai_call_forms.specs.declared.forms.CallForm.TheVariants as form;

use rhai_tree::expr::{Expr, FnCallExpr};
use rhai_tree::token::Token;

/// What a call is evaluated as.
#[derive(Clone, Copy)]
pub enum CallForm<'a> {
    /// An operator on one operand.
    Unary(Token, &'a Expr),
    /// An operator on two operands.
    Binary(Token, &'a Expr, &'a Expr),
    /// A call by name.
    Function,
}

/// Puts an operator with the one or two operands that it is on. With any other number it is a call by name.
fn operator_form(token: Token, operands: &[Expr]) -> CallForm<'_>
    ensures { IsForm result true (Some token) operands.now }
{
    match operands {
        [operand] => CallForm::Unary(token, operand),
        [left, right] => CallForm::Binary(token, left, right),
        _ => CallForm::Function,
    }
}

/// Decides what a call is evaluated as. Under fast operators one that was written as an operator on one
/// operand or two is that operator on them, and any other is a call by name.
pub fn form_of(fast_operators: bool, call: &FnCallExpr) -> CallForm<'_>
    ensures { IsForm result fast_operators call.now.op_token call.now.args }
{
    if !fast_operators {
        return CallForm::Function;
    }
    match call.op_token {
        Some(token) => operator_form(token, call.args.as_slice()),
        None => CallForm::Function,
    }
}

/// Tells whether a call may be an operator on operands: under fast operators, one that was written as an
/// operator.
#[inline(always)]
pub fn may_operate(fast_operators: bool, call: &FnCallExpr) -> bool
    ensures { result ≡ false → IsForm form.Function fast_operators call.now.op_token call.now.args }
{
    fast_operators && call.op_token.is_some()
}
