//! The built-in operators of scripts: what each gives for two values, or for one, where neither
//! the host nor the script has an operator of its own. Ports upstream's `func/builtin.rs`.
#![tactic(auto)]

ghost use Rattle.rhai_operators.specs.Answers.{IsAnswer, unary_of, binary_of, op_assign_of};
ghost use Rattle.rhai_operators.specs.Answers as table;
ghost use Rattle.rhai_operators.specs.Operators.{binary_at};

mod answer;
mod compare;
pub mod direct;
mod integers;
mod rows;
mod texts;

use crate::answer::answer;
use crate::compare::comparison_of_order;
use crate::rows::{assigns, if_compares, of_integers, of_truths, of_types, unary};
use crate::texts::{of_characters, of_mixed, of_texts};
use rhai_errors::error::EvalAltResult;
use rhai_tree::token::Token;
use rhai_values::base::value::{Dynamic, Host, Union};
use std::alloc::Global;
use std::cmp::Ordering;

/// Computes what an operator before one operand gives, `None` where there is no built-in for it. Ports
/// upstream's arithmetic and logic packages, as far as they have such operators.
///
/// Errors have no position: `ErrorArithmetic` where an integer overflows, and `ErrorOutOfMemory`
/// where there was no memory for that error.
pub fn builtin_unary<H: Host>(
    alloc: Global,
    op: Token,
    x: &Dynamic<H>,
) -> Option<Result<Dynamic<H>, EvalAltResult<H>>>
    ensures { IsAnswer result (unary_of op x.now) }
{
    answer(alloc, unary(op, &x.value))
}

/// Computes what an operator between two operands gives, `None` where there is no built-in for them. Ports
/// upstream's `get_builtin_binary_op_fn`.
///
/// Errors have no position: `ErrorArithmetic` where an integer overflows, and for a divisor, a
/// shift or an exponent that is not allowed; `ErrorOutOfMemory` where there was no memory for a
/// text or an error. Other answers take no memory.
pub fn builtin_binary<H: Host>(
    alloc: Global,
    op: Token,
    x: &Dynamic<H>,
    y: &Dynamic<H>,
) -> Option<Result<Dynamic<H>, EvalAltResult<H>>>
    ensures { IsAnswer result (binary_of op x.now y.now) }
{
    binary(alloc, op, &x.value, &y.value)
}

/// Computes what an operator before an `=` gives, `None` where there is no built-in assignment for its
/// operands. That is what it gives between the two operands. Ports upstream's `get_builtin_op_assignment_fn`.
///
/// Errors are those of `builtin_binary`.
pub fn builtin_op_assign<H: Host>(
    alloc: Global,
    op: Token,
    x: &Dynamic<H>,
    y: &Dynamic<H>,
) -> Option<Result<Dynamic<H>, EvalAltResult<H>>>
    ensures { IsAnswer result (op_assign_of op x.now y.now) }
{
    if assigns(op, &x.value, &y.value) {
        binary(alloc, op, &x.value, &y.value)
    } else {
        None
    }
}

/// Computes what an operator gives between two operands: the table, by its rows.
fn binary<H: Host>(
    alloc: Global,
    op: Token,
    x: &Union<H>,
    y: &Union<H>,
) -> Option<Result<Dynamic<H>, EvalAltResult<H>>>
    ensures { IsAnswer result (table.answer (binary_at op x.now y.now)) }
{
    match x {
        Union::Int(m) => match y {
            Union::Int(n) => answer(alloc, of_integers(op, *m, *n)),
            _ => answer(alloc, of_types(op, x, y)),
        },
        Union::Bool(m) => match y {
            Union::Bool(n) => answer(alloc, of_truths(op, *m, *n)),
            _ => answer(alloc, of_types(op, x, y)),
        },
        Union::Char(m) => match y {
            Union::Char(n) => of_characters(alloc, op, *m, *n),
            Union::Str(n) => of_mixed(alloc, op, m.encode_utf8(&mut [0; 4]), n.get().as_str()),
            _ => answer(alloc, of_types(op, x, y)),
        },
        Union::Str(m) => match y {
            Union::Str(n) => of_texts(alloc, op, m.get().as_str(), n.get().as_str()),
            Union::Char(n) => of_mixed(alloc, op, m.get().as_str(), n.encode_utf8(&mut [0; 4])),
            _ => answer(alloc, of_types(op, x, y)),
        },
        Union::Unit => match y {
            Union::Unit => answer(alloc, if_compares(comparison_of_order(op, Ordering::Equal))),
            _ => answer(alloc, of_types(op, x, y)),
        },
        _ => answer(alloc, of_types(op, x, y)),
    }
}
