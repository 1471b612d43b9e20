//! What the links of a chain ask for, and what of that needs no step.

ghost use Rattle.std.specs.Prelude.{◌≡◌, IsTrue, Ok, Some, is_some};
ghost use Rattle.rhai_tree.specs.declared.expr.Expr.{out-Expr};
ghost use Rattle.rhai_machine.specs.language.Chains.{ready as ready_by};
ghost use Rattle.rhai_machine.specs.language.Expressions.{literal_of};
ghost use Rattle.rhai_machine.specs.language.Links.{asked_by, link_of as link_in};
ghost use Rattle.rhai_machine.specs.language.State.{Answers};
ghost use Rattle.rhai_links.specs.Chains.{form_seen};
ghost use Rattle.rhai_links.specs.Ready.{at_once, IsReady};

use crate::links::{Link, LinkForm, link_of};
use rhai_errors::error::EvalAltResult;
use rhai_steps::values::{
    bool_value, char_value, constant_value, int_value, text_value, unit_value,
};
use rhai_tree::expr::Expr;
use rhai_values::base::value::{Dynamic, Host};
use std::alloc::Global;

/// What a chain is given that needs no step.
#[derive(Clone, Copy)]
pub enum Ready<'e> {
    Nothing,
    /// The value of a literal.
    Literal(&'e Expr),
}

/// Lists the expressions whose values a link asks for.
pub fn asked<'e>(link: Link<'e>) -> &'e [Expr]
    ensures { result.now ≡ asked_by (form_seen link.entry.form) }
{
    match link.form {
        LinkForm::Index(index) => std::slice::from_ref(index),
        LinkForm::Property(..) => &[],
        LinkForm::Method(call, _) => call.args.as_slice(),
    }
}

/// Tells whether an expression is a literal.
fn is_literal<H: Host>(expr: &Expr) -> bool
    ensures { result ≡ is_some (literal_of {H = H} (out-Expr expr.now)) }
{
    matches!(
        expr,
        Expr::DynamicConstant(..)
            | Expr::BoolConstant(..)
            | Expr::IntegerConstant(..)
            | Expr::CharConstant(..)
            | Expr::StringConstant(..)
            | Expr::Unit(_)
    )
}

/// Finds what a link asks for, where that needs no step.
fn ready_form<'e, H: Host>(form: LinkForm<'e>) -> Option<Ready<'e>>
    ensures { IsReady result (ready_by {H = H} (form_seen form.entry)) }
{
    match form {
        LinkForm::Index(index) => {
            let is_there = is_literal::<H>(index);
            if is_there {
                Some(Ready::Literal(index))
            } else {
                None
            }
        }
        LinkForm::Property(..) => Some(Ready::Nothing),
        LinkForm::Method(call, _) => match call.args.as_slice() {
            [] => Some(Ready::Nothing),
            [..] => None,
        },
    }
}

/// Finds what a chain is given at once: one link alone asks for nothing, or for a literal. None of any other
/// chain, whose arguments are charged and evaluated.
pub fn ready_at_once<'e, H: Host>(chain: &'e Expr) -> Option<Ready<'e>>
    ensures { IsReady result (at_once {H = H} (link_in (out-Expr chain.now))) }
{
    let link = link_of(chain)?;
    match link.behind {
        None => ready_form::<H>(link.form),
        Some(_) => None,
    }
}

/// Makes the value of a literal that needs no step: nothing is charged.
pub fn ready_value<H: Host>(alloc: Global, literal: &Expr) -> Result<Dynamic<H>, EvalAltResult<H>>
    requires { IsTrue (is_some (literal_of {H = H} (out-Expr literal.now))) }
    ensures { (v : _) → literal_of (out-Expr literal.now) ≡ Some v → Answers result (Ok v) }
{
    match literal {
        Expr::DynamicConstant(constant, pos) => constant_value(alloc, constant, *pos),
        Expr::BoolConstant(value, _) => Ok(bool_value(*value)),
        Expr::IntegerConstant(value, _) => Ok(int_value(value)),
        Expr::CharConstant(letter, _) => Ok(char_value(*letter)),
        Expr::StringConstant(text, pos) => text_value(text, *pos),
        Expr::Unit(_) => Ok(unit_value()),
        _ => unreachable!(),
    }
}
