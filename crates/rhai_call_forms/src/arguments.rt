//! The arguments of a call: a list of them, and a variable that comes first.

ghost use Rattle.std.specs.Prelude.{◌≡◌, ◌∷◌, ◌++◌, [], true, IfErr, OnOk, OnErr};
ghost use Rattle.std.specs.Option.{option_copied, option_map};
ghost use Rattle.rhai_tree.specs.declared.expr.Expr.{out-Expr};
ghost use Rattle.rhai_errors.specs.Errors.{is_out_of_memory};
ghost use Rattle.rhai_state.specs.Scope.{entries_of};
ghost use Rattle.rhai_machine.specs.language.Arguments.{is_captured, this_in as this_at};
ghost use Rattle.rhai_call_forms.specs.Leading.{all_args, takes_by_value, first_in, leading, lent_first, leading_seen, this_lent};

use rhai_errors::error::EvalAltResult;
use rhai_few::Few;
use rhai_state::scope::Scope;
use rhai_steps::values::is_bare_handle;
use rhai_tree::expr::{Expr, Namespace};
use rhai_tree::position::Position;
use rhai_tree::{Items, Shared, Text};
use rhai_values::base::value::{Dynamic, Host};
use std::mem::replace;
use std::num::NonZeroUsize;

/// Adds one argument at the end.
///
/// # Errors
/// `ErrorOutOfMemory` at the position alone. The arguments stay then.
pub fn keep_argument<H: Host>(
    args: &mut Few<Dynamic<H>>,
    value: Dynamic<H>,
    pos: Position,
) -> Result<(), EvalAltResult<H>>
    ensures kept { OnOk result (args.new ≡ args.old ++ value ∷ []) }
    ensures refused { IfErr result (λ error. is_out_of_memory error ≡ true) }
    ensures same { OnErr result (args.new ≡ args.old) }
{
    match args.push(value) {
        Ok(()) => Ok(()),
        Err(_) => Err(EvalAltResult::ErrorOutOfMemory(pos)),
    }
}

/// Puts the values that a pointer has already before the arguments. Where there is no memory they are let go
/// of.
///
/// # Errors
/// `ErrorOutOfMemory` at the position alone.
pub fn join<H: Host>(
    curried: Items<Dynamic<H>>,
    args: &mut Few<Dynamic<H>>,
    pos: Position,
) -> Result<(), EvalAltResult<H>>
    ensures joined { OnOk result (args.new ≡ curried ++ args.old) }
    ensures refused { IfErr result (λ e. is_out_of_memory e ≡ true) }
{
    let mut all = Few::from_vec(curried.into_vec());
    match all.append(args) {
        Ok(()) => {
            drop(replace(args, all));
            Ok(())
        }
        Err(_) => {
            drop(all);
            Err(EvalAltResult::ErrorOutOfMemory(pos))
        }
    }
}

/// A variable that is the first argument, and the arguments behind it.
#[derive(Clone, Copy)]
pub struct FirstVariable<'a> {
    pub offset: Option<NonZeroUsize>,
    pub name: &'a Shared<Text>,
    pub namespace: &'a Namespace,
    pub pos: Position,
    pub rest: &'a [Expr],
}

/// Returns what a variable is that stands as an argument, by its name alone or behind a path. None for any
/// other argument.
fn variable_in<'a>(arg: &'a Expr, rest: &'a [Expr]) -> Option<FirstVariable<'a>>
    ensures { option_map leading_seen result ≡ leading (out-Expr arg.now) rest.now }
{
    let Expr::Variable {
        offset,
        name,
        namespace,
        pos,
    } = arg
    else {
        return None;
    };
    Some(FirstVariable {
        offset: *offset,
        name,
        namespace,
        pos: *pos,
        rest,
    })
}

/// Returns the first argument, where it is a variable.
fn variable_first<'a>(first: Option<&'a Expr>, rest: &'a [Expr]) -> Option<FirstVariable<'a>>
    ensures { option_map leading_seen result ≡ first_in (all_args (option_copied first.entry) rest.now) }
{
    match first {
        None => None,
        Some(arg) => variable_in(arg, rest),
    }
}

/// Splits the first of some arguments from the others.
pub fn split_first(args: &[Expr]) -> (Option<&Expr>, &[Expr])
    ensures { args.now ≡ all_args (option_copied result.0) result.1.now }
{
    match args {
        [] => (None, args),
        [first, rest @ ..] => (Some(first), rest),
    }
}

/// Tells whether a call captures a scope that is not empty.
pub fn captures_some<H: Host>(scope: &Scope<H>, captures: bool) -> bool
    ensures { result ≡ is_captured captures (entries_of scope.now) }
{
    captures && scope.len() != 0
}

/// Tells whether a call takes each argument by its value. It does where it is of a pointer with arguments, or
/// captures a scope that is not empty.
fn takes_values<H: Host>(scope: &Scope<H>, curried: &[Dynamic<H>], captures: bool) -> bool
    ensures { result ≡ takes_by_value curried.now captures (entries_of scope.now) }
{
    match curried {
        [] => captures_some(scope, captures),
        [_, ..] => true,
    }
}

/// Finds the variable that a call by name charges before its other arguments and reads after them. It is the
/// first argument, where that is a variable, behind a path too. None where the call takes each argument by
/// its value.
pub fn first_variable<'a, H: Host>(
    scope: &Scope<H>,
    curried: &[Dynamic<H>],
    first: Option<&'a Expr>,
    rest: &'a [Expr],
    captures: bool,
) -> Option<FirstVariable<'a>>
    ensures { option_map leading_seen result ≡ lent_first (takes_by_value curried.now captures (entries_of scope.now))
        (all_args (option_copied first.entry) rest.now) }
{
    if takes_values(scope, curried, captures) {
        return None;
    }
    variable_first(first, rest)
}

/// Tells at which position `this` is an argument. None where it is not bound, or a handle.
pub fn this_in<H: Host>(first: &Expr, this: &Option<Dynamic<H>>) -> Option<Position>
    ensures { result ≡ this_at (out-Expr first.now) this.now }
{
    let Expr::ThisPtr(pos) = first else {
        return None;
    };
    match this {
        Some(value) if !is_bare_handle(value) => Some(*pos),
        _ => None,
    }
}

/// Tells at which position `this` is the first argument of a call by name, which charges it first. The call
/// lends it, where it is bound and no handle. None where the call takes each argument by its value.
pub fn this_first<H: Host>(
    scope: &Scope<H>,
    curried: &[Dynamic<H>],
    first: Option<&Expr>,
    this: &Option<Dynamic<H>>,
    captures: bool,
) -> Option<Position>
    ensures { result ≡ this_lent (takes_by_value curried.now captures (entries_of scope.now))
        (option_copied first.entry) this.now }
{
    if takes_values(scope, curried, captures) {
        return None;
    }
    this_in(first?, this)
}
