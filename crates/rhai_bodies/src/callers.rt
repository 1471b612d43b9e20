//! What stands around a body: what is read of the function that is entered, and what its caller has again
//! behind it.

ghost use Rattle.std.specs.Prelude.{◌≡◌, None, length, take};
ghost use Rattle.std.specs.Option.{option_copied};
ghost use Rattle.rhai_tree.specs.Frame.{ResolvesFunction};
ghost use Rattle.rhai_state.specs.Scope.{entries_of};
ghost use Rattle.rhai_machine.specs.language.State.{deeper};

use rhai_context::{Aside, Context, take_up};
use rhai_functions::function::Function;
use rhai_tree::checked::CheckedFn;
use rhai_tree::function::ScriptFuncDef;
use rhai_tree::{Items, Shared};
use rhai_values::base::value::{Dynamic, EncapsulatedEnviron, Host};
use std::mem::replace;

/// Returns the environment that a function runs in, if it has one.
pub fn environ_in<H: Host>(function: &Function<H>) -> Option<&EncapsulatedEnviron<H>>
    ensures { option_copied result ≡ function.now.environ }
{
    match &function.environ {
        Some(environ) => Some(environ.get()),
        None => None,
    }
}

/// Computes the level of a function that a call dispatches to.
pub fn level_below(level: usize) -> usize
    ensures { result ≡ deeper level }
{
    level.saturating_add(1)
}

/// Returns what runs where a function is entered by a call. That is its definition, its environment, and its
/// level below the caller's.
#[inline(always)]
pub fn body_of<H: Host>(
    function: &Function<H>,
    level: usize,
) -> (&CheckedFn, Option<&EncapsulatedEnviron<H>>, usize)
    ensures def { result.0.now ≡ function.now.def }
    ensures environ { option_copied result.1 ≡ function.now.environ }
    ensures level { result.2 ≡ deeper level }
{
    (function.def.get(), environ_in(function), level_below(level))
}

/// Returns the definition of a function that the checker passed.
#[inline(always)]
pub fn definition_of(function: &Shared<CheckedFn>) -> &ScriptFuncDef
    ensures value { result.now ≡ function.now }
    ensures resolves { ResolvesFunction function.now }
{
    function.get().def()
}

/// Ends a call of a function with variables of its own. The caller's variables and `this` are there again,
/// and the function is let go of.
#[inline(always)]
pub fn end_fresh<H: Host>(run: &mut Context<H>, aside: Aside<H>, function: Function<H>)
    ensures { run.new ≡ record run.old { scope = aside.scope; this = aside.this } }
{
    drop(take_up(run, aside));
    drop(function);
}

/// What a function that runs on its caller's variables gives back: how many variables there were, and the
/// caller's `this`.
#[derive(Drop)]
pub struct Captured<H> {
    pub length: usize,
    pub this: Option<Dynamic<H>>,
}

/// Takes `this` out of a run on whose variables a function is to run, and counts them.
#[inline(always)]
pub fn capture<H: Host>(run: &mut Context<H>) -> Captured<H>
    ensures captured { result ≡ record { length = length (entries_of run.old.scope); this = run.old.this } }
    ensures run { run.new ≡ record run.old { this = None } }
{
    Captured {
        length: run.scope.len(),
        this: replace(&mut run.this, None),
    }
}

/// Ends a call of a function that ran on its caller's variables. Its own go, and its caller's `this` is there
/// again. The function is let go of.
#[inline(always)]
pub fn release<H: Host>(run: &mut Context<H>, captured: Captured<H>, function: Function<H>)
    ensures scope { entries_of run.new.scope ≡ take captured.length (entries_of run.old.scope) }
    ensures run { run.new ≡ record run.old { scope = run.new.scope; this = captured.this } }
{
    let Captured { length, this } = captured;
    run.scope.rewind(length);
    drop(replace(&mut run.this, this));
    drop(function);
}
