//! The state of a run, which the functions of the evaluator hand on as one. They move their caller's
//! values in, and put them back on every way out; neither takes memory.
#![tactic(auto)]

ghost use Rattle.std.specs.Prelude.{◌≡◌, [], None};
ghost use Rattle.rhai_state.specs.Scope.{entries_of, scope_of};
ghost use Rattle.rhai_lookups.specs.Levels.{CachesFit, CachesLeft, emptied};
ghost use Rattle.rhai_lookups.specs.Runs.{given_back, lists_of, run_of};
ghost use Rattle.rhai_context.specs.Ends.{unit};

pub mod ends;
pub mod outcomes;
pub mod spare;

use crate::spare::Spare;
use rhai_errors::error::EvalAltResult;
use rhai_lookups::caches::Caches;
use rhai_lookups::run::{RunState, take_state};
use rhai_state::scope::{Scope, ScopeEntry};
use rhai_state::state::GlobalRuntimeState;
use rhai_tree::Items;
use rhai_values::base::value::{Dynamic, Host, Union};
use std::alloc::Global;
use std::mem::replace;

/// The state of a run: what stays beside the variables, the variables and `this`. Besides it has what the
/// last part came to or stopped with, and lists of variables that calls left.
#[derive(Drop)]
pub struct Context<H> {
    pub global: RunState<H>,
    pub scope: Scope<H>,
    pub this: Option<Dynamic<H>>,
    /// What the last part that went well came to.
    pub value: Dynamic<H>,
    /// Why a part stopped the run.
    pub error: Option<EvalAltResult<H>>,
    pub spare: Spare<H>,
}

/// Takes a caller's values and its newest cache into the state of a run, without `this`. Empty ones stand in
/// their places until `give_back`, and whether variables are searched for stays there.
pub fn take<H: Host>(
    alloc: Global,
    global: &mut GlobalRuntimeState<H>,
    caches: &mut Caches<H>,
    scope: &mut Scope<H>,
) -> Context<H>
    requires fit { CachesFit (lists_of global.old) caches.old }
    ensures run { result
        ≡ record { global = run_of global.old; scope = scope.old; this = None; value = unit; error = None; spare = tt } }
    ensures search { global.new.always_search_scope ≡ global.old.always_search_scope }
    ensures caches { caches.new ≡ record caches.old { levels = emptied caches.old.levels } }
{
    Context {
        global: take_state(alloc, global, caches),
        scope: replace(scope, Scope::new(alloc)),
        this: None,
        value: Dynamic::new(Union::Unit),
        error: None,
        spare: Spare::new(alloc),
    }
}

/// Puts the values of a run back in their places, and the oldest of its caches in that of the newest. No run
/// changes whether its caller's variables are searched for.
pub fn give_back<H: Host>(
    run: Context<H>,
    global: &mut GlobalRuntimeState<H>,
    caches: &mut Caches<H>,
    scope: &mut Scope<H>,
)
    ensures global { global.new ≡ given_back global.old.always_search_scope run.global }
    ensures scope { scope.new ≡ run.scope }
    ensures caches { CachesLeft run.global.lists caches.old caches.new }
{
    run.global.give_state(global, caches);
    drop(replace(scope, run.scope));
}

/// Takes a caller's state for a part of a run that looks up no function. An empty one stands in its place
/// until `return_state`, and whether variables are searched for stays there.
pub fn lend_state<H: Host>(alloc: Global, global: &mut GlobalRuntimeState<H>) -> RunState<H>
    ensures run { result ≡ run_of global.old }
    ensures search { global.new.always_search_scope ≡ global.old.always_search_scope }
{
    let mut none = Caches::off(alloc);
    let run = take_state(alloc, global, &mut none);
    drop(none);
    run
}

/// Puts such a state back in its place.
pub fn return_state<H: Host>(alloc: Global, run: RunState<H>, global: &mut GlobalRuntimeState<H>)
    ensures { global.new ≡ given_back global.old.always_search_scope run }
{
    let mut none = Caches::off(alloc);
    run.give_state(global, &mut none);
    drop(none);
}

/// The variables and `this` of a caller, while a function of a script has its own.
#[derive(Drop)]
pub struct Aside<H> {
    pub scope: Scope<H>,
    pub this: Option<Dynamic<H>>,
}

/// Puts the variables and `this` of a run aside: it has no variables then, and this `this`.
pub fn put_aside<H: Host>(alloc: Global, run: &mut Context<H>, this: Option<Dynamic<H>>) -> Aside<H>
    ensures aside { result ≡ record { scope = run.old.scope; this = run.old.this } }
    ensures this { run.new.this ≡ this }
    ensures scope { entries_of run.new.scope ≡ [] }
    ensures rest { run.new ≡ record run.old { scope = run.new.scope; this = this } }
{
    Aside {
        scope: replace(&mut run.scope, Scope::new(alloc)),
        this: replace(&mut run.this, this),
    }
}

/// Gives a run its caller's variables and `this` back. What it had of its own is let go of but for `this`.
pub fn take_up<H: Host>(run: &mut Context<H>, aside: Aside<H>) -> Option<Dynamic<H>>
    ensures this { result ≡ run.old.this }
    ensures run { run.new ≡ record run.old { scope = aside.scope; this = aside.this } }
{
    let Aside { scope, this } = aside;
    drop(replace(&mut run.scope, scope));
    replace(&mut run.this, this)
}

/// Lends a list without variables: one that a call left, with its room, or else a new one.
#[inline(always)]
pub fn lend_variables<H: Host>(alloc: Global, run: &mut Context<H>) -> Items<ScopeEntry<H>>
    ensures list { result ≡ [] }
    ensures run { run.new ≡ run.old }
{
    run.spare.lend_variables(alloc)
}

/// Keeps a list for another call, without the variables in it.
#[inline(always)]
pub fn keep_variables<H: Host>(run: &mut Context<H>, variables: Items<ScopeEntry<H>>)
    ensures { run.new ≡ run.old }
{
    run.spare.keep_variables(variables);
}

/// The variables and `this` of a caller, while a plain call has its own.
#[derive(Drop)]
pub struct Caller<H> {
    pub variables: Items<ScopeEntry<H>>,
    pub this: Option<Dynamic<H>>,
}

/// Takes `this` out of its place, where most often there is none.
#[inline(always)]
fn take_this<H: Host>(this: &mut Option<Dynamic<H>>) -> Option<Dynamic<H>>
    ensures taken { result ≡ this.old }
    ensures left { this.new ≡ None }
{
    if this.is_none() {
        return None;
    }
    replace(this, None)
}

/// Puts `this` into its place, where most often there is none before and after.
#[inline(always)]
fn put_this<H: Host>(place: &mut Option<Dynamic<H>>, this: Option<Dynamic<H>>)
    ensures { place.new ≡ this }
{
    if this.is_none() && place.is_none() {
        return;
    }
    drop(replace(place, this));
}

/// Puts the variables and `this` of a run aside: it has these variables then, and no `this`.
#[inline(always)]
pub fn enter_variables<H: Host>(run: &mut Context<H>, variables: Items<ScopeEntry<H>>) -> Caller<H>
    ensures caller { result ≡ record { variables = entries_of run.old.scope; this = run.old.this } }
    ensures run { run.new ≡ record run.old { scope = scope_of variables; this = None } }
{
    Caller {
        variables: run.scope.exchange(variables),
        this: take_this(&mut run.this),
    }
}

/// Gives a run its caller's variables and `this` back. The room of its own variables is kept for another
/// call.
#[inline(always)]
pub fn leave_variables<H: Host>(run: &mut Context<H>, caller: Caller<H>)
    ensures { run.new ≡ record run.old { scope = scope_of caller.variables; this = caller.this } }
{
    let Caller { variables, this } = caller;
    put_this(&mut run.this, this);
    let own = run.scope.exchange(variables);
    run.spare.keep_variables(own);
}
