//! `this` of a caller, which a run has meanwhile. It is moved out of its place and back, on every way out.

ghost use Rattle.std.specs.Prelude.{◌≡◌, [], IfSome, None, Some};
ghost use Rattle.rhai_lookups.specs.Levels.{CachesFit, CachesLeft, emptied};
ghost use Rattle.rhai_lookups.specs.Runs.{given_back, lists_of, run_of};
ghost use Rattle.rhai_context.specs.Ends.{unit};

use rhai_context::{Context, give_back, take};
use rhai_lookups::caches::Caches;
use rhai_state::scope::Scope;
use rhai_state::state::GlobalRuntimeState;
use rhai_steps::values::{let_go, unit_value};
use rhai_values::base::value::{Dynamic, Host};
use std::alloc::Global;
use std::mem::replace;

/// Takes a caller's values into the state of a run, `this` among them. Empty ones and `()` stay in their
/// places until `give_back_with_this`, and whether variables are searched for stays there.
pub(crate) fn take_with_this<H: Host>(
    alloc: Global,
    global: &mut GlobalRuntimeState<H>,
    caches: &mut Caches<H>,
    scope: &mut Scope<H>,
    this: &mut Dynamic<H>,
) -> Context<H>
    requires fit { CachesFit (lists_of global.old) caches.old }
    ensures run { result ≡ record {
      global = run_of global.old;
      scope = scope.old;
      this = Some this.old;
      value = unit;
      error = None;
      spare = tt;
    } }
    ensures search { global.new.always_search_scope ≡ global.old.always_search_scope }
    ensures caches { caches.new ≡ record caches.old { levels = emptied caches.old.levels } }
{
    let mut run = take(alloc, global, caches, scope);
    let value = replace(this, unit_value());
    drop(replace(&mut run.this, Some(value)));
    run
}

/// Puts the values of a run back in their places, `this` among them. No run changes whether its caller's
/// variables are searched for.
pub(crate) fn give_back_with_this<H: Host>(
    run: Context<H>,
    global: &mut GlobalRuntimeState<H>,
    caches: &mut Caches<H>,
    scope: &mut Scope<H>,
    this: &mut Dynamic<H>,
)
    ensures global { global.new ≡ given_back global.old.always_search_scope run.global }
    ensures scope { scope.new ≡ run.scope }
    ensures caches { CachesLeft run.global.lists caches.old caches.new }
    ensures this { IfSome run.this (λ value. this.new ≡ value) }
{
    let mut run = run;
    let left = replace(&mut run.this, None);
    give_back(run, global, caches, scope);
    match left {
        Some(value) => let_go(replace(this, value)),
        None => {}
    }
}
