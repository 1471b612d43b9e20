//! What runs scripts, as all that is proved beside the evaluator knows it.

ghost use Rattle.rhai_lookups.specs.Levels.{CachesFit};
ghost use Rattle.rhai_lookups.specs.Runs.{lists_of};

use crate::attempt::Attempt;
use crate::entry::Entry;
use crate::outcome::Outcome;
use crate::sample::Script;
use crate::settings::{Settings, Way};
use rhai_eval_base::base::{Dynamic, EvalAltResult, Scope};
use rhai_eval_base::check::CheckedTree;
use rhai_eval_base::state::{Caches, GlobalRuntimeState};
use rhai_tables::host::Pair;
use rhai_tables::tables::bench::BenchTable;
use std::alloc::{AllocError, Global};

/// Runs scripts over the bench's tables.
pub trait Runner {
    /// Checks a script and runs it in one of the ways, above the variables of a scope.
    fn run_above(
        alloc: Global,
        script: Script,
        way: Way,
        scope: Scope<Pair>,
    ) -> Result<Outcome, AllocError>;

    /// Checks a script, runs its statements but the last in one of the ways, above the variables of a scope and with a
    /// `this` of 1, and enters a public call with the last one, which is the attempt.
    fn enter(
        alloc: Global,
        entry: Entry,
        script: Script,
        way: Way,
        scope: Scope<Pair>,
        attempt: &mut Attempt,
    ) -> Result<Outcome, AllocError>;

    /// Evaluates a tree with an engine of settings. `AllocError` where the engine could not be made.
    fn eval_tree(
        alloc: Global,
        settings: &Settings,
        global: &mut GlobalRuntimeState<Pair>,
        caches: &mut Caches<Pair>,
        table: &mut BenchTable,
        scope: &mut Scope<Pair>,
        tree: &CheckedTree,
    ) -> Result<Result<Dynamic<Pair>, EvalAltResult<Pair>>, AllocError>
        requires fit { CachesFit (lists_of global.old) caches.old }
        ensures fit { CachesFit (lists_of global.new) caches.new };
}
