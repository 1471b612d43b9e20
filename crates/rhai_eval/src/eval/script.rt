//! Whole scripts. Ports upstream's `eval_global_statements`.

ghost use Rattle.std.specs.Prelude.{◌≡◌, ◌≤◌, length, true, None, IfErr, IsTrue};
ghost use Rattle.rhai_tree.specs.Names.{Begins};
ghost use Rattle.rhai_errors.specs.Errors.{is_out_of_memory};
ghost use Rattle.rhai_state.specs.Scope.{names_in};
ghost use Rattle.rhai_lookups.specs.Levels.{CachesFit, CachesLeft};
ghost use Rattle.rhai_lookups.specs.Runs.{lists_of};
ghost use Rattle.rhai_machine.specs.language.Memory.{UpToMemory};
ghost use Rattle.rhai_machine.specs.language.Script.{EndsAsMachine, AgreesWithHigherLimits, start_of_script};
ghost use Rattle.rhai_machine.specs.language.Script.{end_of_script};
ghost use Rattle.rhai_steps.specs.Callers.{state_of};
ghost use Rattle.rhai_steps.specs.States.{holding};
ghost use Rattle.rhai_laws.specs.Kept.{Grown};
ghost use Rattle.rhai_eval_steps.specs.Memory.{may_ask};
ghost use Rattle.rhai_eval.specs.States.{under};

use crate::engine::Engine;
use rhai_context::ends::finish;
use rhai_context::{give_back, take};
use rhai_errors::error::EvalAltResult;
use rhai_errors::table::NativeTable;
use rhai_lookups::caches::Caches;
use rhai_state::scope::Scope;
use rhai_state::state::GlobalRuntimeState;
use rhai_steps::outcome::end_script;
use rhai_tree::checked::CheckedTree;
use rhai_values::base::value::{Dynamic, Host};
use std::alloc::Global;

impl<H: Host> Engine<H> {
    /// Runs a checked tree in a scope. Its variables stay, after an error too. A `return` outside a
    /// function gives the script's value; so does an exit where `map_exit_to_return_value` is set.
    ///
    /// Ends exactly as the step machine does that is cut at the first charge past the limit of
    /// operations, or with `ErrorOutOfMemory`: then the run is the machine's own up to where memory
    /// ran out, and unwinds from there.
    ///
    /// The tree's functions are found where the caller put them into a library of the state.
    pub fn eval_global_statements<T: NativeTable<H>>(
        &self,
        alloc: Global,
        global: &mut GlobalRuntimeState<H>,
        caches: &mut Caches<H>,
        table: &mut T,
        scope: &mut Scope<H>,
        tree: &CheckedTree,
        map_exit_to_return_value: bool,
    ) -> Result<Dynamic<H>, EvalAltResult<H>>
        requires fit { CachesFit (lists_of global.old) caches.old }
        ensures ends { EndsAsMachine (under H.name_of self.now T.natives) tree.now.0 map_exit_to_return_value
            (state_of (T.state table.old) global.old scope.old (holding None)) result
            (state_of (T.state table.new) global.new scope.new (holding None)) }
        ensures two_limits { AgreesWithHigherLimits (under H.name_of self.now T.natives) tree.now.0
            map_exit_to_return_value
            (state_of (T.state table.old) global.old scope.old (holding None)) result
            (state_of (T.state table.new) global.new scope.new (holding None)) }
        ensures up_to { UpToMemory (under H.name_of self.now T.natives)
            (start_of_script tree.now.0 map_exit_to_return_value
            (state_of (T.state table.old) global.old scope.old (holding None)))
            (end_of_script result (state_of (T.state table.new) global.new scope.new (holding None))) }
        ensures memory { IfErr result (λ error. is_out_of_memory error ≡ true → IsTrue (may_ask tree.now.0)) }
        ensures kept { Grown (under H.name_of self.now T.natives)
            (state_of (T.state table.old) global.old scope.old (holding None))
            (state_of (T.state table.new) global.new scope.new (holding None)) }
        ensures begins { Begins (names_in scope.old) (names_in scope.new) }
        ensures variables { length (names_in scope.old) ≤ self.now.max_variables →
            length (names_in scope.new) ≤ self.now.max_variables }
        ensures caches { CachesLeft (lists_of global.new) caches.old caches.new }
        ensures search { global.new.always_search_scope ≡ global.old.always_search_scope }
    {
        let mut run = take(alloc, global, caches, scope);
        let evaluator = self.evaluator(alloc);
        let done = evaluator.run_stmt_block(&mut run, table, tree.statements(), false);
        let outcome = finish(done, &mut run.value, &mut run.error);
        give_back(run, global, caches, scope);
        end_script(outcome, map_exit_to_return_value)
    }
}
