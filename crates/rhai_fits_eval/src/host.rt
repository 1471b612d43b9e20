//! What a host has of the laws: it asks once whether its state and scope fit together, and need not ask again.

ghost use Rattle.std.specs.Prelude.{IfSome, IsTrue, None};
ghost use Rattle.rhai_lookups.specs.Levels.{CachesFit};
ghost use Rattle.rhai_lookups.specs.Runs.{lists_of};
ghost use Rattle.rhai_fits.specs.Contents.{Nothing};
ghost use Rattle.rhai_eval.specs.States.{under};
ghost use Rattle.rhai_fits_eval.specs.Together.{AreOthersThere};

use crate::scripts;
use rhai_errors::table::NativeTable;
use rhai_eval::engine::Engine;
use rhai_lookups::caches::Caches;
use rhai_state::scope::Scope;
use rhai_state::state::GlobalRuntimeState;
use rhai_tree::checked::CheckedTree;
use rhai_values::base::value::Host;
use std::alloc::Global;

/// Runs a script where state and scope fit together, and asks again: they do, whatever the script came to.
pub fn fits_before_and_behind<H: Host, T: NativeTable<H>>(
    engine: &Engine<H>,
    alloc: Global,
    global: &mut GlobalRuntimeState<H>,
    caches: &mut Caches<H>,
    table: &mut T,
    scope: &mut Scope<H>,
    tree: &CheckedTree,
) -> Option<bool>
    requires fit { CachesFit (lists_of global.old) caches.old }
    requires others { AreOthersThere (under H.name_of engine.now T.natives) Nothing (T.state table.old)
        global.old scope.old None }
    ensures again { IfSome result (λ fits. IsTrue fits) }
{
    if !global.fits(scope) {
        return None;
    }
    let outcome = scripts::eval_global_statements(
        engine, alloc, global, caches, table, scope, tree, false,
    );
    drop(outcome);
    Some(global.fits(scope))
}
