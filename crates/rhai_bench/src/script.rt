//! Runs of scripts. The programs have no copy of the evaluator of their own, as one is made in each crate that
//! calls it with a type of table, and what is proved beside it knows it as a `Runner`.

ghost use Rattle.std.specs.Prelude.{◌≡◌, ◌≢◌, ◌≤◌, [], IfOk, false, length};
ghost use Rattle.rhai_tree.specs.WellFormed.{IsFormedTree};
ghost use Rattle.rhai_tree.specs.declared.fault.CheckFault.TheVariants.{NoMemory};
ghost use Rattle.rhai_state.specs.Scope.{entries_of, names_in};
ghost use Rattle.rhai_state.specs.Limits.{limit_of};
ghost use Rattle.rhai_eval.specs.States.{limits_of};
ghost use Rattle.rhai_rows.specs.Outcome.{IfRefused};

use crate::Bench;
use crate::entering::enter_last;
use rhai_errors::error::EvalAltResult;
use rhai_eval::base::{Dynamic, Items, Scope, Table, Union};
use rhai_eval::cells::CellStore;
use rhai_eval::check::{CheckedTree, check_tree};
use rhai_eval::engine::Engine;
use rhai_eval::state::{Caches, GlobalRuntimeState, ModuleTable};
use rhai_rows::attempt::Attempt;
use rhai_rows::entry::Entry;
use rhai_rows::modules::{add_library, global_modules, global_sub_modules, modules_to_import};
use rhai_rows::outcome::{Ending, Outcome};
use rhai_rows::runner::Runner;
use rhai_rows::sample::Script;
use rhai_rows::settings::{Settings, Way};
use rhai_tables::host::Pair;
use rhai_tables::tables::bench::BenchTable;
use std::alloc::{AllocError, Global};
use std::mem::replace;

/// Makes an engine with the limits and switches of settings, and with the modules that there are to be.
pub fn engine_of(alloc: Global, settings: &Settings) -> Result<Engine<Pair>, AllocError>
    ensures limits { IfOk result (λ engine. limits_of engine ≡ record settings.now.limits
        { max_operations = limit_of settings.now.limits.max_operations }) }
    ensures fast_operators { IfOk result (λ engine. engine.fast_operators ≡ settings.now.fast_operators) }
    ensures shadowing { IfOk result (λ engine. engine.allow_shadowing ≡ settings.now.allow_shadowing) }
    ensures map_property { IfOk result (λ engine. engine.fail_on_invalid_map_property
        ≡ settings.now.fail_on_invalid_map_property) }
    ensures global_modules { settings.now.has_global_modules ≡ false →
        IfOk result (λ engine. engine.global_modules ≡ []) }
    ensures global_sub_modules { settings.now.has_global_modules ≡ false →
        IfOk result (λ engine. engine.global_sub_modules ≡ ([], [])) }
{
    let modules = modules_of(alloc, settings)?;
    let mut engine = Engine::new(alloc);
    engine.max_operations = settings.limits.max_operations;
    engine.max_variables = settings.limits.max_variables;
    engine.max_modules = settings.limits.max_modules;
    engine.max_call_levels = settings.limits.max_call_levels;
    engine.max_array_size = settings.limits.max_array_size;
    engine.max_map_size = settings.limits.max_map_size;
    engine.max_string_size = settings.limits.max_string_size;
    engine.fast_operators = settings.fast_operators;
    engine.allow_shadowing = settings.allow_shadowing;
    engine.fail_on_invalid_map_property = settings.fail_on_invalid_map_property;
    drop(replace(&mut engine.modules, modules));
    if settings.has_global_modules {
        let named = global_sub_modules(alloc)?;
        drop(replace(&mut engine.global_modules, global_modules(alloc)?));
        drop(replace(&mut engine.global_sub_modules, named));
    }
    Ok(engine)
}

/// Makes the modules to import, or none.
fn modules_of(alloc: Global, settings: &Settings) -> Result<ModuleTable<Pair>, AllocError> {
    if settings.has_modules {
        modules_to_import(alloc)
    } else {
        Ok(ModuleTable {
            modules: Table::new(alloc),
        })
    }
}

impl Runner for Bench {
    fn enter(
        alloc: Global,
        entry: Entry,
        script: Script,
        way: Way,
        scope: Scope<Pair>,
        attempt: &mut Attempt,
    ) -> Result<Outcome, AllocError> {
        enter_last(alloc, entry, script, way, scope, attempt)
    }

    fn run_above(
        alloc: Global,
        script: Script,
        way: Way,
        scope: Scope<Pair>,
    ) -> Result<Outcome, AllocError> {
        run_above(alloc, script, way, scope)
    }

    fn eval_tree(
        alloc: Global,
        settings: &Settings,
        global: &mut GlobalRuntimeState<Pair>,
        caches: &mut Caches<Pair>,
        table: &mut BenchTable,
        scope: &mut Scope<Pair>,
        tree: &CheckedTree,
    ) -> Result<Result<Dynamic<Pair>, EvalAltResult<Pair>>, AllocError> {
        let engine: Engine<Pair> = engine_of(alloc, settings)?;
        Ok(engine.eval_global_statements(
            alloc,
            global,
            caches,
            table,
            scope,
            tree,
            settings.map_exit_to_return_value,
        ))
    }
}

/// Checks a script and runs it in one of the ways, in an empty scope. It has the natives that its settings say,
/// and its functions are one library of the state.
pub fn run(alloc: Global, script: Script, way: Way) -> Result<Outcome, AllocError>
    ensures limit { script.settings.start.num_operations ≤ limit_of script.settings.limits.max_operations →
        IfOk result (λ o. o.num_operations ≤ limit_of script.settings.limits.max_operations) }
    ensures variables { IfOk result (λ o. length (names_in o.scope)
        ≤ script.settings.limits.max_variables) }
    ensures refused { IfOk result (λ o. IfRefused o.ending
        (λ f. f ≢ NoMemory → ¬ IsFormedTree script.statements script.functions)) }
    ensures not_run { IfOk result (λ o. IfRefused o.ending
        (λ _. (o.num_operations ≡ script.settings.start.num_operations) × (entries_of o.scope ≡ []))) }
{
    run_above(alloc, script, way, Scope::new(alloc))
}

/// Checks a script and runs it in one of the ways, above the variables of a scope. It has the natives that its
/// settings say.
pub fn run_above(
    alloc: Global,
    script: Script,
    way: Way,
    scope: Scope<Pair>,
) -> Result<Outcome, AllocError>
    ensures limit { script.settings.start.num_operations ≤ limit_of script.settings.limits.max_operations →
        IfOk result (λ o. o.num_operations ≤ limit_of script.settings.limits.max_operations) }
    ensures variables { IfOk result (λ o. length (names_in scope) ≤ script.settings.limits.max_variables →
        length (names_in o.scope) ≤ script.settings.limits.max_variables) }
    ensures refused { IfOk result (λ o. IfRefused o.ending
        (λ f. f ≢ NoMemory → ¬ IsFormedTree script.statements script.functions)) }
    ensures not_run { IfOk result (λ o. IfRefused o.ending
        (λ _. (o.num_operations ≡ script.settings.start.num_operations)
        × (entries_of o.scope ≡ entries_of scope))) }
{
    let Script {
        statements,
        functions,
        settings,
    } = script;
    let mut global = GlobalRuntimeState::new(alloc)?;
    global.always_search_scope = way.always_search_scope;
    let mut caches = way.caches(alloc);
    settings.start.set(&mut global)?;
    let mut table = BenchTable::new(alloc, settings.has_odd_natives);
    let mut scope = scope;
    let ending = match check_tree(alloc, statements, functions) {
        Err(fault) => Ending::Refused(fault),
        Ok(tree) => {
            add_library(alloc, &mut global, &tree)?;
            let engine: Engine<Pair> = engine_of(alloc, &settings)?;
            let exits = settings.map_exit_to_return_value;
            match engine.eval_global_statements(
                alloc,
                &mut global,
                &mut caches,
                &mut table,
                &mut scope,
                &tree,
                exits,
            ) {
                Ok(value) => Ending::Value(value),
                Err(error) => Ending::Error(error),
            }
        }
    };
    Ok(Outcome {
        ending,
        num_operations: global.num_operations,
        num_modules_loaded: global.num_modules_loaded,
        imports: replace(&mut global.imports, Items::new(alloc)),
        cells: replace(&mut global.cells, CellStore::new(alloc)),
        scope,
        this: Dynamic::new(Union::Unit),
        counted: table.count(),
        entries: caches.entries(),
        depth: caches.len(),
    })
}
