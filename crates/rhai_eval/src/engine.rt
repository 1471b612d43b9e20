//! The engine: the limits and switches of a run, and the modules that it offers.

ghost use Rattle.std.specs.Prelude.{◌≡◌, ◌<◌, ◌≤◌, ◌+◌, ◌-◌, ◌^◌, OnOk, IfErr, [], true, false};
ghost use Rattle.rhai_errors.specs.declared.error.EvalAltResult.TheVariants as error;
ghost use Rattle.rhai_state.specs.Limits.{limit_of};
ghost use Rattle.rhai_steps.specs.Sessions.{offer_of as offered};
ghost use Rattle.rhai_eval.specs.States.{limits_of, offer_of, unlimited};

use rhai_errors::error::EvalAltResult;
use rhai_eval_core::evaluator::Evaluator;
use rhai_state::limits::{Limits, operation_limit};
use rhai_state::session::{Offered, Session};
use rhai_state::state::GlobalRuntimeState;
use rhai_steps::charges;
use rhai_tree::position::Position;
use rhai_tree::{Items, Shared, Table};
use rhai_values::base::value::{Host, Module, ModuleTable};
use std::alloc::Global;

/// The limits and switches of a run, and the modules that it offers. Ports upstream's `Engine`, as
/// far as its tree evaluator reads it.
#[derive(Drop)]
pub struct Engine<H> {
    /// The most operations of a run; zero for no limit.
    pub max_operations: u64,
    /// The most variables of a scope; zero allows none.
    pub max_variables: usize,
    /// The most modules that a run loads; zero allows none.
    pub max_modules: usize,
    /// How deep calls of functions may go; zero allows none.
    pub max_call_levels: usize,
    /// The most items of an array, those of nested ones counted; zero for no limit.
    pub max_array_size: usize,
    /// The most entries of a map, those of nested ones counted; zero for no limit.
    pub max_map_size: usize,
    /// The most bytes of a text, those of nested values counted; zero for no limit.
    pub max_string_size: usize,
    pub fast_operators: bool,
    pub allow_shadowing: bool,
    pub fail_on_invalid_map_property: bool,
    /// Modules whose constants and functions are found without their names.
    pub global_modules: Items<Shared<Module<H>>>,
    /// Modules that are found by their names.
    pub global_sub_modules: Table<Shared<Module<H>>>,
    /// Modules that an `import` finds.
    pub modules: ModuleTable<H>,
}

impl<H: Host> Engine<H> {
    /// Makes an engine without limits on operations and data, with fast operators and shadowing, and without
    /// modules.
    pub fn new(alloc: Global) -> Engine<H>
        ensures limits { limits_of result ≡ unlimited }
        ensures max_operations { result.max_operations ≡ 0 }
        ensures fast_operators { result.fast_operators ≡ true }
        ensures allow_shadowing { result.allow_shadowing ≡ true }
        ensures fail_on_invalid_map_property { result.fail_on_invalid_map_property ≡ false }
        ensures global_modules { result.global_modules ≡ [] }
        ensures global_sub_modules { result.global_sub_modules ≡ ([], []) }
        ensures modules { result.modules.modules ≡ ([], []) }
    {
        Engine {
            max_operations: 0,
            max_variables: usize::MAX,
            max_modules: usize::MAX,
            max_call_levels: 64,
            max_array_size: 0,
            max_map_size: 0,
            max_string_size: 0,
            fast_operators: true,
            allow_shadowing: true,
            fail_on_invalid_map_property: false,
            global_modules: Items::new(alloc),
            global_sub_modules: Table::new(alloc),
            modules: ModuleTable {
                modules: Table::new(alloc),
            },
        }
    }

    /// Reads the engine's limits, as a run has them. It takes no memory.
    pub(crate) fn limits(&self) -> Limits
        ensures { result ≡ limits_of self.now }
    {
        Limits {
            max_operations: operation_limit(self.max_operations),
            max_variables: self.max_variables,
            max_modules: self.max_modules,
            max_call_levels: self.max_call_levels,
            max_array_size: self.max_array_size,
            max_map_size: self.max_map_size,
            max_string_size: self.max_string_size,
        }
    }

    /// Collects what a run has from the engine. It takes no memory.
    pub(crate) fn session(&self, alloc: Global) -> Session<'_, H>
        ensures limits { result.limits ≡ limits_of self.now }
        ensures offer { offered result ≡ offer_of self.now }
    {
        Session {
            alloc,
            limits: self.limits(),
            fast_operators: self.fast_operators,
            allow_shadowing: self.allow_shadowing,
            fail_on_invalid_map_property: self.fail_on_invalid_map_property,
            offered: Offered {
                global_modules: self.global_modules.as_slice(),
                global_sub_modules: &self.global_sub_modules,
            },
            modules: &self.modules,
        }
    }

    /// Makes the evaluator of a run, with the engine's own session.
    pub(crate) fn evaluator(&self, alloc: Global) -> Evaluator<'_, H>
        ensures limits { result.session.limits ≡ limits_of self.now }
        ensures offer { offered result.session ≡ offer_of self.now }
    {
        Evaluator {
            session: self.session(alloc),
        }
    }

    /// Charges one operation, or refuses it where the count has reached the limit; the count then
    /// stays. Ports upstream's `track_operation`.
    pub fn track_operation(
        &self,
        global: &mut GlobalRuntimeState<H>,
        pos: Position,
    ) -> Result<(), EvalAltResult<H>>
        ensures room { OnOk result (global.old.num_operations < limit_of self.now.max_operations) }
        ensures charged { OnOk result (global.new ≡ record global.old
            { num_operations = global.old.num_operations + 1 }) }
        ensures full { IfErr result (λ _. limit_of self.now.max_operations
            ≤ global.old.num_operations) }
        ensures refused { IfErr result (λ e. e ≡ error.ErrorTooManyOperations pos) }
        ensures same { IfErr result (λ _. global.new ≡ global.old) }
    {
        charges::charge_caller(&self.limits(), global, pos)
    }
}
