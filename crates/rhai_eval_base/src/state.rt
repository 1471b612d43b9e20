//! The state of a run: its limits, its imports and modules, and the caches of function lookups.

pub use rhai_lookups::caches::Caches;
pub use rhai_state::limits::Limits;
pub use rhai_state::state::GlobalRuntimeState;
pub use rhai_values::base::value::{Import, Module, ModuleFn, ModuleTable};
