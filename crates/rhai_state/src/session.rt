//! What a run has from its engine.

use crate::limits::Limits;
use rhai_tree::{Shared, Table};
use rhai_values::base::value::{Module, ModuleTable};
use std::alloc::Global;

/// The modules of an engine that functions are found in: those whose functions are found without their names,
/// and those that have names.
#[derive(Drop)]
pub struct Offered<'e, H> {
    pub global_modules: &'e [Shared<Module<H>>],
    pub global_sub_modules: &'e Table<Shared<Module<H>>>,
}

/// What a run has from its engine: limits, switches, the modules that it offers, and where memory comes from.
#[derive(Drop)]
pub struct Session<'e, H> {
    pub alloc: Global,
    pub limits: Limits,
    pub fast_operators: bool,
    pub allow_shadowing: bool,
    pub fail_on_invalid_map_property: bool,
    /// The modules that names lead to.
    pub offered: Offered<'e, H>,
    /// Modules that an `import` finds.
    pub modules: &'e ModuleTable<H>,
}
