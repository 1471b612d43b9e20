//! What a run takes back on every way out.

use rhai_eval_base::state::GlobalRuntimeState;
use rhai_tables::host::Pair;

/// What of a state is to be as before behind a run.
#[derive(Clone, Copy, Debug, PartialEq, Eq)]
pub struct Levels {
    libraries: usize,
    imports: usize,
    level: usize,
    scope_level: usize,
    constants: usize,
}

impl Levels {
    /// Returns those of a state.
    pub fn of(global: &GlobalRuntimeState<Pair>) -> Levels {
        Levels {
            libraries: global.lib.len(),
            imports: global.imports.len(),
            level: global.level,
            scope_level: global.scope_level,
            constants: global.constants,
        }
    }

    /// Tells whether a state has them again.
    pub fn are_those_of(self, global: &GlobalRuntimeState<Pair>) -> bool {
        self == Levels::of(global)
    }

    /// Tells whether a state has them again, whatever its imports are.
    pub fn are_but_for_imports(self, global: &GlobalRuntimeState<Pair>) -> bool {
        let now = Levels::of(global);
        self == Levels {
            imports: self.imports,
            ..now
        }
    }
}
