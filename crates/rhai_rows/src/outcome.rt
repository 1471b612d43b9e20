//! What a script came to.

ghost use Rattle.std.specs.Prelude.{◌≡◌};
ghost use Rattle.rhai_rows.specs.Outcome.{status_of};

use rhai_eval_base::base::{EvalAltResult, Items, Scope};
use rhai_eval_base::cells::CellStore;
use rhai_eval_base::check::CheckFault;
use rhai_eval_base::state::Import;
use rhai_tables::host::Pair;
use rhai_values::base::value::Dynamic;

/// How a script ended.
#[derive(Drop)]
pub enum Ending {
    /// The checker refused it, so it did not run.
    Refused(CheckFault),
    Value(Dynamic<Pair>),
    Error(EvalAltResult<Pair>),
}

impl Ending {
    /// Returns the exit status that stands for the ending.
    pub fn status(&self) -> u8
        ensures { result ≡ status_of self.now }
    {
        match self {
            Ending::Value(_) => 0,
            Ending::Error(_) => 1,
            Ending::Refused(_) => 2,
        }
    }
}

/// What a script came to.
pub struct Outcome {
    pub ending: Ending,
    /// The operations that were charged.
    pub num_operations: u64,
    /// How many modules were loaded.
    pub num_modules_loaded: usize,
    /// The imports that were left.
    pub imports: Items<Import<Pair>>,
    /// The cells that variables and values share.
    pub cells: CellStore<Pair>,
    /// The variables that were left.
    pub scope: Scope<Pair>,
    /// What was left of `this`, `()` where there was none.
    pub this: Dynamic<Pair>,
    /// What the natives have counted.
    pub counted: i64,
    /// How many entries the newest cache has.
    pub entries: usize,
    /// How many caches there are.
    pub depth: usize,
}

// Written by hand, so that what lets go of it calls this, and need not go through its parts.
impl Drop for Outcome {
    fn drop(self) {
        let Outcome {
            ending: _,
            num_operations: _,
            num_modules_loaded: _,
            imports: _,
            cells: _,
            scope: _,
            this: _,
            counted: _,
            entries: _,
            depth: _,
        } = self;
    }
}
