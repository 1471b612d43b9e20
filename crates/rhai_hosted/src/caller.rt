//! What a host has for its calls, and what makes them, as all that is proved beside the evaluator knows it.

ghost use Rattle.std.specs.Prelude.{◌≡◌, IfOk, length};
ghost use Rattle.rhai_values.specs.Cells.{IsNoHandle};

use rhai_errors::error::EvalAltResult;
use rhai_eval_base::base::{CellId, Dynamic, Items, Scope, Union};
use rhai_eval_base::cells::CellStore;
use rhai_eval_base::check::CheckedFn;
use rhai_eval_base::state::{Caches, GlobalRuntimeState};
use rhai_rows::maker::Maker;
use rhai_tables::host::Pair;
use rhai_tables::tables::bench::BenchTable;
use std::alloc::{AllocError, Global};
use std::mem::replace;

/// What a host has for its calls.
pub struct Caller {
    pub global: GlobalRuntimeState<Pair>,
    pub caches: Caches<Pair>,
    pub table: BenchTable,
    /// The variable `x` with 1.
    pub scope: Scope<Pair>,
    /// An object, or a first argument: 1.
    pub object: Dynamic<Pair>,
    /// The other arguments, each of them 4.
    pub args: Items<Dynamic<Pair>>,
}

// Written by hand, so that what lets go of it calls this, and need not go through its parts.
impl Drop for Caller {
    fn drop(self) {
        let Caller {
            global: _,
            caches: _,
            table: _,
            scope: _,
            object: _,
            args: _,
        } = self;
    }
}

/// A value with whether it may have changed the object.
pub type Answer = Result<(Dynamic<Pair>, bool), EvalAltResult<Pair>>;

fn int(value: i64) -> Dynamic<Pair>
    ensures { IsNoHandle result.value }
{
    Dynamic::new(Union::Int(value))
}

/// Makes a handle of the first cell.
pub(crate) fn handle() -> Dynamic<Pair> {
    Dynamic::new(Union::Cell(CellId { number: 0 }))
}

/// Adds a cell with a value.
pub(crate) fn add_cell(maker: &mut Maker, cells: &mut CellStore<Pair>, value: Dynamic<Pair>)
    requires { IsNoHandle value.value }
{
    if let Err((value, _)) = cells.add(value) {
        maker.lack_memory();
        drop(value);
    }
}

/// Makes so many arguments, each of them 4.
pub fn fours(alloc: Global, count: usize) -> Result<Items<Dynamic<Pair>>, AllocError>
    ensures { IfOk result (λ args. length args ≡ count) }
{
    let mut args = Items::new(alloc);
    'pushes: while args.len() < count {
        args.push(int(4))?;
    }
    Ok(args)
}

impl Caller {
    /// Makes a caller with so many arguments.
    pub fn new(alloc: Global, count: usize) -> Result<Caller, AllocError> {
        let args = fours(alloc, count)?;
        let global = GlobalRuntimeState::new(alloc)?;
        let mut maker = Maker::new(alloc);
        let mut scope = Scope::new(alloc);
        maker.declare(&mut scope, "x", int(1));
        maker.finish(Caller {
            global,
            caches: Caches::new(alloc),
            table: BenchTable::new(alloc, false),
            scope,
            object: int(1),
            args,
        })
    }

    /// Adds a cell with 1, as the object has it, and makes the object and the arguments handles of it.
    pub fn share(&mut self, maker: &mut Maker) {
        add_cell(maker, &mut self.global.cells, int(1));
        drop(replace(&mut self.object, handle()));
        'arguments: for arg in self.args.as_mut_slice() {
            drop(replace(arg, handle()));
        }
    }
}

/// How a call by a name is made.
#[derive(Clone, Copy)]
pub struct Manner {
    /// Whether it is made on the caller's variables.
    pub has_variables: bool,
    /// Whether the object is lent as the first argument.
    pub is_ref: bool,
    pub is_method: bool,
}

impl Manner {
    /// With the object as the first argument.
    pub const VALUE: Manner = Manner {
        has_variables: false,
        is_ref: false,
        is_method: false,
    };

    /// With the object lent as the first argument.
    pub const REFERENCE: Manner = Manner {
        is_ref: true,
        ..Manner::VALUE
    };

    /// As a method of the object.
    pub const METHOD: Manner = Manner {
        is_method: true,
        ..Manner::VALUE
    };

    /// On the caller's variables, with the object as the first argument.
    pub const ON_VARIABLES: Manner = Manner {
        has_variables: true,
        ..Manner::VALUE
    };

    /// On the caller's variables, as a method of the object.
    pub const METHOD_ON_VARIABLES: Manner = Manner {
        has_variables: true,
        ..Manner::METHOD
    };
}

/// Makes a host's own calls, each with the object and the arguments of a caller.
pub trait Calls {
    /// Calls a function with the object as its `this` and the arguments. `rewinds` says whether all of its variables go.
    fn call_function(alloc: Global, caller: &mut Caller, def: &CheckedFn, rewinds: bool) -> Answer;

    /// Calls a function by its name, in a manner.
    fn call_named(alloc: Global, caller: &mut Caller, name: &str, manner: Manner) -> Answer;

    /// Calls a native by its name, on the object before the arguments.
    fn call_native(alloc: Global, caller: &mut Caller, name: &str) -> Answer;

    /// Asks the indexer that reads for the item of the object at the first argument.
    fn call_indexer(alloc: Global, caller: &mut Caller) -> Answer;

    /// Calls a method on the object.
    fn call_method(alloc: Global, caller: &mut Caller, name: &str) -> Answer;

    /// Tells whether a function of a name without arguments is there.
    fn has_function(alloc: Global, caller: &mut Caller, name: &str) -> Answer;
}
