//! The state of a run.

ghost use Rattle.std.specs.Prelude.{◌≡◌};
ghost use Rattle.rhai_lookups.specs.Runs.{given_back, lists_of, run_of};
ghost use Rattle.rhai_lookups.specs.Levels.{CachesFit, CachesLeft, emptied};
ghost use Rattle.rhai_state.specs.Scope.{in_use};

use crate::caches::Caches;
use crate::lists::Lists;
use rhai_state::state::GlobalRuntimeState;
use rhai_tree::{Items, Shared, Table, Text};
use rhai_values::base::value::Dynamic;
use rhai_values::cells::CellStore;
use std::alloc::Global;
use std::mem::replace;
use std::num::NonZeroUsize;

/// What a run keeps beside its variables: what its caller's state has, with what lookups found in the lists.
pub struct RunState<H> {
    /// The libraries of script functions, and the imported modules.
    pub lists: Lists<H>,
    /// The number of the current table of constants.
    pub constants: usize,
    /// How deep the calls are.
    pub level: usize,
    /// How deep the restoring blocks are.
    pub scope_level: usize,
    /// The operations that were charged.
    pub num_operations: u64,
    pub num_modules_loaded: usize,
    pub source: Option<Shared<Text>>,
    /// Whether names are found by search whatever their offsets say.
    pub always_search_scope: bool,
    pub cells: CellStore<H>,
    /// The tables of constants, by their numbers.
    pub constant_tables: Items<Table<Dynamic<H>>>,
}

// Written by hand, so that the crates above call this, and need not go through the fields.
impl<H: Drop> Drop for RunState<H> {
    fn drop(self) {
        let RunState {
            lists: _,
            constants: _,
            level: _,
            scope_level: _,
            num_operations: _,
            num_modules_loaded: _,
            source: _,
            always_search_scope: _,
            cells: _,
            constant_tables: _,
        } = self;
    }
}

impl<H> RunState<H> {
    /// Returns the offset that a variable is found by: its own, and none where variables are searched for.
    pub fn offset_in_use(&self, offset: Option<NonZeroUsize>) -> Option<NonZeroUsize>
        ensures { result ≡ in_use self.now.always_search_scope offset }
    {
        if self.always_search_scope {
            None
        } else {
            offset
        }
    }
}

/// Takes a caller's state and its newest cache for a run. Empty ones stand in their places until
/// `give_state`, and whether variables are searched for stays there. It takes no memory.
pub fn take_state<H: Drop>(
    alloc: Global,
    global: &mut GlobalRuntimeState<H>,
    caches: &mut Caches<H>,
) -> RunState<H>
    requires fit { CachesFit (lists_of global.old) caches.old }
    ensures run { result ≡ run_of global.old }
    ensures search { global.new.always_search_scope ≡ global.old.always_search_scope }
    ensures caches { caches.new ≡ record caches.old { levels = emptied caches.old.levels } }
{
    let lib = replace(&mut global.lib, Items::new(alloc));
    let imports = replace(&mut global.imports, Items::new(alloc));
    let source = replace(&mut global.source, None);
    let cells = replace(&mut global.cells, CellStore::new(alloc));
    let constant_tables = replace(&mut global.constant_tables, Items::new(alloc));
    RunState {
        lists: Lists::from_parts(lib, imports, caches),
        constants: global.constants,
        level: global.level,
        scope_level: global.scope_level,
        num_operations: global.num_operations,
        num_modules_loaded: global.num_modules_loaded,
        source,
        always_search_scope: global.always_search_scope,
        cells,
        constant_tables,
    }
}

impl<H: Drop> RunState<H> {
    /// Puts the state of a run back in its caller's place, and the oldest of its caches in that of the
    /// caller's newest. No run changes whether its caller's variables are searched for. It takes no memory.
    pub fn give_state(self, global: &mut GlobalRuntimeState<H>, caches: &mut Caches<H>)
        ensures global { global.new ≡ given_back global.old.always_search_scope self }
        ensures caches { CachesLeft self.lists caches.old caches.new }
    {
        let RunState {
            lists,
            constants,
            level,
            scope_level,
            num_operations,
            num_modules_loaded,
            source,
            always_search_scope: _,
            cells,
            constant_tables,
        } = self;
        let (lib, imports) = lists.into_parts(caches);
        let left = GlobalRuntimeState {
            lib,
            imports,
            constants,
            level,
            scope_level,
            num_operations,
            num_modules_loaded,
            source,
            always_search_scope: global.always_search_scope,
            cells,
            constant_tables,
        };
        drop(replace(global, left));
    }
}
