//! The state of a run.

ghost use Rattle.std.specs.Prelude.{◌≡◌, [], ◌∷◌, ◌++◌, take, string_bytes, IfOk, OnOk, OnErr};
ghost use Rattle.rhai_state.specs.Scope.{in_use};
ghost use Rattle.rhai_state.specs.State.{import_as, import_of, with_imports, IsFresh};

use rhai_tree::{Items, Shared, Table, Text};
use rhai_values::base::value::{Dynamic, Import, Module};
use rhai_values::cells::CellStore;
use std::alloc::{AllocError, Global};
use std::num::NonZeroUsize;

/// What a run keeps beside its variables. Ports upstream's `GlobalRuntimeState`.
pub struct GlobalRuntimeState<H> {
    /// The libraries of script functions, first to last.
    pub lib: Items<Shared<Module<H>>>,
    /// The imported modules, the newest last.
    pub imports: Items<Import<H>>,
    /// The number of the current table of constants.
    pub constants: usize,
    /// How deep the calls are.
    pub level: usize,
    /// How deep the restoring blocks are.
    pub scope_level: usize,
    /// The operations that were charged.
    pub num_operations: u64,
    pub num_modules_loaded: usize,
    pub source: Option<Shared<Text>>,
    /// Whether names are found by search whatever their offsets say.
    pub always_search_scope: bool,
    pub cells: CellStore<H>,
    /// The tables of constants, by their numbers.
    pub constant_tables: Items<Table<Dynamic<H>>>,
}

// Written by hand, so that the crates above call this, and need not go through the fields.
impl<H: Drop> Drop for GlobalRuntimeState<H> {
    fn drop(self) {
        let GlobalRuntimeState {
            lib: _,
            imports: _,
            constants: _,
            level: _,
            scope_level: _,
            num_operations: _,
            num_modules_loaded: _,
            source: _,
            always_search_scope: _,
            cells: _,
            constant_tables: _,
        } = self;
    }
}

impl<H> GlobalRuntimeState<H> {
    /// Returns the offset that a variable is found by: its own, and none where variables are searched
    /// for.
    pub fn offset_in_use(&self, offset: Option<NonZeroUsize>) -> Option<NonZeroUsize>
        ensures { result ≡ in_use self.now.always_search_scope offset }
    {
        if self.always_search_scope {
            None
        } else {
            offset
        }
    }
}

impl<H: Drop> GlobalRuntimeState<H> {
    /// Creates the state before anything ran. Its one table of constants, number 0, is empty and current.
    /// Ports upstream's `GlobalRuntimeState::new`.
    pub fn new(alloc: Global) -> Result<GlobalRuntimeState<H>, AllocError>
        ensures { IfOk result (λ global. IsFresh global) }
    {
        let mut constant_tables = Items::new(alloc);
        constant_tables.push(Table::new(alloc))?;
        Ok(GlobalRuntimeState {
            lib: Items::new(alloc),
            imports: Items::new(alloc),
            constants: 0,
            level: 0,
            scope_level: 0,
            num_operations: 0,
            num_modules_loaded: 0,
            source: None,
            always_search_scope: false,
            cells: CellStore::new(alloc),
            constant_tables,
        })
    }

    /// Adds a module to the imports, under a name. Where there is no memory the state stays. Ports
    /// upstream's `GlobalRuntimeState::push_import`.
    pub fn push_import(&mut self, name: String, module: Shared<Module<H>>) -> Result<(), AllocError>
        ensures ok { OnOk result (self.new ≡ with_imports self.old
            (self.old.imports ++ import_as (string_bytes name) «module» ∷ [])) }
        ensures err { OnErr result (self.new ≡ self.old) }
    {
        let name = Shared::new(self.imports.allocator(), Text::from_string(name))?;
        self.imports.push(Import { name, module })
    }

    /// Lets go of all imports from `len` on, if there are any. Ports upstream's
    /// `GlobalRuntimeState::truncate_imports`.
    pub fn truncate_imports(&mut self, len: usize)
        ensures { self.new ≡ with_imports self.old (take len self.old.imports) }
    {
        self.imports.truncate(len);
    }
}

impl<H> GlobalRuntimeState<H> {
    /// Finds the index of the newest import of a name. Ports upstream's
    /// `GlobalRuntimeState::find_import`.
    pub fn find_import(&self, name: &str) -> Option<usize>
        ensures { result ≡ import_of name.now self.now.imports }
    {
        newest_import(self.imports.as_slice(), name)
    }
}

/// Finds the index of the newest import of a name.
fn newest_import<H>(imports: &[Import<H>], name: &str) -> Option<usize>
    ensures { result ≡ import_of name.now imports.now }
{
    let mut at = imports.len();
    'imports: while at > 0 {
        at -= 1;
        if imports[at].name.get().as_str() == name {
            return Some(at);
        }
    }
    None
}
