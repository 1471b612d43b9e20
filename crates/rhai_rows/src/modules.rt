//! The modules that there are to import, those that an engine has, and the functions of a script as a library.

ghost use Rattle.std.specs.Prelude.{◌≡◌};

use crate::maker::Maker;
use rhai_build::functions::TreeParts;
use rhai_eval_base::base::{Dynamic, Items, Shared, Table, Union};
use rhai_eval_base::check::{CheckedTree, check_tree};
use rhai_eval_base::state::{GlobalRuntimeState, Module, ModuleFn, ModuleTable};
use rhai_library::library_of;
use rhai_samples::globals::FUNCTIONS_OF_A_GLOBAL_MODULE;
use rhai_samples::imports::{
    FUNCTIONS_OF_D, FUNCTIONS_OF_H, FUNCTIONS_OF_M, FUNCTIONS_OF_N, FUNCTIONS_OF_O,
};
use rhai_samples::parts::{Part, tree_of};
use rhai_tables::host::Pair;
use std::alloc::{AllocError, Global};

/// Puts the functions of a tree into a state, as one library. Where there is none the state stays.
pub fn add_library(
    alloc: Global,
    global: &mut GlobalRuntimeState<Pair>,
    tree: &CheckedTree,
) -> Result<(), AllocError>
    ensures { global.new ≡ record global.old { lib = global.new.lib } }
{
    if tree.functions().is_empty() {
        return Ok(());
    }
    let library = library_of(alloc, tree)?;
    global.lib.push(Shared::new(alloc, library)?)
}

/// Makes the modules that there are to import. Under `m` stands a module with a constant `K` of 7, its
/// functions, and a module `s` within it, whose `K` is 8; under `n` one with a constant `A` of `[1, 2]`, its
/// functions, and in a module `s` a module `d` with a constant `E` of 10 and a function. Every function of these but
/// `two` is global. Under `h` stands one with a function that is not, and under `o` one
/// with the function of a module of the engine.
pub fn modules_to_import(alloc: Global) -> Result<ModuleTable<Pair>, AllocError> {
    let mut maker = Maker::new(alloc);
    let mut modules = Table::new(alloc);
    let module = maker.module_m();
    maker.add_module(&mut modules, "m", module);
    let module = maker.module_n();
    maker.add_module(&mut modules, "n", module);
    let module = maker.library(FUNCTIONS_OF_H);
    maker.add_module(&mut modules, "h", module);
    let module = maker.module_of(FUNCTIONS_OF_O);
    maker.add_module(&mut modules, "o", module);
    maker.finish(ModuleTable { modules })
}

/// Makes the modules of an engine whose names are not needed. One has a constant `X` of `[1]`, and one an `X`
/// of 2, a `Y` of 3 and a function that is not global.
pub fn global_modules(alloc: Global) -> Result<Items<Shared<Module<Pair>>>, AllocError> {
    let mut maker = Maker::new(alloc);
    let mut modules = Items::new(alloc);
    let module = maker.global_module_of_x();
    maker.push_module(&mut modules, module);
    let module = maker.global_module_of_x_and_y();
    maker.push_module(&mut modules, module);
    maker.finish(modules)
}

/// Makes the modules of an engine that have names: under `g` the module that is imported as `m`.
pub fn global_sub_modules(alloc: Global) -> Result<Table<Shared<Module<Pair>>>, AllocError> {
    let mut maker = Maker::new(alloc);
    let mut modules = Table::new(alloc);
    let module = maker.module_m();
    maker.add_module(&mut modules, "g", module);
    maker.finish(modules)
}

fn integer(value: i64) -> Dynamic<Pair> {
    Dynamic::new(Union::Int(value))
}

impl Maker {
    /// Makes an array of integers.
    fn integers(&mut self, values: &[i64]) -> Dynamic<Pair> {
        let mut items = Items::new(self.allocator());
        for value in values {
            self.push(&mut items, integer(*value));
        }
        self.array(items)
    }

    /// Adds a module under a name.
    fn add_module(
        &mut self,
        modules: &mut Table<Shared<Module<Pair>>>,
        name: &str,
        module: Module<Pair>,
    ) {
        if let Some(module) = self.shared(module) {
            self.insert(modules, name, module);
        }
    }

    /// Appends a module to a list.
    pub(crate) fn push_module(
        &mut self,
        modules: &mut Items<Shared<Module<Pair>>>,
        module: Module<Pair>,
    ) {
        if let Some(module) = self.shared(module) {
            self.push(modules, module);
        }
    }

    /// Gives a module a constant.
    fn add_constant(&mut self, module: &mut Module<Pair>, name: &str, value: Dynamic<Pair>) {
        self.insert(&mut module.constants, name, value);
    }

    /// Makes the module with a constant alone.
    fn global_module_of_x(&mut self) -> Module<Pair> {
        let mut module = Module::new(self.allocator());
        let value = self.integers(&[1]);
        self.add_constant(&mut module, "X", value);
        module
    }

    /// Makes the module with two constants and a function.
    fn global_module_of_x_and_y(&mut self) -> Module<Pair> {
        let mut module = self.library(FUNCTIONS_OF_A_GLOBAL_MODULE);
        self.add_constant(&mut module, "X", integer(2));
        self.add_constant(&mut module, "Y", integer(3));
        module
    }

    /// Makes the module under `m`.
    fn module_m(&mut self) -> Module<Pair> {
        let mut module = self.module_of(FUNCTIONS_OF_M);
        self.add_constant(&mut module, "K", integer(7));
        let within = self.module_s_of_m();
        self.add_module(&mut module.sub_modules, "s", within);
        module
    }

    /// Makes the module `s` within that under `m`.
    fn module_s_of_m(&mut self) -> Module<Pair> {
        let mut module = Module::new(self.allocator());
        self.add_constant(&mut module, "K", integer(8));
        module
    }

    /// Makes the module under `n`.
    fn module_n(&mut self) -> Module<Pair> {
        let mut module = self.module_of(FUNCTIONS_OF_N);
        let value = self.integers(&[1, 2]);
        self.add_constant(&mut module, "A", value);
        let within = self.module_s_of_n();
        self.add_module(&mut module.sub_modules, "s", within);
        module
    }

    /// Makes the module `s` within that under `n`.
    fn module_s_of_n(&mut self) -> Module<Pair> {
        let mut module = Module::new(self.allocator());
        let within = self.module_d();
        self.add_module(&mut module.sub_modules, "d", within);
        module
    }

    /// Makes the module `d` within that.
    fn module_d(&mut self) -> Module<Pair> {
        let mut module = self.module_of(FUNCTIONS_OF_D);
        self.add_constant(&mut module, "E", integer(10));
        module
    }

    /// Makes a module of functions alone, all of them but `two` global.
    fn module_of(&mut self, parts: &[Part<'_>]) -> Module<Pair> {
        let mut module = self.library(parts);
        make_global(module.functions.as_mut_slice());
        module
    }

    /// Makes a module of the functions of a tree, none of them global.
    pub(crate) fn library(&mut self, parts: &[Part<'_>]) -> Module<Pair> {
        let library = library(self.allocator(), parts);
        match self.kept(library) {
            Some(library) => library,
            None => Module::new(self.allocator()),
        }
    }
}

fn library(alloc: Global, parts: &[Part<'_>]) -> Result<Module<Pair>, AllocError> {
    let tree = checked(alloc, parts)?;
    library_of(alloc, &tree)
}

/// Checks the tree of parts that are well formed.
pub(crate) fn checked(alloc: Global, parts: &[Part<'_>]) -> Result<CheckedTree, AllocError> {
    let TreeParts {
        statements,
        functions,
    } = tree_of(alloc, parts)?;
    check_tree(alloc, statements, functions).map_err(|_| AllocError)
}

/// Makes all functions global but `two`.
fn make_global(functions: &mut [ModuleFn<Pair>]) {
    for function in functions {
        function.is_global = function.def.get().def().name.get().as_str() != "two";
    }
}
