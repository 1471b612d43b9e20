//! The functions of a tree, as a library of a run's state, and one of them by its name.
#![tactic(auto)]

ghost use Rattle.std.specs.Prelude.{◌≡◌, IfOk, find, reverse};
ghost use Rattle.std.specs.Option.{option_map};
ghost use Rattle.rhai_library.specs.Library.{is_called, library_with};

use rhai_tree::checked::{CheckedFn, CheckedTree};
use rhai_tree::{Items, Shared, Table};
use rhai_values::base::value::{Module, ModuleFn};
use std::alloc::{AllocError, Global};

/// Builds a library with the functions of a tree, in their order and without an environment. It is to be
/// pushed onto `lib` of a run's state.
///
/// # Errors
/// `AllocError` where there is no memory.
pub fn library_of<H: Drop>(alloc: Global, tree: &CheckedTree) -> Result<Module<H>, AllocError>
    ensures { IfOk result (λ library. library ≡ library_with tree.now.1) }
{
    let mut functions = Items::new(alloc);
    'functions: for function in tree.functions() {
        functions.push(ModuleFn {
            def: function.share()?,
            environ: None,
            is_global: false,
        })?;
    }
    Ok(Module {
        id: None,
        constants: Table::new(alloc),
        functions,
        sub_modules: Table::new(alloc),
    })
}

/// Finds the function of a tree that has a name and so many parameters; of several the last. It takes no
/// memory.
pub fn function_of<'t>(
    tree: &'t CheckedTree,
    name: &str,
    count: usize,
) -> Option<&'t Shared<CheckedFn>>
    ensures { option_map (λ function. function.now) result
        ≡ find (is_called name.now count) (reverse tree.now.1) }
{
    tree.functions().iter().rev().find(|function| {
        let def = function.get().def();
        def.name.get().as_str() == name && def.params.len() == count
    })
}
