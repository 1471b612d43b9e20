//! Where a path leads: to its root, which is an import or a module that the engine has under the name,
//! and from there down. Ports what upstream's `search_imports` and `search_namespace` look through.
//! Nothing is copied, and no memory is taken.

ghost use Rattle.std.specs.Prelude.{◌≡◌, Some};
ghost use Rattle.std.specs.Option.{option_copied};
ghost use Rattle.rhai_functions.specs.Keys.{function_key_of};
ghost use Rattle.rhai_functions.specs.Namespaces.{constant_among, constant_in, down, if_public, imported, public_in, root_in};

use crate::key::FnKey;
use crate::lookup::find_in_module;
use rhai_tree::function::FnAccess;
use rhai_tree::{Shared, Table, Text};
use rhai_values::base::value::{Dynamic, Import, Module, ModuleFn};

/// Finds the module of the newest import of a name.
pub fn find_import<'m, H>(imports: &'m [Import<H>], name: &str) -> Option<&'m Module<H>>
    ensures { option_copied result ≡ imported name.now imports.now }
{
    let mut at = imports.len();
    'imports: while at > 0 {
        at -= 1;
        let import = &imports[at];
        if import.name.get().as_str() == name {
            return Some(import.module.get());
        }
    }
    None
}

/// Finds the root of a path: the module of a name's newest import, or else the engine's under the name.
pub fn find_root<'m, H>(
    imports: &'m [Import<H>],
    named: &'m Table<Shared<Module<H>>>,
    name: &str,
) -> Option<&'m Module<H>>
    ensures { option_copied result ≡ root_in name.now imports.now named.now }
{
    match find_import(imports, name) {
        Some(found) => Some(found),
        None => named.get(name).map(|found| found.get()),
    }
}

/// Finds the module that a path leads to, from one on.
pub fn find_down<'m, H>(from: &'m Module<H>, path: &[Shared<Text>]) -> Option<&'m Module<H>>
    ensures { option_copied result ≡ down path.now (Some from.now) }
{
    let mut within = from;
    'path: for name in path {
        within = within.sub_modules.get(name.get().as_str())?.get();
    }
    Some(within)
}

/// Finds the constant of a name in a module.
pub fn find_constant<'m, H>(within: &'m Module<H>, name: &str) -> Option<&'m Dynamic<H>>
    ensures { option_copied result ≡ constant_in name.now within.now }
{
    within.constants.get(name)
}

/// Finds the constant of a name in the first of some modules that has one.
pub fn find_global_constant<'m, H>(
    modules: &'m [Shared<Module<H>>],
    name: &str,
) -> Option<&'m Dynamic<H>>
    ensures { option_copied result ≡ constant_among name.now modules.now }
{
    let mut at = 0;
    'modules: while at < modules.len() {
        if let Some(constant) = find_constant(modules[at].get(), name) {
            return Some(constant);
        }
        at += 1;
    }
    None
}

/// Keeps a function that anybody may call, and no other.
fn only_public<H>(found: Option<&ModuleFn<H>>) -> Option<&ModuleFn<H>>
    ensures { option_copied result ≡ if_public (option_copied found.entry) }
{
    let function = found?;
    match function.def.get().def().access {
        FnAccess::Public => Some(function),
        FnAccess::Private => None,
    }
}

/// Finds the function of a key in a module, where anybody may call it. Of two of one key the later
/// stands, and the earlier is not looked at.
pub fn find_public<'m, H>(within: &'m Module<H>, key: FnKey<'_>) -> Option<&'m ModuleFn<H>>
    ensures { option_copied result ≡ public_in (function_key_of key.entry) within.now }
{
    only_public(find_in_module(within, key))
}
