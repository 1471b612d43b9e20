//! Where a path leads.

ghost use Rattle.std.specs.Prelude.{◌≡◌};
ghost use Rattle.std.specs.Option.{option_copied};

use rhai_functions::key::FnKey;
use rhai_functions::paths;
use rhai_tree::{Shared, Table, Text};
use rhai_values::base::value::{Dynamic, Import, Module, ModuleFn};

/// Shows that two calls of `paths::find_import` find equal modules.
pub fn find_import<'m, H>(
    imports: &'m [Import<H>],
    name: &str,
) -> (Option<&'m Module<H>>, Option<&'m Module<H>>)
    ensures { option_copied result.0 ≡ option_copied result.1 }
{
    (
        paths::find_import(imports, name),
        paths::find_import(imports, name),
    )
}

/// Shows that two calls of `paths::find_root` find equal modules.
pub fn find_root<'m, H>(
    imports: &'m [Import<H>],
    named: &'m Table<Shared<Module<H>>>,
    name: &str,
) -> (Option<&'m Module<H>>, Option<&'m Module<H>>)
    ensures { option_copied result.0 ≡ option_copied result.1 }
{
    (
        paths::find_root(imports, named, name),
        paths::find_root(imports, named, name),
    )
}

/// Shows that two calls of `paths::find_down` find equal modules.
pub fn find_down<'m, H>(
    from: &'m Module<H>,
    path: &[Shared<Text>],
) -> (Option<&'m Module<H>>, Option<&'m Module<H>>)
    ensures { option_copied result.0 ≡ option_copied result.1 }
{
    (paths::find_down(from, path), paths::find_down(from, path))
}

/// Shows that two calls of `paths::find_constant` find equal constants.
pub fn find_constant<'m, H>(
    within: &'m Module<H>,
    name: &str,
) -> (Option<&'m Dynamic<H>>, Option<&'m Dynamic<H>>)
    ensures { option_copied result.0 ≡ option_copied result.1 }
{
    (
        paths::find_constant(within, name),
        paths::find_constant(within, name),
    )
}

/// Shows that two calls of `paths::find_global_constant` find equal constants.
pub fn find_global_constant<'m, H>(
    modules: &'m [Shared<Module<H>>],
    name: &str,
) -> (Option<&'m Dynamic<H>>, Option<&'m Dynamic<H>>)
    ensures { option_copied result.0 ≡ option_copied result.1 }
{
    (
        paths::find_global_constant(modules, name),
        paths::find_global_constant(modules, name),
    )
}

/// Shows that two calls of `paths::find_public` find equal functions.
pub fn find_public<'m, H>(
    within: &'m Module<H>,
    key: FnKey<'_>,
) -> (Option<&'m ModuleFn<H>>, Option<&'m ModuleFn<H>>)
    ensures { option_copied result.0 ≡ option_copied result.1 }
{
    (
        paths::find_public(within, key),
        paths::find_public(within, key),
    )
}
