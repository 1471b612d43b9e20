//! The root of a path. Ports upstream's `search_imports`; the contract cites specs/Roots.antt.

ghost use Rattle.std.specs.Prelude.{◌≡◌, length};
ghost use Rattle.std.specs.Option.{option_copied};
ghost use Rattle.rhai_state.specs.Scope.{Fits};
ghost use Rattle.rhai_names.specs.Roots.{root_searched};

use rhai_functions::paths::find_root;
use rhai_tree::{Shared, Table, Text};
use rhai_values::base::value::{Import, Module};
use std::num::NonZeroUsize;

/// Finds the module at the root of a path. Where an index is in use, it is that of the import there, counted
/// from the newest, whatever its name; and else that of the newest import of the name, or the one that is
/// named so. None where there is neither, or the path is empty. Asked: the index is at most the number of
/// imports.
pub fn root_of<'m, H>(
    imports: &'m [Import<H>],
    named: &'m Table<Shared<Module<H>>>,
    index: Option<NonZeroUsize>,
    path: &[Shared<Text>],
) -> Option<&'m Module<H>>
    requires { Fits index (length imports.now) }
    ensures { option_copied result ≡ root_searched index path.now imports.now named.now }
{
    if let Some(index) = index {
        return Some(imports[imports.len() - index.get()].module.get());
    }
    let root = path.first()?;
    find_root(imports, named, root.get().as_str())
}
