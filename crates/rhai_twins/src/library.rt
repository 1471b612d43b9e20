//! The laws of a tree's functions as a library.

ghost use Rattle.std.specs.Prelude.{◌≡◌, is_ok};
ghost use Rattle.std.specs.Option.{option_map};

use rhai_tree::Shared;
use rhai_tree::checked::{CheckedFn, CheckedTree};
use rhai_values::base::value::Module;
use std::alloc::{AllocError, Global};

/// Shows that two calls of `library_of` on equal trees build equal libraries.
pub fn library_of<H: Drop>(
    alloc: Global,
    one: &CheckedTree,
    other: &CheckedTree,
) -> (Result<Module<H>, AllocError>, Result<Module<H>, AllocError>)
    requires { one.now ≡ other.now }
    ensures { is_ok result.0 ≡ is_ok result.1 → result.0 ≡ result.1 }
{
    (
        rhai_library::library_of(alloc, one),
        rhai_library::library_of(alloc, other),
    )
}

/// Shows that two calls of `function_of` on equal trees and names find equal functions.
pub fn function_of<'t>(
    one: &'t CheckedTree,
    other: &'t CheckedTree,
    name: &str,
    also_name: &str,
    count: usize,
) -> (Option<&'t Shared<CheckedFn>>, Option<&'t Shared<CheckedFn>>)
    requires trees { one.now ≡ other.now }
    requires names { name.now ≡ also_name.now }
    ensures { option_map (λ found. found.now) result.0 ≡ option_map (λ found. found.now) result.1 }
{
    (
        rhai_library::function_of(one, name, count),
        rhai_library::function_of(other, also_name, count),
    )
}
