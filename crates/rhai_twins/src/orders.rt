//! The order of what is told of functions of scripts.

ghost use Rattle.std.specs.Prelude.{◌≡◌};
ghost use Rattle.std.specs.Ordering.{ordering_then};
ghost use Rattle.std.specs.declared.cmp.Ordering.TheVariants.{Less};

use rhai_functions::metadata::ScriptFnMetadata;
use rhai_tree::function::FnAccess;
use std::cmp::Ordering;

/// Shows that private comes before public.
pub fn private_comes_first() -> Ordering
    ensures { result ≡ Less }
{
    FnAccess::Private.cmp(&FnAccess::Public)
}

/// Shows that functions stand in the order of their names. Those of a name stand in that of their
/// parameters, then of who may call them, and last of the type of their `this`.
pub fn by_name_first<'a>(one: &ScriptFnMetadata<'a>, other: &ScriptFnMetadata<'a>) -> Ordering
    ensures { result ≡ ordering_then (⟦<&'a str as Ord>⟧.cmp one.now.name other.now.name)
        (ordering_then (⟦<Vec<&'a str> as Ord>⟧.cmp one.now.params other.now.params)
        (ordering_then (⟦<FnAccess as Ord>⟧.cmp one.now.access other.now.access)
        (⟦<Option<&'a str> as Ord>⟧.cmp one.now.this_type other.now.this_type))) }
{
    one.cmp(other)
}
