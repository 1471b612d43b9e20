//! What a function is looked for by.

ghost use Rattle.std.specs.Prelude.{◌≡◌};
ghost use Rattle.std.specs.Option.{option_copied};
ghost use Rattle.rhai_functions.specs.Functions.{has_key as has_key_in, is_type as is_type_in};
ghost use Rattle.rhai_functions.specs.Keys.{function_key_of};

use rhai_tree::function::ScriptFuncDef;
use rhai_tree::{Shared, Text};

/// What a function is looked for by: its name, how many parameters it has, and the type that its `this` must
/// have, if any. Stands for upstream's hash of a function.
#[derive(Clone, Copy, Debug, PartialEq, Eq)]
pub struct FnKey<'a> {
    pub name: &'a str,
    pub arity: usize,
    pub this_type: Option<&'a str>,
}

/// Tells whether a function's type of `this` is the one that is looked for.
fn is_type(own: &Option<Shared<Text>>, wanted: Option<&str>) -> bool
    ensures { result ≡ is_type_in own.now (option_copied wanted.entry) }
{
    match (own, wanted) {
        (None, None) => true,
        (Some(own), Some(wanted)) => own.get().as_str() == wanted,
        _ => false,
    }
}

/// Tells whether a function has a key.
#[inline(always)]
pub fn has_key(def: &ScriptFuncDef, key: FnKey<'_>) -> bool
    ensures { result ≡ has_key_in (function_key_of key.entry) def.now }
{
    def.params.len() == key.arity
        && def.name.get().as_str() == key.name
        && is_type(&def.this_type, key.this_type)
}
