//! Names that mean something besides functions.

ghost use Rattle.std.specs.Prelude.{◌≡◌};
ghost use Rattle.rhai_functions.specs.Words.{has_own_meaning as own_meaning};

/// Tells whether a name means something besides functions.
pub fn has_own_meaning(name: &str) -> bool
    ensures { result ≡ own_meaning name.now }
{
    name == "call"
        || name == "Fn"
        || name == "curry"
        || name == "is_shared"
        || name == "is_def_var"
        || name == "type_of"
        || name == "eval"
        || name == "is_def_fn"
}
