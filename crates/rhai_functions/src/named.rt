//! What a name means that is no variable's: a function of the libraries.

ghost use Rattle.std.specs.Prelude.{◌≡◌};
ghost use Rattle.rhai_functions.specs.Functions.{arity_by as arity_by_in, first_named as first_named_in, arity_in_modules};

use rhai_tree::Shared;
use rhai_values::base::value::{Module, ModuleFn};

/// Counts the parameters of a function, where it is of the name.
fn arity_by<H>(function: &ModuleFn<H>, name: &str) -> Option<usize>
    ensures { result ≡ arity_by_in name.now function.now }
{
    let def = function.def.get().def();
    let is_named = def.name.get().as_str() == name;
    if is_named {
        Some(def.params.len())
    } else {
        None
    }
}

/// Counts the parameters of the first function of a name.
fn first_named<H>(functions: &[ModuleFn<H>], name: &str) -> Option<usize>
    ensures { result ≡ first_named_in name.now functions.now }
{
    let mut at = 0;
    'functions: while at < functions.len() {
        if let Some(arity) = arity_by(&functions[at], name) {
            return Some(arity);
        }
        at += 1;
    }
    None
}

/// Counts the parameters of the first function of a name in the first library that has one.
pub fn arity_named<H>(lib: &[Shared<Module<H>>], name: &str) -> Option<usize>
    ensures { result ≡ arity_in_modules name.now lib.now }
{
    let mut at = 0;
    'modules: while at < lib.len() {
        if let Some(arity) = first_named(lib[at].get().functions.as_slice(), name) {
            return Some(arity);
        }
        at += 1;
    }
    None
}
