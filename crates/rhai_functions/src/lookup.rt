//! Where a function is found. Nothing is copied: what is answered is the function as its module has it.

ghost use Rattle.std.specs.Prelude.{◌≡◌};
ghost use Rattle.std.specs.Option.{option_copied};
ghost use Rattle.rhai_functions.specs.Functions.{found_in, if_shown, in_imports, in_module, in_modules, in_named};
ghost use Rattle.rhai_functions.specs.Functions.{is_public as is_public_in, is_shown as is_shown_in, last_of};
ghost use Rattle.rhai_functions.specs.Keys.{function_key_of};

use crate::key::{FnKey, has_key};
use rhai_tree::Shared;
use rhai_tree::function::FnAccess;
use rhai_values::base::value::{Import, Module, ModuleFn};

/// Finds the last of some functions that has a key.
#[inline(always)]
fn last_with_key<'m, H>(functions: &'m [ModuleFn<H>], key: FnKey<'_>) -> Option<&'m ModuleFn<H>>
    ensures { option_copied result ≡ last_of (function_key_of key.entry) functions.now }
{
    let mut at = functions.len();
    'functions: while at > 0 {
        at -= 1;
        let function = &functions[at];
        let fits = has_key(function.def.get().def(), key);
        if fits {
            return Some(function);
        }
    }
    None
}

/// Finds a module's function of a key.
#[inline(always)]
pub fn find_in_module<'m, H>(within: &'m Module<H>, key: FnKey<'_>) -> Option<&'m ModuleFn<H>>
    ensures { option_copied result ≡ in_module (function_key_of key.entry) within.now }
{
    last_with_key(within.functions.as_slice(), key)
}

/// Tells whether anybody may call a function.
fn is_public(access: FnAccess) -> bool
    ensures { result ≡ is_public_in access }
{
    matches!(access, FnAccess::Public)
}

/// Tells whether a function is found without its module's name.
fn is_shown<H>(function: &ModuleFn<H>) -> bool
    ensures { result ≡ is_shown_in function.now }
{
    is_public(function.def.get().def().access) && function.is_global
}

/// Keeps a function that is found without its module's name, and no other.
fn only_shown<H>(found: Option<&ModuleFn<H>>) -> Option<&ModuleFn<H>>
    ensures { option_copied result ≡ if_shown (option_copied found.entry) }
{
    let function = found?;
    let shows = is_shown(function);
    if shows { Some(function) } else { None }
}

/// Finds the function of a key in the first of some modules that has one.
#[inline(always)]
pub fn find_in_modules<'m, H>(
    modules: &'m [Shared<Module<H>>],
    key: FnKey<'_>,
) -> Option<&'m ModuleFn<H>>
    ensures { option_copied result ≡ in_modules (function_key_of key.entry) modules.now }
{
    let mut at = 0;
    'modules: while at < modules.len() {
        if let Some(function) = find_in_module(modules[at].get(), key) {
            return Some(function);
        }
        at += 1;
    }
    None
}

/// Finds the function of a key in the first of some modules under names that shows one.
fn find_in_named<'m, H>(modules: &'m [Shared<Module<H>>], key: FnKey<'_>) -> Option<&'m ModuleFn<H>>
    ensures { option_copied result ≡ in_named (function_key_of key.entry) modules.now }
{
    let mut at = 0;
    'modules: while at < modules.len() {
        if let Some(function) = only_shown(find_in_module(modules[at].get(), key)) {
            return Some(function);
        }
        at += 1;
    }
    None
}

/// Finds the function of a key in the newest of some imports that shows one.
fn find_in_imports<'m, H>(imports: &'m [Import<H>], key: FnKey<'_>) -> Option<&'m ModuleFn<H>>
    ensures { option_copied result ≡ in_imports (function_key_of key.entry) imports.now }
{
    let mut at = imports.len();
    'imports: while at > 0 {
        at -= 1;
        if let Some(function) = only_shown(find_in_module(imports[at].module.get(), key)) {
            return Some(function);
        }
    }
    None
}

/// Finds the function of a key, where a run looks for it. It looks in the libraries, first to last; in
/// the engine's global modules, in order; in the imports, from the newest, and in the engine's global
/// modules under names, where only a public function that is global is found. Of two functions of one key
/// in a module the later stands. It takes no memory. Ports the search of upstream's `resolve_fn`.
pub fn find_function<'m, H>(
    key: FnKey<'_>,
    lib: &'m [Shared<Module<H>>],
    global_modules: &'m [Shared<Module<H>>],
    imports: &'m [Import<H>],
    global_sub_modules: &'m [Shared<Module<H>>],
) -> Option<&'m ModuleFn<H>>
    ensures { option_copied result ≡ found_in (function_key_of key.entry) lib.now global_modules.now imports.now
        global_sub_modules.now }
{
    match find_in_modules(lib, key) {
        Some(function) => Some(function),
        None => match find_in_modules(global_modules, key) {
            Some(function) => Some(function),
            None => match find_in_imports(imports, key) {
                Some(function) => Some(function),
                None => find_in_named(global_sub_modules, key),
            },
        },
    }
}
