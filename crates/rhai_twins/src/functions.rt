//! Functions of scripts.

ghost use Rattle.std.specs.Prelude.{◌≡◌, is_ok, length, map, IfOk, OnOk};
ghost use Rattle.std.specs.Option.{option_copied};
ghost use Rattle.rhai_values.specs.declared.base.value.EncapsulatedEnviron.{out-EncapsulatedEnviron};
ghost use Rattle.rhai_state.specs.Scope.{entries_of};

use rhai_functions::entering::push_parameters;
use rhai_functions::environ::environ_of;
use rhai_functions::function::{Function, called_function, share_function};
use rhai_functions::key::{FnKey, has_key};
use rhai_functions::lookup::{find_function, find_in_module, find_in_modules};
use rhai_functions::metadata::{ScriptFnMetadata, metadata_of};
use rhai_functions::named::arity_named;
use rhai_functions::words::has_own_meaning;
use rhai_state::scope::Scope;
use rhai_state::session::Offered;
use rhai_state::state::GlobalRuntimeState;
use rhai_tree::function::ScriptFuncDef;
use rhai_tree::{Shared, Text};
use rhai_values::base::value::{Dynamic, EncapsulatedEnviron, Host, Import, Module, ModuleFn};
use std::alloc::{AllocError, Global};

/// Shows that two calls of `environ::environ_of` build environments of equal libraries, imports and
/// constants.
pub fn environ<H: Drop>(
    alloc: Global,
    global: &GlobalRuntimeState<H>,
) -> (
    Result<EncapsulatedEnviron<H>, AllocError>,
    Result<EncapsulatedEnviron<H>, AllocError>,
)
    ensures lib { IfOk result.0 (λ x. IfOk result.1
        (λ y. (out-EncapsulatedEnviron H x).lib ≡ (out-EncapsulatedEnviron H y).lib)) }
    ensures imports { IfOk result.0 (λ x. IfOk result.1
        (λ y. (out-EncapsulatedEnviron H x).imports ≡ (out-EncapsulatedEnviron H y).imports)) }
    ensures constants { IfOk result.0 (λ x. IfOk result.1
        (λ y. (out-EncapsulatedEnviron H x).constants ≡ (out-EncapsulatedEnviron H y).constants)) }
{
    (environ_of(alloc, global), environ_of(alloc, global))
}

/// Shows that two calls of `key::has_key` answer alike.
pub fn key(def: &ScriptFuncDef, key: FnKey<'_>) -> (bool, bool)
    ensures { result.0 ≡ result.1 }
{
    (has_key(def, key), has_key(def, key))
}

/// Shows that two calls of `lookup::find_in_module` find equal functions.
pub fn in_module<'m, H>(
    within: &'m Module<H>,
    key: FnKey<'_>,
) -> (Option<&'m ModuleFn<H>>, Option<&'m ModuleFn<H>>)
    ensures { option_copied result.0 ≡ option_copied result.1 }
{
    (find_in_module(within, key), find_in_module(within, key))
}

/// Shows that two calls of `lookup::find_in_modules` find equal functions.
pub fn in_modules<'m, H>(
    modules: &'m [Shared<Module<H>>],
    key: FnKey<'_>,
) -> (Option<&'m ModuleFn<H>>, Option<&'m ModuleFn<H>>)
    ensures { option_copied result.0 ≡ option_copied result.1 }
{
    (find_in_modules(modules, key), find_in_modules(modules, key))
}

/// Shows that two calls of `lookup::find_function` find equal functions.
pub fn function<'m, H>(
    key: FnKey<'_>,
    lib: &'m [Shared<Module<H>>],
    global_modules: &'m [Shared<Module<H>>],
    imports: &'m [Import<H>],
    global_sub_modules: &'m [Shared<Module<H>>],
) -> (Option<&'m ModuleFn<H>>, Option<&'m ModuleFn<H>>)
    ensures { option_copied result.0 ≡ option_copied result.1 }
{
    (
        find_function(key, lib, global_modules, imports, global_sub_modules),
        find_function(key, lib, global_modules, imports, global_sub_modules),
    )
}

/// Shows that two calls of `metadata::metadata_of` tell a function's name, parameters, access and type of
/// `this` alike.
pub fn metadata<'m>(
    alloc: Global,
    def: &'m ScriptFuncDef,
) -> (
    Result<ScriptFnMetadata<'m>, AllocError>,
    Result<ScriptFnMetadata<'m>, AllocError>,
)
    ensures name { IfOk result.0 (λ x. IfOk result.1 (λ y. x.name.now ≡ y.name.now)) }
    ensures params { IfOk result.0 (λ x. IfOk result.1 (λ y. map (λ p. p.now) x.params.items ≡ map
        (λ p. p.now) y.params.items)) }
    ensures access { IfOk result.0 (λ x. IfOk result.1 (λ y. x.access ≡ y.access)) }
    ensures this_type { IfOk result.0 (λ x. IfOk result.1
        (λ y. option_copied x.this_type ≡ option_copied y.this_type)) }
{
    (metadata_of(alloc, def), metadata_of(alloc, def))
}

/// Shows that `ScriptFnMetadata::try_clone` copies name, parameters, access and type of `this` alike,
/// from equal originals.
pub fn metadata_copy<'m>(
    one: &ScriptFnMetadata<'m>,
    other: &ScriptFnMetadata<'m>,
) -> (
    Result<ScriptFnMetadata<'m>, AllocError>,
    Result<ScriptFnMetadata<'m>, AllocError>,
)
    requires { one.now ≡ other.now }
    ensures name { IfOk result.0 (λ x. IfOk result.1 (λ y. x.name.now ≡ y.name.now)) }
    ensures params { IfOk result.0 (λ x. IfOk result.1 (λ y. map (λ p. p.now) x.params.items ≡ map
        (λ p. p.now) y.params.items)) }
    ensures access { IfOk result.0 (λ x. IfOk result.1 (λ y. x.access ≡ y.access)) }
    ensures this_type { IfOk result.0 (λ x. IfOk result.1
        (λ y. option_copied x.this_type ≡ option_copied y.this_type)) }
{
    (one.try_clone(), other.try_clone())
}

/// Shows that two calls of `named::arity_named` count alike.
pub fn arity<H>(lib: &[Shared<Module<H>>], name: &str) -> (Option<usize>, Option<usize>)
    ensures { result.0 ≡ result.1 }
{
    (arity_named(lib, name), arity_named(lib, name))
}

/// Shows that two calls of `words::has_own_meaning` answer alike.
pub fn word(name: &str) -> (bool, bool)
    ensures { result.0 ≡ result.1 }
{
    (has_own_meaning(name), has_own_meaning(name))
}

/// Shows that `entering::push_parameters` leaves equal scopes and arguments, from equal scopes and
/// arguments.
pub fn parameters<H: Host>(
    scope: &mut Scope<H>,
    also_scope: &mut Scope<H>,
    params: &[Shared<Text>],
    args: &mut [Dynamic<H>],
    also_args: &mut [Dynamic<H>],
) -> (Result<(), AllocError>, Result<(), AllocError>)
    requires scope { scope.old ≡ also_scope.old }
    requires args { args.old ≡ also_args.old }
    ensures scope { OnOk result.0 (OnOk result.1 (entries_of scope.new ≡ entries_of also_scope.new)) }
    ensures args { OnOk result.0 (OnOk result.1 (args.new ≡ also_args.new)) }
{
    (
        push_parameters(scope, params, args),
        push_parameters(also_scope, params, also_args),
    )
}

/// Shows that two calls of `function::share_function` share equal functions.
pub fn share<H: Drop>(
    function: &ModuleFn<H>,
) -> (
    Result<Function<H>, AllocError>,
    Result<Function<H>, AllocError>,
)
    ensures { is_ok result.0 ≡ is_ok result.1 → result.0 ≡ result.1 }
{
    (share_function(function), share_function(function))
}

/// Shows that two calls of `function::called_function` find equal functions.
pub fn called<H: Drop>(
    key: FnKey<'_>,
    offered: &Offered<'_, H>,
    lib: &[Shared<Module<H>>],
    imports: &[Import<H>],
) -> (
    Result<Option<Function<H>>, AllocError>,
    Result<Option<Function<H>>, AllocError>,
)
    ensures { is_ok result.0 ≡ is_ok result.1 → result.0 ≡ result.1 }
{
    (
        called_function(key, offered, lib, imports),
        called_function(key, offered, lib, imports),
    )
}
