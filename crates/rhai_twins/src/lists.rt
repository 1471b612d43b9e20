//! The libraries and imports of a run.

ghost use Rattle.std.specs.Prelude.{◌≡◌, is_ok, IfOk, IfSome};
ghost use Rattle.rhai_lookups.specs.Levels.{CachesFit, below_of, depth_of, is_on};

use rhai_functions::function::Function;
use rhai_functions::key::FnKey;
use rhai_lookups::cache::Kept;
use rhai_lookups::caches::Caches;
use rhai_lookups::lists::{Lists, Mark, has_function};
use rhai_state::session::Offered;
use rhai_tree::checked::CheckedFn;
use rhai_tree::{Items, Shared};
use rhai_values::base::value::{Import, Module};
use std::alloc::AllocError;

/// Shows that `Lists::from_parts` makes equal lists of equal libraries and imports, whatever the caches keep,
/// and leaves equal caches, from equal ones.
pub fn from_parts<H: Drop>(
    libraries: (Items<Shared<Module<H>>>, Items<Shared<Module<H>>>),
    imports: (Items<Import<H>>, Items<Import<H>>),
    one: &mut Caches<H>,
    other: &mut Caches<H>,
) -> (Lists<H>, Lists<H>)
    requires lib { libraries.0 ≡ libraries.1 }
    requires imports { imports.0 ≡ imports.1 }
    requires one { CachesFit (libraries.0, imports.0) one.old }
    requires other { CachesFit (libraries.1, imports.1) other.old }
    ensures lists { result.0 ≡ result.1 }
    ensures caches { one.old ≡ other.old → one.new ≡ other.new }
{
    (
        Lists::from_parts(libraries.0, imports.0, one),
        Lists::from_parts(libraries.1, imports.1, other),
    )
}

/// Shows that `Lists::into_parts` gives equal libraries and imports of equal lists, and leaves caches that are
/// equal below the newest, and both on or both off.
pub fn into_parts<H: Drop>(
    lists: (Lists<H>, Lists<H>),
    one: &mut Caches<H>,
    other: &mut Caches<H>,
) -> (
    (Items<Shared<Module<H>>>, Items<Import<H>>),
    (Items<Shared<Module<H>>>, Items<Import<H>>),
)
    requires lists { lists.0 ≡ lists.1 }
    requires caches { one.old ≡ other.old }
    ensures lists { result.0 ≡ result.1 }
    ensures below { below_of one.new ≡ below_of other.new }
    ensures on { is_on one.new ≡ is_on other.new }
{
    (lists.0.into_parts(one), lists.1.into_parts(other))
}

/// Shows that two calls of `Lists::lib` lend equal libraries.
pub fn lib<'l, H: Drop>(
    one: &'l Lists<H>,
    other: &'l Lists<H>,
) -> (&'l [Shared<Module<H>>], &'l [Shared<Module<H>>])
    requires { one.now ≡ other.now }
    ensures { result.0.now ≡ result.1.now }
{
    (one.lib(), other.lib())
}

/// Shows that two calls of `Lists::imports` lend equal imports.
pub fn imports<'l, H: Drop>(
    one: &'l Lists<H>,
    other: &'l Lists<H>,
) -> (&'l [Import<H>], &'l [Import<H>])
    requires { one.now ≡ other.now }
    ensures { result.0.now ≡ result.1.now }
{
    (one.imports(), other.imports())
}

/// Shows that `Lists::push_import` leaves equal lists, from equal lists and imports.
pub fn push_import<H: Drop>(
    one: &mut Lists<H>,
    other: &mut Lists<H>,
    added: (Import<H>, Import<H>),
) -> (Result<(), AllocError>, Result<(), AllocError>)
    requires lists { one.old ≡ other.old }
    requires added { added.0 ≡ added.1 }
    ensures { is_ok result.0 ≡ is_ok result.1 → one.new ≡ other.new }
{
    (one.push_import(added.0), other.push_import(added.1))
}

/// Shows that `Lists::push_lib` leaves equal lists, from equal lists and libraries.
pub fn push_lib<H: Drop>(
    one: &mut Lists<H>,
    other: &mut Lists<H>,
    added: (Shared<Module<H>>, Shared<Module<H>>),
) -> (Result<(), AllocError>, Result<(), AllocError>)
    requires lists { one.old ≡ other.old }
    requires added { added.0 ≡ added.1 }
    ensures { is_ok result.0 ≡ is_ok result.1 → one.new ≡ other.new }
{
    (one.push_lib(added.0), other.push_lib(added.1))
}

/// Shows that `Lists::truncate` leaves equal lists equal.
pub fn truncate<H: Drop>(one: &mut Lists<H>, other: &mut Lists<H>, libs: usize, imports: usize)
    requires { one.old ≡ other.old }
    ensures { one.new ≡ other.new }
{
    one.truncate(libs, imports);
    other.truncate(libs, imports);
}

/// Shows that `Lists::truncate_imports` leaves equal lists equal.
pub fn truncate_imports<H: Drop>(one: &mut Lists<H>, other: &mut Lists<H>, imports: usize)
    requires { one.old ≡ other.old }
    ensures { one.new ≡ other.new }
{
    one.truncate_imports(imports);
    other.truncate_imports(imports);
}

/// Shows that `Lists::begin` leaves equal lists equal.
pub fn begin<H: Drop>(one: &mut Lists<H>, other: &mut Lists<H>)
    requires { one.old ≡ other.old }
    ensures { one.new ≡ other.new }
{
    one.begin();
    other.begin();
}

/// Shows that `Lists::begin_list` leaves equal lists equal.
pub fn begin_list<H: Drop>(one: &mut Lists<H>, other: &mut Lists<H>, restores: bool) -> (Mark, Mark)
    requires { one.old ≡ other.old }
    ensures { one.new ≡ other.new }
{
    (one.begin_list(restores), other.begin_list(restores))
}

/// Shows that `Lists::end` leaves equal lists equal.
pub fn end<H: Drop>(one: &mut Lists<H>, other: &mut Lists<H>, mark: Mark)
    requires { one.old ≡ other.old }
    ensures { one.new ≡ other.new }
{
    one.end(mark);
    other.end(mark);
}

/// Shows that `Lists::begin_call` leaves equal lists equal.
pub fn begin_call<H: Drop>(
    one: &mut Lists<H>,
    other: &mut Lists<H>,
) -> (Result<(), AllocError>, Result<(), AllocError>)
    requires { one.old ≡ other.old }
    ensures { one.new ≡ other.new }
{
    (one.begin_call(), other.begin_call())
}

/// Shows that `Lists::end_call` leaves equal lists equal.
pub fn end_call<H: Drop>(one: &mut Lists<H>, other: &mut Lists<H>)
    requires { one.old ≡ other.old }
    ensures { one.new ≡ other.new }
{
    one.end_call();
    other.end_call();
}

/// Shows that `Lists::look_up` tells of equal lists alike, and leaves them equal.
pub fn look_up<H: Drop>(
    one: &mut Lists<H>,
    other: &mut Lists<H>,
    key: &FnKey<'_>,
) -> (Result<Kept<H>, AllocError>, Result<Kept<H>, AllocError>)
    requires { one.old ≡ other.old }
    ensures kept { IfOk result.0 (λ x. IfOk result.1 (λ y. x ≡ y)) }
    ensures lists { one.new ≡ other.new }
{
    (one.look_up(key), other.look_up(key))
}

/// Shows that `Lists::find` finds equal functions in equal lists, and leaves them equal.
pub fn find<H: Drop>(
    one: &mut Lists<H>,
    other: &mut Lists<H>,
    key: &FnKey<'_>,
    offered: &Offered<'_, H>,
) -> (
    Result<Option<Function<H>>, AllocError>,
    Result<Option<Function<H>>, AllocError>,
)
    requires { one.old ≡ other.old }
    ensures found { IfOk result.0 (λ x. IfOk result.1 (λ y. x ≡ y)) }
    ensures lists { one.new ≡ other.new }
{
    (one.find(key, offered), other.find(key, offered))
}

/// Shows that `Lists::find_library` finds equal functions in equal lists, and leaves them equal.
pub fn find_library<H: Drop>(
    one: &mut Lists<H>,
    other: &mut Lists<H>,
    key: &FnKey<'_>,
) -> (
    Result<Option<Function<H>>, AllocError>,
    Result<Option<Function<H>>, AllocError>,
)
    requires { one.old ≡ other.old }
    ensures found { IfOk result.0 (λ x. IfOk result.1 (λ y. x ≡ y)) }
    ensures lists { one.new ≡ other.new }
{
    (one.find_library(key), other.find_library(key))
}

/// Shows that `Lists::find_plain` finds equal functions in equal lists, and leaves them equal.
pub fn find_plain<H: Drop>(
    one: &mut Lists<H>,
    other: &mut Lists<H>,
    key: &FnKey<'_>,
) -> (Option<Shared<CheckedFn>>, Option<Shared<CheckedFn>>)
    requires { one.old ≡ other.old }
    ensures found { IfSome result.0 (λ x. IfSome result.1 (λ y. x ≡ y)) }
    ensures lists { one.new ≡ other.new }
{
    (one.find_plain(key), other.find_plain(key))
}

/// Shows that `Lists::has` answers alike for equal lists, and leaves them equal.
pub fn has<H: Drop>(
    one: &mut Lists<H>,
    other: &mut Lists<H>,
    key: &FnKey<'_>,
    offered: &Offered<'_, H>,
) -> (bool, bool)
    requires { one.old ≡ other.old }
    ensures found { result.0 ≡ result.1 }
    ensures lists { one.new ≡ other.new }
{
    (one.has(key, offered), other.has(key, offered))
}

/// Shows that two calls of `lists::has_function` answer alike, whatever the caches keep. From equal caches they
/// leave as many, equal below the newest, and both on or both off.
pub fn function<H: Drop>(
    key: &FnKey<'_>,
    offered: &Offered<'_, H>,
    lib: &Items<Shared<Module<H>>>,
    imports: &Items<Import<H>>,
    one: &mut Caches<H>,
    other: &mut Caches<H>,
) -> (bool, bool)
    requires one { CachesFit (lib.now, imports.now) one.old }
    requires other { CachesFit (lib.now, imports.now) other.old }
    ensures found { result.0 ≡ result.1 }
    ensures below { one.old ≡ other.old → below_of one.new ≡ below_of other.new }
    ensures depth { one.old ≡ other.old → depth_of one.new ≡ depth_of other.new }
    ensures on { one.old ≡ other.old → is_on one.new ≡ is_on other.new }
{
    (
        has_function(key, offered, lib, imports, one),
        has_function(key, offered, lib, imports, other),
    )
}
