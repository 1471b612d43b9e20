//! The state of a run.

ghost use Rattle.std.specs.Prelude.{◌≡◌, is_ok, string_bytes};

use rhai_state::limits;
use rhai_state::scope::Scope;
use rhai_state::state::GlobalRuntimeState;
use rhai_tree::{Items, Shared};
use rhai_values::base::value::{Dynamic, Host, Module};
use std::alloc::{AllocError, Global};
use std::num::NonZeroUsize;

/// Shows that two calls of `limits::operation_limit` answer one limit.
pub fn operation_limit(max_operations: u64) -> (u64, u64)
    ensures { result.0 ≡ result.1 }
{
    (
        limits::operation_limit(max_operations),
        limits::operation_limit(max_operations),
    )
}

/// Shows that two calls of `GlobalRuntimeState::new` create equal states.
pub fn new<H: Drop>(
    alloc: Global,
) -> (
    Result<GlobalRuntimeState<H>, AllocError>,
    Result<GlobalRuntimeState<H>, AllocError>,
)
    ensures { is_ok result.0 ≡ is_ok result.1 → result.0 ≡ result.1 }
{
    (
        GlobalRuntimeState::new(alloc),
        GlobalRuntimeState::new(alloc),
    )
}

/// Shows that `GlobalRuntimeState::push_import` leaves equal states, from equal states, names and
/// modules.
pub fn push_import<H: Drop>(
    one: &mut GlobalRuntimeState<H>,
    other: &mut GlobalRuntimeState<H>,
    name: String,
    also_name: String,
    of: Shared<Module<H>>,
    also_of: Shared<Module<H>>,
) -> (Result<(), AllocError>, Result<(), AllocError>)
    requires same { one.old ≡ other.old }
    requires name { string_bytes name ≡ string_bytes also_name }
    requires of { of ≡ also_of }
    ensures { is_ok result.0 ≡ is_ok result.1 → one.new ≡ other.new }
{
    (
        one.push_import(name, of),
        other.push_import(also_name, also_of),
    )
}

/// Shows that `GlobalRuntimeState::truncate_imports` leaves equal states equal.
pub fn truncate_imports<H: Drop>(
    one: &mut GlobalRuntimeState<H>,
    other: &mut GlobalRuntimeState<H>,
    len: usize,
)
    requires { one.old ≡ other.old }
    ensures { one.new ≡ other.new }
{
    one.truncate_imports(len);
    other.truncate_imports(len);
}

/// Shows that `GlobalRuntimeState::find_import` finds one index in equal states.
pub fn find_import<H>(
    one: &GlobalRuntimeState<H>,
    other: &GlobalRuntimeState<H>,
    name: &str,
) -> (Option<usize>, Option<usize>)
    requires { one.now ≡ other.now }
    ensures { result.0 ≡ result.1 }
{
    (one.find_import(name), other.find_import(name))
}

/// Shows that `GlobalRuntimeState::offset_in_use` answers equal offsets for equal states.
pub fn offset_in_use<H>(
    one: &GlobalRuntimeState<H>,
    other: &GlobalRuntimeState<H>,
    offset: Option<NonZeroUsize>,
) -> (Option<NonZeroUsize>, Option<NonZeroUsize>)
    requires { one.now ≡ other.now }
    ensures { result.0 ≡ result.1 }
{
    (one.offset_in_use(offset), other.offset_in_use(offset))
}

/// Shows that `GlobalRuntimeState::fits` answers alike for equal states and scopes.
pub fn fits<H: Host>(
    one: &GlobalRuntimeState<H>,
    other: &GlobalRuntimeState<H>,
    scope: &Scope<H>,
    also_scope: &Scope<H>,
) -> (bool, bool)
    requires state { one.now ≡ other.now }
    requires scope { scope.now ≡ also_scope.now }
    ensures { result.0 ≡ result.1 }
{
    (one.fits(scope), other.fits(also_scope))
}
