//! Values.

ghost use Rattle.std.specs.Prelude.{◌≡◌, is_ok};

use rhai_tree::literal::Literal;
use rhai_tree::{Items, Shared, Text};
use rhai_values::base::hashable::literal_equals;
use rhai_values::base::literal::literal_value;
use rhai_values::base::value::{
    AccessMode, Dynamic, EncapsulatedEnviron, FnPtr, FnPtrKind, Host, Import, Module, ModuleTable,
    Union,
};
use rhai_values::cells::CellStore;
use std::alloc::{AllocError, Global};

/// What a pointer is taken apart into.
type Parts<H> = (Shared<Text>, Items<Dynamic<H>>, FnPtrKind<H>);

/// Shows that `Dynamic::new` builds equal values of equal content.
pub fn value<H>(value: Union<H>, also_value: Union<H>) -> (Dynamic<H>, Dynamic<H>)
    requires { value ≡ also_value }
    ensures { result.0 ≡ result.1 }
{
    (Dynamic::new(value), Dynamic::new(also_value))
}

/// Shows that `Dynamic::try_clone` copies equal values alike.
pub fn try_clone<H: Host>(
    one: &Dynamic<H>,
    other: &Dynamic<H>,
    alloc: Global,
) -> (
    Result<Dynamic<H>, AllocError>,
    Result<Dynamic<H>, AllocError>,
)
    requires { one.now ≡ other.now }
    ensures { is_ok result.0 ≡ is_ok result.1 → result.0 ≡ result.1 }
{
    (one.try_clone(alloc), other.try_clone(alloc))
}

/// Shows that `Dynamic::access_mode` reads equal modes from equal values.
pub fn access_mode<H>(one: &Dynamic<H>, other: &Dynamic<H>) -> (AccessMode, AccessMode)
    requires { one.now ≡ other.now }
    ensures { result.0 ≡ result.1 }
{
    (one.access_mode(), other.access_mode())
}

/// Shows that `Dynamic::set_access_mode` leaves equal values equal.
pub fn set_access_mode<H: Drop>(one: &mut Dynamic<H>, other: &mut Dynamic<H>, mode: AccessMode)
    requires { one.old ≡ other.old }
    ensures { one.new ≡ other.new }
{
    one.set_access_mode(mode);
    other.set_access_mode(mode);
}

/// Shows that `Dynamic::type_name` names the types of equal values alike.
pub fn type_name<'a, H: Host>(
    one: &'a Dynamic<H>,
    other: &'a Dynamic<H>,
    cells: &'a CellStore<H>,
) -> (&'a str, &'a str)
    requires { one.now ≡ other.now }
    ensures { result.0.now ≡ result.1.now }
{
    (one.type_name(cells), other.type_name(cells))
}

/// Shows that `Dynamic::own_type_name` names the types of equal values alike.
pub fn own_type_name<'a, H: Host>(one: &'a Dynamic<H>, other: &'a Dynamic<H>) -> (&'a str, &'a str)
    requires { one.now ≡ other.now }
    ensures { result.0.now ≡ result.1.now }
{
    (one.own_type_name(), other.own_type_name())
}

/// Shows that `Dynamic::is_hashable` answers alike for equal values.
pub fn is_hashable<H>(one: &Dynamic<H>, other: &Dynamic<H>) -> (bool, bool)
    requires { one.now ≡ other.now }
    ensures { result.0 ≡ result.1 }
{
    (one.is_hashable(), other.is_hashable())
}

/// Shows that two calls of `hashable::literal_equals` answer alike.
pub fn equals<H>(literal: &Literal, value: &Dynamic<H>) -> (bool, bool)
    ensures { result.0 ≡ result.1 }
{
    (
        literal_equals(literal, value),
        literal_equals(literal, value),
    )
}

/// Shows that two calls of `literal::literal_value` build equal values.
pub fn constant<H: Drop>(
    alloc: Global,
    literal: &Literal,
) -> (
    Result<Dynamic<H>, AllocError>,
    Result<Dynamic<H>, AllocError>,
)
    ensures { is_ok result.0 ≡ is_ok result.1 → result.0 ≡ result.1 }
{
    (literal_value(alloc, literal), literal_value(alloc, literal))
}

/// Shows that two calls of `EncapsulatedEnviron::sharing` build equal environments.
pub fn sharing<H: Drop>(
    alloc: Global,
    lib: &[Shared<Module<H>>],
    imports: &[Import<H>],
    constants: usize,
) -> (
    Result<EncapsulatedEnviron<H>, AllocError>,
    Result<EncapsulatedEnviron<H>, AllocError>,
)
    ensures { is_ok result.0 ≡ is_ok result.1 → result.0 ≡ result.1 }
{
    (
        EncapsulatedEnviron::sharing(alloc, lib, imports, constants),
        EncapsulatedEnviron::sharing(alloc, lib, imports, constants),
    )
}

/// Shows that `EncapsulatedEnviron::try_clone` copies equal environments alike.
pub fn environ<H: Drop>(
    one: &EncapsulatedEnviron<H>,
    other: &EncapsulatedEnviron<H>,
    alloc: Global,
) -> (
    Result<EncapsulatedEnviron<H>, AllocError>,
    Result<EncapsulatedEnviron<H>, AllocError>,
)
    requires { one.now ≡ other.now }
    ensures { is_ok result.0 ≡ is_ok result.1 → result.0 ≡ result.1 }
{
    (one.try_clone(alloc), other.try_clone(alloc))
}

/// Shows that `FnPtr::into_parts` hands out equal parts of equal pointers.
pub fn into_parts<H>(one: FnPtr<H>, other: FnPtr<H>) -> (Parts<H>, Parts<H>)
    requires { one ≡ other }
    ensures { result.0 ≡ result.1 }
{
    (one.into_parts(), other.into_parts())
}

/// Shows that two calls of `Module::new` create equal modules.
pub fn new_module<H>(alloc: Global) -> (Module<H>, Module<H>)
    ensures { result.0 ≡ result.1 }
{
    (Module::new(alloc), Module::new(alloc))
}

/// Shows that two calls of `ModuleTable::new` create equal tables.
pub fn module_table<H>(alloc: Global) -> (ModuleTable<H>, ModuleTable<H>)
    ensures { result.0 ≡ result.1 }
{
    (ModuleTable::new(alloc), ModuleTable::new(alloc))
}

/// Shows that `Host::try_clone` copies equal values alike, whatever the host.
pub fn host_copy<H: Host>(
    one: &H,
    other: &H,
    alloc: Global,
) -> (Result<H, AllocError>, Result<H, AllocError>)
    requires { one.now ≡ other.now }
    ensures { is_ok result.0 ≡ is_ok result.1 → result.0 ≡ result.1 }
{
    (one.try_clone(alloc), other.try_clone(alloc))
}

/// Shows that `Host::type_name` names the types of equal values alike, whatever the host.
pub fn host_type_name<'a, H: Host>(one: &'a H, other: &'a H) -> (&'a str, &'a str)
    requires { one.now ≡ other.now }
    ensures { result.0.now ≡ result.1.now }
{
    (one.type_name(), other.type_name())
}
