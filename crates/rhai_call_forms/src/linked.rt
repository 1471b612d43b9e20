//! The functions that pointers are linked to.

ghost use Rattle.std.specs.Prelude.{◌≡◌, ◌+◌, None, IfOk, length, nat_eq};
ghost use Rattle.rhai_values.specs.declared.base.value.FnPtr.{out-FnPtr};
ghost use Rattle.rhai_machine.specs.language.Arguments.{linked, linked_to};
ghost use Rattle.rhai_machine.specs.language.Functions.{in_libraries, key_by};

use rhai_functions::function::Function;
use rhai_functions::key::FnKey;
use rhai_lookups::lists::Lists;
use rhai_tree::Shared;
use rhai_tree::checked::CheckedFn;
use rhai_values::base::value::{EncapsulatedEnviron, FnPtr, FnPtrKind};
use std::alloc::AllocError;

/// Finds the library function of a name with so many parameters.
fn library_function<H: Drop>(
    lists: &mut Lists<H>,
    name: &str,
    arity: usize,
) -> Result<Option<Function<H>>, AllocError>
    ensures found { IfOk result (λ found. found ≡ in_libraries (key_by name.now arity None) lists.old.0) }
    ensures same { lists.new ≡ lists.old }
{
    let key = FnKey {
        name,
        arity,
        this_type: None,
    };
    lists.find_library(&key)
}

/// Shares a checked function and its environment, with owners of their own.
fn share_checked<H: Drop>(
    def: &Shared<CheckedFn>,
    environ: &Option<Shared<EncapsulatedEnviron<H>>>,
) -> Result<Function<H>, AllocError>
    ensures { IfOk result (λ shared. shared ≡ record { def = def.now; environ = environ.now }) }
{
    let environ = match environ {
        Some(environ) => Some(environ.share()?),
        None => None,
    };
    Ok(Function {
        def: def.share()?,
        environ,
    })
}

/// Tells whether so many parameters are the arguments behind the values that a pointer has already. No sum is
/// made, as it need not fit.
fn takes(parameters: usize, curried: usize, args: usize) -> bool
    ensures { result ≡ nat_eq parameters (curried + args) }
{
    if args > parameters {
        return false;
    }
    parameters - args == curried
}

/// Finds the function that a pointer of a kind and a name is linked to.
fn function_by_kind<H: Drop>(
    kind: &FnPtrKind<H>,
    name: &str,
    curried: usize,
    args: usize,
    lists: &mut Lists<H>,
) -> Result<Option<Function<H>>, AllocError>
    ensures found { IfOk result (λ found. found ≡ linked kind.now name.now (curried + args) lists.old.0) }
    ensures same { lists.new ≡ lists.old }
{
    match kind {
        FnPtrKind::Arity(arity) if takes(*arity, curried, args) => library_function(
            lists, name, *arity,
        ),
        FnPtrKind::Script(def, environ) if takes(def.get().def().params.len(), curried, args) => {
            Ok(Some(share_checked(def, environ)?))
        }
        _ => Ok(None),
    }
}

/// Finds the function that a pointer is linked to: the library's of its name, or its own. The function has to
/// take so many arguments behind the values that the pointer has already. It is shared; None for a pointer by
/// its name alone and for a native's. Ports what upstream's `FnPtr::call_raw` does with a pointer that is
/// linked.
pub fn function_linked<H: Drop>(
    pointer: &FnPtr<H>,
    args: usize,
    lists: &mut Lists<H>,
) -> Result<Option<Function<H>>, AllocError>
    ensures found { IfOk result (λ found. found
        ≡ linked_to pointer.now (length (out-FnPtr H pointer.now).curry + args) lists.old.0) }
    ensures same { lists.new ≡ lists.old }
{
    function_by_kind(
        &pointer.kind,
        pointer.name.get().as_str(),
        pointer.curry.len(),
        args,
        lists,
    )
}
