//! A function of a script as a call has it, and where a call looks for it.

ghost use Rattle.std.specs.Prelude.{◌≡◌, IfOk};
ghost use Rattle.std.specs.Option.{option_map};
ghost use Rattle.rhai_functions.specs.Called.{function_of};
ghost use Rattle.rhai_functions.specs.Functions.{found_in};
ghost use Rattle.rhai_functions.specs.Keys.{function_key_of};

use crate::key::FnKey;
use crate::lookup::find_function;
use rhai_state::session::Offered;
use rhai_tree::Shared;
use rhai_tree::checked::CheckedFn;
use rhai_values::base::value::{EncapsulatedEnviron, Import, Module, ModuleFn};
use std::alloc::AllocError;

/// A function of a script that a call has found, with the environment that it runs in, if it has one.
#[derive(Drop)]
pub struct Function<H> {
    pub def: Shared<CheckedFn>,
    pub environ: Option<Shared<EncapsulatedEnviron<H>>>,
}

/// Shares a module's function, with an owner of its own, so that it can run while its module may change.
/// It copies nothing, and fails only where a function has too many owners to count.
pub fn share_function<H: Drop>(function: &ModuleFn<H>) -> Result<Function<H>, AllocError>
    ensures { IfOk result (λ shared. shared ≡ function_of function.now) }
{
    let environ = match &function.environ {
        Some(environ) => Some(environ.share()?),
        None => None,
    };
    Ok(Function {
        def: function.def.share()?,
        environ,
    })
}

/// Finds the function of a key, where a run looks for it. It looks in the libraries and imports of its
/// state, and in the modules of its engine. The function is shared, as `share_function` does it.
pub fn called_function<H: Drop>(
    key: FnKey<'_>,
    offered: &Offered<'_, H>,
    lib: &[Shared<Module<H>>],
    imports: &[Import<H>],
) -> Result<Option<Function<H>>, AllocError>
    ensures { IfOk result (λ found. found ≡ option_map function_of (found_in (function_key_of key.entry) lib.now
        offered.now.global_modules.now imports.now offered.now.global_sub_modules.now.1)) }
{
    let found = find_function(
        key,
        lib,
        offered.global_modules,
        imports,
        offered.global_sub_modules.values(),
    );
    match found {
        Some(function) => Ok(Some(share_function(function)?)),
        None => Ok(None),
    }
}
