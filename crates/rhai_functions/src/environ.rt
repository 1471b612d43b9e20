//! What a function finds around it, taken from the state of a run.

ghost use Rattle.std.specs.Prelude.{◌≡◌, IfOk};
ghost use Rattle.rhai_values.specs.declared.base.value.EncapsulatedEnviron.{out-EncapsulatedEnviron};

use rhai_state::state::GlobalRuntimeState;
use rhai_values::base::value::EncapsulatedEnviron;
use std::alloc::{AllocError, Global};

/// Builds a function's environment from a state: of its libraries, its imports and its current table of
/// constants. Ports upstream's `EncapsulatedEnviron::from`.
pub fn environ_of<H: Drop>(
    alloc: Global,
    global: &GlobalRuntimeState<H>,
) -> Result<EncapsulatedEnviron<H>, AllocError>
    ensures lib { IfOk result (λ environ. (out-EncapsulatedEnviron H environ).lib ≡ global.now.lib) }
    ensures imports { IfOk result (λ environ. (out-EncapsulatedEnviron H environ).imports
        ≡ global.now.imports) }
    ensures constants { IfOk result (λ environ. (out-EncapsulatedEnviron H environ).constants
        ≡ global.now.constants) }
{
    EncapsulatedEnviron::sharing(
        alloc,
        global.lib.as_slice(),
        global.imports.as_slice(),
        global.constants,
    )
}
