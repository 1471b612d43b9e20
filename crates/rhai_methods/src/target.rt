//! What becomes of a part that a method was called on. Ports what upstream's `make_method_call` does with its
//! `Target` once the method has answered. The contract cites specs/Targets.antt.

ghost use Rattle.std.specs.Prelude.{◌≡◌};
ghost use Rattle.rhai_calls.specs.Targets.{ComesBack};

use rhai_errors::error::EvalAltResult;
use rhai_places::target::Target;
use rhai_steps::values::let_go;
use rhai_tree::position::Position;
use rhai_values::base::value::{Dynamic, Host};
use std::alloc::Global;

/// Puts a part back into its place where a method may have changed it. Otherwise the place of a part stays as
/// it is. The answer is the method's, or why the part does not go back. What the part's value has become is
/// left in the target.
///
/// # Errors
/// `ErrorMismatchDataType` at the method, where a part has become of another type than the one that was read,
/// and its place stays; and that of the method.
pub fn put_back<H: Host>(
    alloc: Global,
    target: &mut Target<'_, H>,
    answer: Result<(Dynamic<H>, bool), EvalAltResult<H>>,
    pos: Position,
) -> Result<(Dynamic<H>, bool), EvalAltResult<H>>
    ensures same_reference { target.new.at.ghost_name ≡ target.old.at.ghost_name }
    ensures part { target.new.part ≡ target.old.part }
    ensures comes { ComesBack H.name_of target.old.part target.old.at.now pos answer result
        target.new.at.now }
{
    match answer {
        Ok((value, true)) => match target.propagate_changed_value(alloc, pos) {
            Ok(()) => Ok((value, true)),
            Err(error) => {
                let_go(value);
                Err(error)
            }
        },
        Ok((value, false)) => Ok((value, false)),
        Err(error) => Err(error),
    }
}
