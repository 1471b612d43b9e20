//! What a chain is given at once: one link alone asks for nothing, or for a literal.

ghost use Rattle.std.specs.Prelude.{◌≡◌, OnOk, IfErr, IfSome, Some, None, [], true, false};
ghost use Rattle.rhai_tree.specs.declared.expr.Expr.{out-Expr};
ghost use Rattle.rhai_errors.specs.Errors.{is_out_of_memory};
ghost use Rattle.rhai_machine.specs.language.Links.{link_of as link_in};
ghost use Rattle.rhai_links.specs.Ready.{at_once, IsReady};
ghost use Rattle.rhai_context.specs.Ends.{error_in};
ghost use Rattle.rhai_links.specs.Given.{IsGiven};

use crate::arguments::{Ready, ready_at_once, ready_value};
use rhai_call_forms::arguments::keep_argument;
use rhai_context::ends::stop;
use rhai_errors::error::EvalAltResult;
use rhai_few::Few;
use rhai_tree::expr::Expr;
use rhai_values::base::value::{Dynamic, Host};
use std::alloc::Global;

/// Puts what a chain is given at once into a list that is empty.
///
/// # Errors
/// `ErrorOutOfMemory` alone.
fn put_ready_args<H: Host>(
    alloc: Global,
    made: &mut Few<Dynamic<H>>,
    ready: Ready<'_>,
) -> Result<(), EvalAltResult<H>>
    requires ready { IsGiven H ready }
    requires empty { made.old ≡ [] }
    ensures given { OnOk result (IsReady (Some ready.entry) (Some made.new)) }
    ensures refused { IfErr result (λ error. is_out_of_memory error ≡ true) }
{
    match ready {
        Ready::Nothing => Ok(()),
        Ready::Literal(literal) => {
            let value = ready_value(alloc, literal)?;
            keep_argument(made, value, literal.position())?;
            Ok(())
        }
    }
}

/// Tells whether what the links of a chain ask for is to be evaluated. What needs no step goes into the list,
/// which is empty before. None where there is no memory for it: then the run stops.
///
/// # Errors
/// `ErrorOutOfMemory` alone. It is left in `place`.
pub fn take_ready_args<H: Host>(
    alloc: Global,
    made: &mut Few<Dynamic<H>>,
    place: &mut Option<EvalAltResult<H>>,
    chain: &Expr,
) -> Option<bool>
    requires { made.old ≡ [] }
    ensures given { IfSome result (λ asks. asks ≡ false →
        at_once (link_in (out-Expr chain.now)) ≡ Some made.new) }
    ensures asks { IfSome result (λ asks. asks ≡ true → (made.new ≡ [])
        × (at_once {H = H} (link_in (out-Expr chain.now)) ≡ None)) }
    ensures refused { result ≡ None → is_out_of_memory (error_in place.new) ≡ true }
{
    match ready_at_once::<H>(chain) {
        Some(ready) => match put_ready_args(alloc, made, ready) {
            Ok(()) => Some(false),
            Err(error) => {
                stop(place, error);
                None
            }
        },
        None => Some(true),
    }
}
