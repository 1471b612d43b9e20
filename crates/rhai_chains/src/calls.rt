//! What stands around the call of a method in a walk: what it is called by, and how the part that it was
//! called on goes back.

ghost use Rattle.std.specs.Prelude.{◌≡◌, None, IfSome, length, true};
ghost use Rattle.rhai_values.specs.Layers.{layer_of};
ghost use Rattle.rhai_spots.specs.Parts.{IsPart, part_of};
ghost use Rattle.rhai_errors.specs.Errors.{is_out_of_memory};
ghost use Rattle.rhai_machine.specs.language.Links.{first_position as first_position_in};
ghost use Rattle.rhai_calls.specs.Targets.{ComesBack};
ghost use Rattle.rhai_context.specs.Ends.{came_changed, error_in};
ghost use Rattle.rhai_spots.specs.declared.part.Part.TheVariants as part;

use rhai_context::ends::fail;
use rhai_errors::error::EvalAltResult;
use rhai_places::part::read_part;
use rhai_places::put::put_part;
use rhai_spots::spot::Spot;
use rhai_tree::expr::{Expr, FnCallExpr};
use rhai_tree::position::Position;
use rhai_values::base::value::{Dynamic, Host};
use std::alloc::Global;

/// Tells at which position the first of some arguments stands.
fn first_position(args: &[Expr]) -> Option<Position>
    ensures { result ≡ first_position_in args.now }
{
    match args {
        [] => None,
        [first, ..] => Some(first.position()),
    }
}

/// Reads the name that a method is called by, where its first argument stands, and how many it asks for.
pub fn asked_by(call: &FnCallExpr) -> (&str, Option<Position>, usize)
    ensures name { result.0.now ≡ call.now.name }
    ensures first { result.1 ≡ first_position_in call.now.args }
    ensures count { result.2 ≡ length call.now.args }
{
    (
        call.name.get().as_str(),
        first_position(call.args.as_slice()),
        call.args.len(),
    )
}

/// Puts a part back into its place where the answer of a method on it tells of a change. The value of the
/// answer stays where it is.
pub fn put_back<H: Host>(
    alloc: Global,
    out: &Dynamic<H>,
    place: &mut Option<EvalAltResult<H>>,
    source: &mut Dynamic<H>,
    at: Spot,
    left: &Dynamic<H>,
    mark: Option<bool>,
    pos: Position,
) -> Option<bool>
    requires { IsPart (layer_of source.old) at }
    ensures { ComesBack H.name_of (part.Of at left.now) source.old pos (came_changed mark out.now place.old)
        (came_changed result out.now place.new) source.new }
{
    match mark {
        Some(true) => match put_part(alloc, source, at, left, pos) {
            Ok(()) => mark,
            Err(error) => fail(place, error),
        },
        Some(false) => mark,
        None => mark,
    }
}

/// Reads a part of a value, for a link behind it.
pub fn read_part_for<H: Host>(
    alloc: Global,
    place: &mut Option<EvalAltResult<H>>,
    source: &Dynamic<H>,
    at: Spot,
    rest: &Expr,
) -> Option<Dynamic<H>>
    requires { IsPart (layer_of source.now) at }
    ensures value { IfSome result (λ part. part ≡ part_of source.now at) }
    ensures memory { result ≡ None → is_out_of_memory (error_in place.new) ≡ true }
{
    match read_part(alloc, source, at) {
        Ok(part) => Some(part),
        Err(_) => {
            fail(place, EvalAltResult::ErrorOutOfMemory(rest.position()));
            None
        }
    }
}
