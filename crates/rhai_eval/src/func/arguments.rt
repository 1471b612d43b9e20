//! The places of the arguments of a call that is over.

ghost use Rattle.std.specs.Prelude.{◌≡◌, ◌<◌, false, length, replicate, slice_set, true};
ghost use Rattle.rhai_machine.specs.language.Values.{unit_value as unit};

use rhai_steps::values::{let_go, unit_value};
use rhai_values::base::value::{Dynamic, Host};
use std::mem::replace;

/// Empties a place: `()` stands there.
fn empty_at<H: Host>(places: &mut [Dynamic<H>], at: usize)
    requires { at < length places.old }
    ensures empty { places.new ≡ slice_set places.old at unit }
    ensures length { length places.new ≡ length places.old }
{
    let_go(replace(&mut places[at], unit_value()));
}

/// Empties places: `()` stands in each.
pub(crate) fn empty<H: Host>(places: &mut [Dynamic<H>])
    ensures { places.new ≡ replicate (length places.old) unit }
{
    let mut at = 0;
    'each_place: while at < places.len() {
        empty_at(places, at);
        at += 1;
    }
}

/// Empties the places of the arguments of a call that is over. That of a first one that was lent stays as it
/// is.
pub(crate) fn empty_all<H: Host>(first: &mut Dynamic<H>, rest: &mut [Dynamic<H>], is_lent: bool)
    ensures lent { is_lent ≡ true → first.new ≡ first.old }
    ensures taken { is_lent ≡ false → first.new ≡ unit }
    ensures rest { rest.new ≡ replicate (length rest.old) unit }
{
    if !is_lent {
        let_go(replace(first, unit_value()));
    }
    empty(rest);
}
