//! A place beside the variables.

use rhai_values::base::value::{Dynamic, Union};
use std::marker::Model;
use std::mem::replace;

/// A place that no variable has, to be borrowed where a value is shown that stands in none. What is written
/// there is not read again, so contracts see nothing of it.
#[derive(Drop)]
pub struct Slot<H> {
    value: Dynamic<H>,
}

impl<H> Model for Slot<H> {
    ghost Value = { Unit {0} };

    ghost view = { λ slot. tt };
}

impl<H> Slot<H> {
    /// Creates a place. It takes no memory.
    pub fn new() -> Slot<H> {
        Slot {
            value: Dynamic::new(Union::Unit),
        }
    }
}

impl<H: Drop> Slot<H> {
    ghost use Rattle.std.specs.Prelude.{◌≡◌};
    ghost use Rattle.std.specs.Borrow.{sem};
    ghost use Rattle.rhai_values.specs.Copy.{plain};
    ghost use Rattle.rhai_values.specs.declared.base.value.Union.TheVariants as value;
    ghost use Rattle.rhai_state.specs.Slots.{lends_slot};

    /// Lends the place, with `()` in it.
    pub fn lend(&mut self) -> &mut Dynamic<H>
        ensures* writes_back { sem 𝓛 (lends_slot H.row self.entry result) }
        ensures value { result.now ≡ plain value.Unit }
    {
        drop(replace(&mut self.value, Dynamic::new(Union::Unit)));
        &mut self.value
    }
}
