//! Access modes of values.

ghost use Rattle.std.specs.Prelude.{◌≡◌, map};
ghost use Rattle.rhai_values.specs.Modes.{with_mode, union_with_mode};

use crate::base::value::{AccessMode, Dynamic, Union};
use std::mem::replace;

impl<H: Drop> Dynamic<H> {
    /// Sets the mode of the value and of all items of nested arrays and maps; of a handle its own.
    /// Ports upstream's `Dynamic::set_access_mode`.
    #[inline(always)]
    #[cycle(modes)]
    pub fn set_access_mode(&mut self, mode: AccessMode)
        ensures { self.new ≡ with_mode mode self.old }
    {
        self.mode = mode;
        if let Union::Int(_) = self.value {
            return;
        }
        let value = replace(&mut self.value, Union::Unit);
        self.value = set_union_mode(value, mode);
    }
}

#[cycle(modes)]
fn set_union_mode<H: Drop>(value: Union<H>, mode: AccessMode) -> Union<H>
    ensures { result ≡ union_with_mode mode value }
{
    match value {
        Union::Array(mut items) => {
            set_modes(items.get_mut().as_mut_slice(), mode);
            Union::Array(items)
        }
        Union::Map(mut entries) => {
            set_modes(entries.get_mut().values_mut(), mode);
            Union::Map(entries)
        }
        other => other,
    }
}

#[cycle(modes)]
fn set_modes<H: Drop>(items: &mut [Dynamic<H>], mode: AccessMode)
    ensures { items.new ≡ map (with_mode mode) items.old }
{
    for i in 0..items.len() {
        items[i].set_access_mode(mode);
    }
}
