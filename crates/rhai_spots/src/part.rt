//! What is shown of a place beside it: a temporary, or a part as it was read.

ghost use Rattle.std.specs.Prelude.{◌≡◌, false};
ghost use Rattle.std.specs.Borrow.{sem};

use crate::spot::Spot;
use rhai_values::base::value::Dynamic;

/// What a target shows of its place.
#[derive(Drop)]
pub enum Part<H> {
    /// The place itself.
    Whole,
    /// A value that stands in no place. What the target borrows is not touched.
    Temporary(Dynamic<H>),
    /// A bit, a bit field, a byte, a character or a slice of the value at the place, as it was
    /// read or has been changed since.
    Of(Spot, Dynamic<H>),
}

impl<H> Part<H> {
    ghost use Rattle.rhai_spots.specs.Lends.{lends_shown};
    ghost use Rattle.rhai_spots.specs.Targets.{is_place, shown};

    /// Lends the value shown beside the place, to be changed: a temporary, or a part as it was read. When the
    /// borrow ends it is what it was changed to. Asked: it is not the place that is shown.
    pub fn value_mut(&mut self) -> &mut Dynamic<H>
        requires { is_place self.old ≡ false }
        ensures* writes_back { sem 𝓛 (lends_shown H.row self.entry result) }
        ensures value { (place : _) → result.now ≡ shown self.old place }
    {
        match self {
            Part::Temporary(value) => value,
            Part::Of(_, value) => value,
            Part::Whole => unreachable!(),
        }
    }
}
