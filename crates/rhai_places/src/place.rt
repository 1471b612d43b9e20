//! Places in values: the items of arrays and the values of maps, lent to be changed. The contracts
//! cite specs/Parts.antt and specs/Lends.antt.

ghost use Rattle.std.specs.Prelude.{◌≡◌, Some};
ghost use Rattle.std.specs.Borrow.{sem};
ghost use Rattle.rhai_values.specs.declared.base.value.Union.{out-Union};
ghost use Rattle.rhai_spots.specs.Parts.{IsPlace, value_in};
ghost use Rattle.rhai_places.specs.Lends.{lends_place};

use rhai_spots::spot::Spot;
use rhai_values::base::value::{Dynamic, Union};

/// Lends the item or the value at a place. What it is changed to stands there afterwards.
pub fn place_mut<H>(source: &mut Union<H>, spot: Spot) -> &mut Dynamic<H>
    requires { IsPlace (out-Union H source.old) spot }
    ensures* writes_back { sem 𝓛 (lends_place H.row source.entry spot result) }
    ensures value { value_in (out-Union H source.old) spot ≡ Some result.now }
{
    match spot {
        Spot::Item(at) => match source {
            Union::Array(items) => items.get_mut().at_mut(at),
            _ => unreachable!(),
        },
        Spot::Value(at) => match source {
            Union::Map(entries) => entries.get_mut().value_mut(at),
            _ => unreachable!(),
        },
        _ => unreachable!(),
    }
}
