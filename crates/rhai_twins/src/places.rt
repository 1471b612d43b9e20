//! Places in values.

ghost use Rattle.std.specs.Prelude.{◌≡◌, ◌<◌, is_ok};
ghost use Rattle.std.specs.Option.{option_copied};
ghost use Rattle.rhai_values.specs.Layers.{layer_of};
ghost use Rattle.rhai_values.specs.declared.base.value.Union.{out-Union};
ghost use Rattle.rhai_spots.specs.Found.{IsKeyless, IsText};
ghost use Rattle.rhai_spots.specs.Parts.{IsPart, IsPlace};
ghost use Rattle.rhai_twins.specs.Ends.{SameError, SameAnswer, SameTarget, EndsOnce};

use rhai_errors::error::EvalAltResult;
use rhai_errors::errors::{data_race, indexing_text, mismatch, property_not_found};
use rhai_places::errors::indexing_error;
use rhai_places::indexing::{add_key, get_indexed_mut, missing_key, value_of_index};
use rhai_places::locate::locate;
use rhai_places::part::{is_part, read_part};
use rhai_places::place::place_mut;
use rhai_places::put::put_part;
use rhai_places::target::Target;
use rhai_spots::spot::{Access, Refusal, Spot};
use rhai_tree::position::Position;
use rhai_tree::{Shared, Text};
use rhai_values::base::value::{Dynamic, Host, Union};
use rhai_values::cells::CellStore;
use std::alloc::{AllocError, Global};
use std::marker::PhantomData;

/// Shows that two calls of `errors::indexing_error` build equal errors, unless memory runs out.
pub fn not_indexed<H: Host>(
    alloc: Global,
    cells: &CellStore<H>,
    source: &Dynamic<H>,
    index: &Dynamic<H>,
    how: Access,
    refusal: Refusal,
) -> (EvalAltResult<H>, EvalAltResult<H>)
    ensures { SameError result.0 result.1 }
{
    (
        indexing_error(alloc, cells, source, index, how, refusal),
        indexing_error(alloc, cells, source, index, how, refusal),
    )
}

/// Shows that two calls of `errors::indexing_text` write equal texts, unless memory runs out.
pub fn not_indexed_text(
    alloc: Global,
    object: &str,
    index: &str,
) -> (Result<Text, AllocError>, Result<Text, AllocError>)
    ensures { is_ok result.0 ≡ is_ok result.1 → result.0 ≡ result.1 }
{
    (
        indexing_text(alloc, object, index),
        indexing_text(alloc, object, index),
    )
}

/// Shows that two calls of `errors::mismatch` build equal errors, unless memory runs out.
pub fn mismatched<H>(
    alloc: Global,
    wanted: &str,
    found: &str,
    position: Position,
) -> (EvalAltResult<H>, EvalAltResult<H>)
    ensures { SameError result.0 result.1 }
{
    (
        mismatch(alloc, wanted, found, position),
        mismatch(alloc, wanted, found, position),
    )
}

/// Shows that two calls of `errors::property_not_found` build equal errors, unless memory runs out.
pub fn no_property<H>(
    key: &Shared<Text>,
    position: Position,
) -> (EvalAltResult<H>, EvalAltResult<H>)
    ensures { SameError result.0 result.1 }
{
    (
        property_not_found(key, position),
        property_not_found(key, position),
    )
}

/// Shows that two calls of `errors::data_race` build equal errors, unless memory runs out.
pub fn race<H>(alloc: Global, position: Position) -> (EvalAltResult<H>, EvalAltResult<H>)
    ensures { SameError result.0 result.1 }
{
    (data_race(alloc, position), data_race(alloc, position))
}

/// Shows that two calls of `indexing::value_of_index` answer equally.
pub fn index_value<'a, H>(
    cells: &'a CellStore<H>,
    index: &'a Dynamic<H>,
) -> (Option<&'a Dynamic<H>>, Option<&'a Dynamic<H>>)
    ensures { option_copied result.0 ≡ option_copied result.1 }
{
    (value_of_index(cells, index), value_of_index(cells, index))
}

/// Shows that two calls of `indexing::add_key` on equal values answer equally and leave equal values, unless
/// memory runs out.
pub fn key_added<H: Host>(
    source: &mut Dynamic<H>,
    also_source: &mut Dynamic<H>,
    index: &Dynamic<H>,
) -> (Result<usize, AllocError>, Result<usize, AllocError>)
    requires source { source.old ≡ also_source.old }
    requires keyless { IsKeyless (layer_of source.old) (layer_of index.now) }
    ensures result { is_ok result.0 ≡ is_ok result.1 → result.0 ≡ result.1 }
    ensures source { is_ok result.0 ≡ is_ok result.1 → source.new ≡ also_source.new }
{
    (add_key(source, index), add_key(also_source, index))
}

/// Shows that two calls of `indexing::missing_key` build equal errors, unless memory runs out.
pub fn no_key<H: Host>(index: &Dynamic<H>, how: Access) -> (EvalAltResult<H>, EvalAltResult<H>)
    requires { IsText (layer_of index.now) }
    ensures { SameError result.0 result.1 }
{
    (missing_key(index, how), missing_key(index, how))
}

/// Shows that two calls of `locate::locate` answer equally.
pub fn located<H>(
    source: &Dynamic<H>,
    index: &Dynamic<H>,
) -> (Result<Spot, Refusal>, Result<Spot, Refusal>)
    ensures { result.0 ≡ result.1 }
{
    (locate(source, index), locate(source, index))
}

/// Shows that two calls of `part::read_part` answer equally, unless memory runs out.
pub fn part_read<H>(
    alloc: Global,
    source: &Dynamic<H>,
    spot: Spot,
) -> (
    Result<Dynamic<H>, AllocError>,
    Result<Dynamic<H>, AllocError>,
)
    requires { IsPart (layer_of source.now) spot }
    ensures { is_ok result.0 ≡ is_ok result.1 → result.0 ≡ result.1 }
{
    (
        read_part(alloc, source, spot),
        read_part(alloc, source, spot),
    )
}

/// Shows that two calls of `part::is_part` answer equally.
pub fn has_part<H>(source: &Dynamic<H>, spot: Spot) -> (bool, bool)
    ensures { result.0 ≡ result.1 }
{
    (is_part(source, spot), is_part(source, spot))
}

/// Shows that two calls of `place::place_mut` on equal values leave equal values, whatever is written.
pub fn place_lent<H: Drop>(
    source: &mut Union<H>,
    also_source: &mut Union<H>,
    spot: Spot,
    value: Dynamic<H>,
    also_value: Dynamic<H>,
)
    requires source { source.old ≡ also_source.old }
    requires value { value ≡ also_value }
    requires place { IsPlace (out-Union H source.old) spot }
    ensures { source.new ≡ also_source.new }
{
    *place_mut(source, spot) = value;
    *place_mut(also_source, spot) = also_value;
}

/// Shows that two calls of `put::put_part` on equal values answer equally and leave equal values, unless
/// memory runs out.
pub fn part_put<H: Host>(
    alloc: Global,
    source: &mut Dynamic<H>,
    also_source: &mut Dynamic<H>,
    spot: Spot,
    part: &Dynamic<H>,
    position: Position,
) -> (Result<(), EvalAltResult<H>>, Result<(), EvalAltResult<H>>)
    requires source { source.old ≡ also_source.old }
    requires part { IsPart (layer_of source.old) spot }
    ensures result { SameAnswer result.0 result.1 }
    ensures source { is_ok result.0 ≡ is_ok result.1 → source.new ≡ also_source.new }
{
    (
        put_part(alloc, source, spot, part, position),
        put_part(alloc, also_source, spot, part, position),
    )
}
