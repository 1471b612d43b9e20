//! The spot that an index leads to in a value, and what is taken of it.

ghost use Rattle.std.specs.Prelude.{◌≡◌, Ok, Some, IfOk};
ghost use Rattle.rhai_values.specs.Cells.{cells_of};
ghost use Rattle.rhai_values.specs.Layers.{layer_of};
ghost use Rattle.rhai_values.specs.declared.base.value.Union.{out-Union};
ghost use Rattle.rhai_spots.specs.Found.{found, indexed, with_key, IsKeyless};
ghost use Rattle.rhai_spots.specs.Parts.{IsPlace, IsThere, value_in};
ghost use Rattle.rhai_machine.specs.language.Located.{taken_at};
ghost use Rattle.rhai_machine.specs.language.State.{Answers};
ghost use Rattle.rhai_links.specs.Chains.{link_seen};
ghost use Rattle.rhai_links.specs.Spots.{way_through, FindsSpot};

use crate::links::{Link, LinkForm};
use rhai_errors::error::EvalAltResult;
use rhai_errors::errors::data_race;
use rhai_places::errors::indexing_error;
use rhai_places::indexing::{add_key, missing_key, value_of_index};
use rhai_places::locate::locate;
use rhai_places::part::read_part;
use rhai_spots::spot::{Access, Spot};
use rhai_steps::values::{copy, unit_value};
use rhai_tree::position::Position;
use rhai_values::base::value::{Dynamic, Host, Union};
use rhai_values::cells::CellStore;
use std::alloc::Global;

/// Tells how a link finds its spot, in a strict engine or not: one that refuses a property which a map lacks.
pub fn access_for(link: Link<'_>, adds: bool, is_strict: bool) -> Access
    ensures { result ≡ way_through (link_seen link.entry) adds is_strict }
{
    let idx_pos = match link.form {
        LinkForm::Index(index) => index.start_position(),
        LinkForm::Property(_, pos) => pos,
        LinkForm::Method(_, pos) => pos,
    };
    Access {
        idx_pos,
        op_pos: link.at,
        add_if_not_found: adds,
        fail_on_invalid_map_property: is_strict,
    }
}

/// Finds the spot that an index leads to. A key that a map does not have is inserted where that is asked. An
/// index that is a handle counts as its cell's value.
///
/// # Errors
/// Those of `rhai_places::indexing::get_indexed_mut`; at each of them the value stays as it was.
pub fn find_spot<H: Host>(
    alloc: Global,
    cells: &CellStore<H>,
    source: &mut Dynamic<H>,
    index: &Dynamic<H>,
    how: Access,
) -> Result<Spot, EvalAltResult<H>>
    ensures finds { FindsSpot result (found how H.name_of (cells_of cells.now) source.old index.now)
        source.old source.new }
    ensures there { IfOk result (λ at. IsThere (layer_of source.new) at) }
{
    match value_of_index(cells, index) {
        Some(index) => find_by_value(alloc, cells, source, index, how),
        None => Err(data_race(alloc, how.idx_pos)),
    }
}

/// Finds the spot that an index leads to which is no handle.
fn find_by_value<H: Host>(
    alloc: Global,
    cells: &CellStore<H>,
    source: &mut Dynamic<H>,
    index: &Dynamic<H>,
    how: Access,
) -> Result<Spot, EvalAltResult<H>>
    ensures finds { FindsSpot result (indexed how H.name_of (cells_of cells.now) source.old index.now)
        source.old source.new }
    ensures there { IfOk result (λ at. IsThere (layer_of source.new) at) }
{
    match locate(source, index) {
        Ok(Spot::Missing) if how.add_if_not_found => add_missing(source, index, how.idx_pos),
        Ok(Spot::Missing) if how.fail_on_invalid_map_property => Err(missing_key(index, how)),
        Ok(spot) => Ok(spot),
        Err(refusal) => Err(indexing_error(alloc, cells, source, index, how, refusal)),
    }
}

/// Inserts a key that a map does not have yet, and returns its spot.
fn add_missing<H: Host>(
    source: &mut Dynamic<H>,
    index: &Dynamic<H>,
    pos: Position,
) -> Result<Spot, EvalAltResult<H>>
    requires { IsKeyless (layer_of source.old) (layer_of index.now) }
    ensures finds { FindsSpot result (Ok (with_key source.old (layer_of source.old) (layer_of index.now)))
        source.old source.new }
    ensures there { IfOk result (λ at. IsThere (layer_of source.new) at) }
{
    match add_key(source, index) {
        Ok(at) => Ok(Spot::Value(at)),
        Err(_) => Err(EvalAltResult::ErrorOutOfMemory(pos)),
    }
}

/// Takes what a spot leads to. It is a copy of a place, `()` for a key that is missing, or a part.
pub fn take_spot<H: Host>(
    alloc: Global,
    source: &Dynamic<H>,
    spot: Spot,
    pos: Position,
) -> Result<Dynamic<H>, EvalAltResult<H>>
    requires { IsThere (layer_of source.now) spot }
    ensures { Answers result (Ok (taken_at source.now spot)) }
{
    match spot {
        Spot::Item(_) | Spot::Value(_) => copy(alloc, place_ref(&source.value, spot), pos),
        Spot::Missing => Ok(unit_value()),
        _ => match read_part(alloc, source, spot) {
            Ok(part) => Ok(part),
            Err(_) => Err(EvalAltResult::ErrorOutOfMemory(pos)),
        },
    }
}

/// Borrows the item or the value at a place.
fn place_ref<H>(source: &Union<H>, spot: Spot) -> &Dynamic<H>
    requires { IsPlace (out-Union H source.now) spot }
    ensures { value_in (out-Union H source.now) spot ≡ Some result.now }
{
    match (source, spot) {
        (Union::Array(items), Spot::Item(at)) => &items.get().as_slice()[at],
        (Union::Map(entries), Spot::Value(at)) => &entries.get().values()[at],
        _ => unreachable!(),
    }
}
