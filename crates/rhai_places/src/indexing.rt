//! What an index leads to, as a target. Ports upstream's `get_indexed_mut` but for its charge and
//! the indexers of a host's types. The contracts cite specs/Found.antt and specs/Lends.antt.

ghost use Rattle.std.specs.Prelude.{◌≡◌, ◌<◌, length, Ok, Some, None, IsOk, IfOk, IfErr, OnOk, OnErr};
ghost use Rattle.std.specs.Prelude.{MatchResult, true};
ghost use Rattle.std.specs.Borrow.{sem};
ghost use Rattle.std.specs.Option.{option_copied};
ghost use Rattle.rhai_tree.specs.Lookup.{paired, place_of, rank, with_entry};
ghost use Rattle.rhai_values.specs.Cells.{cells_of};
ghost use Rattle.rhai_values.specs.Copy.{plain};
ghost use Rattle.rhai_errors.specs.Errors.{is_out_of_memory};
ghost use Rattle.rhai_values.specs.Layers.{layer_of};
ghost use Rattle.rhai_errors.specs.declared.error.EvalAltResult.TheVariants as error;
ghost use Rattle.rhai_values.specs.declared.base.value.Union.TheVariants as value;
ghost use Rattle.rhai_spots.specs.declared.spot.Spot.TheVariants as spot;
ghost use Rattle.rhai_spots.specs.Found.{found, indexed, spot_takes_memory, takes_memory, text_of, through};
ghost use Rattle.rhai_spots.specs.Found.{with_key, IsFound, IsKeyless, IsMissed, IsText};
ghost use Rattle.rhai_spots.specs.Indexing.{located};
ghost use Rattle.rhai_places.specs.Lends.{lends_found, lends_spot};
ghost use Rattle.rhai_spots.specs.Parts.{IsThere, is_slice};
ghost use Rattle.rhai_spots.specs.Refusals.{IsTold};
ghost use Rattle.rhai_spots.specs.Targets.{place_at, part_at as part_of_spot, IsFit};

use crate::errors::indexing_error;
use crate::locate::locate;
use crate::part::read_part;
use crate::place::place_mut;
use crate::target::Target;
use rhai_errors::error::EvalAltResult;
use rhai_errors::errors::{data_race, property_not_found};
use rhai_spots::part::Part;
use rhai_spots::spot::{Access, Spot};
use rhai_tree::{Shared, Table, Text};
use rhai_values::base::value::{Dynamic, Host, Union};
use rhai_values::cells::CellStore;
use std::alloc::{AllocError, Global};

/// Finds the target that an index leads to. That is an item of an array, the value of a key, a byte of a
/// blob, a bit or some bits of an integer, a character or some characters of a text. A negative index counts
/// from the end. A key that a map does not have is inserted with `()` where that is asked, else the target is
/// a temporary `()`. An index that is a handle counts as its cell's value.
///
/// An index in range of an array, a blob or an integer, one character, and a key that is there
/// take no memory.
///
/// # Errors
/// At the start of the index: `ErrorArrayBounds`, `ErrorBitFieldBounds` and `ErrorStringBounds`
/// outside the value, `ErrorMismatchDataType` for an index of another type,
/// `ErrorPropertyNotFound` for a missing key where that is asked, and `ErrorDataRace` for a handle
/// of a cell that is held. At the operator: `ErrorIndexingType` for a value of any other type.
/// `ErrorOutOfMemory` where there is no memory. At each of them the value stays as it was.
pub fn get_indexed_mut<'t, H: Host>(
    source: &'t mut Dynamic<H>,
    alloc: Global,
    cells: &CellStore<H>,
    index: &Dynamic<H>,
    how: Access,
) -> Result<Target<'t, H>, EvalAltResult<H>>
    ensures* writes_back { sem 𝓛 (lends_found H.row source.entry
        (found how H.name_of (cells_of cells.now) source.entry.now index.now) result) }
    ensures found { MatchResult result (λ t. IsFound (found how H.name_of (cells_of cells.now) source.old
        index.now) t.at.now t.part) (λ e. IsMissed (found how H.name_of (cells_of cells.now) source.old
        index.now) e) }
    ensures fit { IfOk result (λ t. IsFit t.part t.at.now) }
    ensures memory { IfErr result (λ e. is_out_of_memory e ≡ true →
        takes_memory how source.old (through (cells_of cells.now) index.now) ≡ true) }
{
    match value_of_index(cells, index) {
        Some(index) => get_by_value(source, alloc, cells, index, how),
        None => Err(data_race(alloc, how.idx_pos)),
    }
}

/// Returns an index, or the value of the cell that it is a handle of. None where that cell is held.
pub fn value_of_index<'a, H>(
    cells: &'a CellStore<H>,
    index: &'a Dynamic<H>,
) -> Option<&'a Dynamic<H>>
    ensures { option_copied result ≡ through (cells_of cells.now) index.now }
{
    match &index.value {
        Union::Cell(id) => cells.get(*id),
        _ => Some(index),
    }
}

/// Finds the target that an index leads to which is no handle.
fn get_by_value<'t, H: Host>(
    source: &'t mut Dynamic<H>,
    alloc: Global,
    cells: &CellStore<H>,
    index: &Dynamic<H>,
    how: Access,
) -> Result<Target<'t, H>, EvalAltResult<H>>
    ensures* writes_back { sem 𝓛 (lends_found H.row source.entry
        (indexed how H.name_of (cells_of cells.now) source.entry.now index.now) result) }
    ensures found { MatchResult result (λ t. IsFound (indexed how H.name_of (cells_of cells.now) source.old
        index.now) t.at.now t.part) (λ e. IsMissed (indexed how H.name_of (cells_of cells.now) source.old
        index.now) e) }
    ensures fit { IfOk result (λ t. IsFit t.part t.at.now) }
    ensures memory { IfErr result (λ e. is_out_of_memory e ≡ true →
        spot_takes_memory how (located (layer_of source.old) (layer_of index.now)) ≡ true) }
{
    match locate(source, index) {
        Ok(Spot::Missing) if how.add_if_not_found => get_added(source, index, how),
        Ok(Spot::Missing) if how.fail_on_invalid_map_property => Err(missing_key(index, how)),
        Ok(spot) => open_spot(source, alloc, spot, how),
        Err(refusal) => Err(indexing_error(alloc, cells, source, index, how, refusal)),
    }
}

/// Inserts a key that a map does not have yet, and finds its target.
fn get_added<'t, H: Host>(
    source: &'t mut Dynamic<H>,
    index: &Dynamic<H>,
    how: Access,
) -> Result<Target<'t, H>, EvalAltResult<H>>
    requires { IsKeyless (layer_of source.old) (layer_of index.now) }
    ensures* writes_back { sem 𝓛 (lends_found H.row source.entry
        (Ok (with_key source.entry.now (layer_of source.entry.now) (layer_of index.now))) result) }
    ensures found { MatchResult result (λ t. IsFound (Ok (with_key source.old (layer_of source.old)
        (layer_of index.now))) t.at.now t.part) (λ e. is_out_of_memory e ≡ true) }
    ensures fit { IfOk result (λ t. IsFit t.part t.at.now) }
{
    let Ok(at) = add_key(source, index) else {
        return Err(EvalAltResult::ErrorOutOfMemory(how.idx_pos));
    };
    open(source, Spot::Value(at), Part::Whole)
}

/// Inserts `()` under a key that a map does not have. Answers the position of the key. At an error, where
/// memory ran out, the map stays as it was.
pub fn add_key<H: Host>(source: &mut Dynamic<H>, index: &Dynamic<H>) -> Result<usize, AllocError>
    requires { IsKeyless (layer_of source.old) (layer_of index.now) }
    ensures ok { IfOk result (λ at. with_key source.old (layer_of source.old) (layer_of index.now)
        ≡ (source.new, spot.Value at)) }
    ensures there { IfOk result (λ at. IsThere (layer_of source.new) (spot.Value at)) }
    ensures err { OnErr result (source.new ≡ source.old) }
{
    match (&mut source.value, &index.value) {
        (Union::Map(entries), Union::Str(key)) => insert_unit(entries.get_mut(), key),
        _ => unreachable!(),
    }
}

fn insert_unit<H: Host>(
    entries: &mut Table<Dynamic<H>>,
    key: &Shared<Text>,
) -> Result<usize, AllocError>
    requires { place_of key.now (paired entries.old).0 ≡ None }
    ensures ok { IfOk result (λ at. (at ≡ rank key.now (paired entries.old).0)
        × (at < length entries.new.1)) }
    ensures entries { OnOk result (entries.new ≡ with_entry key.now (plain value.Unit) (paired entries.old)) }
    ensures err { OnErr result (entries.new ≡ entries.old) }
{
    let _as_many = entries.len();
    match entries.find(key.get().as_str()) {
        Err(at) => {
            entries.insert(key.share()?, Dynamic::new(Union::Unit))?;
            Ok(at)
        }
        Ok(_) => unreachable!(),
    }
}

/// Builds the error of a key that a map does not have: `ErrorPropertyNotFound` at the start of the index.
pub fn missing_key<H: Host>(index: &Dynamic<H>, how: Access) -> EvalAltResult<H>
    requires { IsText (layer_of index.now) }
    ensures { IsTold (error.ErrorPropertyNotFound (text_of (layer_of index.now)) how.idx_pos) result }
{
    match &index.value {
        Union::Str(key) => property_not_found(key, how.idx_pos),
        _ => unreachable!(),
    }
}

/// Builds the target of a spot.
fn open_spot<'t, H: Host>(
    source: &'t mut Dynamic<H>,
    alloc: Global,
    spot: Spot,
    how: Access,
) -> Result<Target<'t, H>, EvalAltResult<H>>
    requires { IsThere (layer_of source.old) spot }
    ensures* writes_back { sem 𝓛 (lends_spot H.row source.entry spot result) }
    ensures found { MatchResult result (λ t. (place_at source.old spot ≡ Some t.at.now) ×
        (t.part ≡ part_of_spot source.old spot)) (λ e. is_out_of_memory e ≡ true) }
    ensures fit { IfOk result (λ t. IsFit t.part t.at.now) }
    ensures memory { OnErr result (is_slice spot ≡ true) }
{
    let Ok(part) = part_at(alloc, source, spot) else {
        return Err(EvalAltResult::ErrorOutOfMemory(how.idx_pos));
    };
    open(source, spot, part)
}

/// Reads what a target shows of a spot.
fn part_at<H: Host>(alloc: Global, source: &Dynamic<H>, spot: Spot) -> Result<Part<H>, AllocError>
    requires { IsThere (layer_of source.now) spot }
    ensures part { IfOk result (λ part. part ≡ part_of_spot source.now spot) }
    ensures memory { OnErr result (is_slice spot ≡ true) }
{
    match spot {
        Spot::Item(_) | Spot::Value(_) => Ok(Part::Whole),
        Spot::Missing => Ok(Part::Temporary(Dynamic::new(Union::Unit))),
        _ => Ok(Part::Of(spot, read_part(alloc, source, spot)?)),
    }
}

/// Builds the target of a spot that shows a part.
fn open<'t, H: Host>(
    source: &'t mut Dynamic<H>,
    spot: Spot,
    part: Part<H>,
) -> Result<Target<'t, H>, EvalAltResult<H>>
    requires { IsThere (layer_of source.old) spot }
    ensures* writes_back { sem 𝓛 (lends_spot H.row source.entry spot result) }
    ensures ok { IsOk result }
    ensures place { IfOk result (λ t. place_at source.old spot ≡ Some t.at.now) }
    ensures part { IfOk result (λ t. t.part ≡ part) }
{
    match spot {
        Spot::Item(_) | Spot::Value(_) => {
            let union = &mut source.value;
            let at = place_mut(union, spot);
            Ok(Target { at, part })
        }
        _ => Ok(Target { at: source, part }),
    }
}
