//! What the walk does at a link, by the form of the link and by what it finds.

ghost use Rattle.std.specs.Prelude.{◌≡◌, ◌≤◌, ◌&&◌, [], Ok, Some, is_some};
ghost use Rattle.std.specs.Option.{option_copied};
ghost use Rattle.rhai_tree.specs.declared.expr.Expr.{out-Expr};
ghost use Rattle.rhai_values.specs.Cells.{cells_of, with_value};
ghost use Rattle.rhai_values.specs.Copy.{plain};
ghost use Rattle.rhai_values.specs.Layers.{layer_of};
ghost use Rattle.rhai_values.specs.declared.base.value.Union.TheVariants as kind;
ghost use Rattle.rhai_spots.specs.Found.{found};
ghost use Rattle.rhai_machine.specs.language.Frames.{Item};
ghost use Rattle.rhai_machine.specs.language.Links.{link_of as link_in};
ghost use Rattle.rhai_machine.specs.language.Located.{is_map as is_map_in, is_indexed as is_indexed_in};
ghost use Rattle.rhai_machine.specs.language.Located.{is_unit as is_unit_in};
ghost use Rattle.rhai_machine.specs.language.State.{Answers};
ghost use Rattle.rhai_machine.specs.language.Values.{through, used};
ghost use Rattle.rhai_steps.specs.Agreement.{KeepsSight};
ghost use Rattle.rhai_steps.specs.Sessions.{under};
ghost use Rattle.rhai_steps.specs.States.{state_of};
ghost use Rattle.rhai_steps.specs.OnFocus.{lending};
ghost use Rattle.rhai_links.specs.Chains.{form_seen, link_seen};
ghost use Rattle.rhai_links.specs.Access.{access_of};
ghost use Rattle.rhai_context.specs.Ends.{came_some};
ghost use Rattle.rhai_links.specs.Walking.{Begins, Enters, FindsDown, FitsLink, IsDescent};
ghost use Rattle.rhai_links.specs.Walking.{IsFree, IsMethodIn, IsSpotBelow, IsWay, Leaves};
ghost use Rattle.rhai_links.specs.Walking.{TakesBelow, WayBy, way_below};

use crate::access::{Member, MemberAccess};
use crate::links::{Link, LinkForm, link_of};
use crate::spots::{access_for, find_spot, take_spot};
use rhai_context::ends::stop;
use rhai_errors::error::EvalAltResult;
use rhai_errors::errors::data_race;
use rhai_errors::table::NativeTable;
use rhai_lookups::run::RunState;
use rhai_spots::spot::Spot;
use rhai_state::session::Session;
use rhai_steps::charges::track_operation;
use rhai_steps::values::{text_value, unit_value};
use rhai_tree::expr::{Expr, FnCallExpr};
use rhai_tree::position::Position;
use rhai_tree::{Shared, Text};
use rhai_values::base::value::{CellId, Dynamic, Host, Union};
use rhai_values::cells::{CellStore, put_back};
use std::mem::replace;

/// Which way the walk goes at a link.
#[derive(Clone, Copy)]
pub enum Way {
    /// Nowhere: the focus is the handle of a cell that is held.
    Races,
    /// Nowhere: the chain stops at `()`.
    Stops,
    /// It charges, and enters the focus.
    Charges,
    /// It enters the focus.
    Enters,
}

/// Looks at a value through a handle. None where the handle's cell is held.
fn seen<'a, H: Host>(cells: &'a CellStore<H>, value: &'a Dynamic<H>) -> Option<&'a Dynamic<H>>
    ensures { (pos : _) → used [] pos (option_copied result) ≡ through (cells_of cells.now) value.now pos }
{
    match &value.value {
        Union::Cell(id) => cells.get(*id),
        _ => Some(value),
    }
}

/// Tells whether a value is a map.
pub fn is_map<H: Host>(value: &Dynamic<H>) -> bool
    ensures { result ≡ is_map_in (layer_of value.now) }
{
    matches!(&value.value, Union::Map(_))
}

/// Tells whether a value has places or parts of its own.
pub fn is_indexed<H: Host>(value: &Dynamic<H>) -> bool
    ensures { result ≡ is_indexed_in (layer_of value.now) }
{
    match &value.value {
        Union::Int(_) | Union::Str(_) | Union::Array(_) | Union::Blob(_) | Union::Map(_) => true,
        _ => false,
    }
}

/// Tells whether a value is `()`.
fn is_unit<H: Host>(value: &Dynamic<H>) -> bool
    ensures { result ≡ is_unit_in value.now.value }
{
    matches!(&value.value, Union::Unit)
}

/// Tells which way the walk goes by the form of a link. The focus is seen through a handle.
fn way_at<H: Host>(form: LinkForm<'_>, inner: &Dynamic<H>) -> Way
    ensures { WayBy result (form_seen form.entry) (layer_of inner.now) }
{
    match form {
        LinkForm::Index(_) => Way::Charges,
        LinkForm::Property(_, _) => {
            if is_map(inner) {
                Way::Charges
            } else {
                Way::Enters
            }
        }
        LinkForm::Method(_, _) => Way::Enters,
    }
}

/// Tells whether the chain stops there at `()`.
fn stops_there<H: Host>(link: Link<'_>, inner: &Dynamic<H>) -> bool
    ensures { result ≡ (link.entry.stops_at_unit && is_unit_in inner.now.value) }
{
    link.stops_at_unit && is_unit(inner)
}

/// Tells which way the walk goes at a link.
fn way_of<H: Host>(cells: &CellStore<H>, focus: &Dynamic<H>, link: Link<'_>) -> Way
    ensures { IsWay result (link_seen link.entry) (cells_of cells.now) focus.now }
{
    let Some(inner) = seen(cells, focus) else {
        return Way::Races;
    };
    let stops = stops_there(link, inner);
    if stops {
        return Way::Stops;
    }
    way_at(link.form, inner)
}

/// A link that is a method.
#[derive(Clone, Copy)]
pub struct MethodIn<'e> {
    pub link: Link<'e>,
    pub call: &'e FnCallExpr,
    pub at: Position,
}

/// How the walk begins at a link.
pub enum Begun<H> {
    /// It has ended there.
    Ended(Result<(Dynamic<H>, bool), EvalAltResult<H>>),
    /// It enters the focus.
    Enters,
}

/// Begins the walk at a link: the focus is looked at, and the charge is made.
///
/// # Errors
/// At the operator `ErrorDataRace` for the handle of a cell that is held; and a charge's.
pub fn begin_link<H: Host, T: NativeTable<H>>(
    session: &Session<'_, H>,
    global: &mut RunState<H>,
    table: &T,
    focus: &Dynamic<H>,
    link: Link<'_>,
) -> Begun<H>
    ensures counts { global.old.num_operations ≤ global.new.num_operations }
    ensures sight { KeepsSight global.old global.new }
    ensures fits { FitsLink result (cells_of global.new.cells) focus.now }
    ensures begins { (scope : _) (held : _) (chain : _) →
        link_in chain.rest ≡ Some (link_seen link.entry) →
        Begins (under H.name_of session.now T.natives) (link_seen link.entry) chain
        (state_of (T.state table.now) global.old scope (lending held focus.now))
        result (state_of (T.state table.now) global.new scope (lending held focus.now)) }
{
    match way_of(&global.cells, focus, link) {
        Way::Races => Begun::Ended(Err(data_race(session.alloc, link.at))),
        Way::Stops => Begun::Ended(Ok((unit_value(), false))),
        Way::Charges => match track_operation(&session.limits, global, Position::NONE) {
            Ok(()) => Begun::Enters,
            Err(error) => Begun::Ended(Err(error)),
        },
        Way::Enters => Begun::Enters,
    }
}

/// Enters the focus where it is a handle: its cell's value is taken from there to be worked on. The cell is
/// held meanwhile. The answer keeps the handle.
pub fn step_in<H: Host>(
    cells: &mut CellStore<H>,
    focus: &mut Dynamic<H>,
) -> Option<(CellId, Dynamic<H>)>
    requires { IsFree (cells_of cells.old) focus.old.value }
    ensures { Enters result focus.old focus.new (cells_of cells.old) (cells_of cells.new) }
{
    let Union::Cell(id) = &focus.value else {
        return None;
    };
    let id = *id;
    let inner = cells.take(id).unwrap();
    Some((id, replace(focus, inner)))
}

/// Tells whether the focus was a handle.
pub fn was_handle<H: Host>(above: &Option<(CellId, Dynamic<H>)>) -> bool
    ensures { result ≡ is_some above.now }
{
    above.is_some()
}

/// Gives a cell a value, where there is such a cell.
fn put_in_cell<H: Host>(cells: &mut CellStore<H>, id: CellId, value: Dynamic<H>)
    ensures { cells_of cells.new ≡ with_value (cells_of cells.old) id.number value }
{
    let is_there = id.number < cells.len();
    if is_there {
        put_back(cells, id, value);
    } else {
        drop(value);
    }
}

/// Puts what has become of the cell's value back there, and makes the focus the handle again.
pub fn step_out<H: Host>(
    cells: &mut CellStore<H>,
    focus: &mut Dynamic<H>,
    above: Option<(CellId, Dynamic<H>)>,
)
    ensures { Leaves above focus.old focus.new (cells_of cells.old) (cells_of cells.new) }
{
    if let Some((id, handle)) = above {
        let inner = replace(focus, handle);
        put_in_cell(cells, id, inner);
    }
}

/// Where the walk goes on below a value.
#[derive(Clone, Copy)]
pub enum Descent {
    /// On a place in it.
    Place(Spot),
    /// On a temporary, for a key that is missing.
    Missing,
    /// On a part of it.
    Part(Spot),
}

/// Finds the first link of a chain where that is a method.
pub fn method_in(rest: &Expr) -> Option<MethodIn<'_>>
    ensures { IsMethodIn result (link_in (out-Expr rest.now)) }
{
    let link = link_of(rest)?;
    match link.form {
        LinkForm::Method(call, at) => Some(MethodIn { link, call, at }),
        _ => None,
    }
}

/// Tells where the walk goes on at a spot.
fn descent_to(spot: Spot) -> Descent
    ensures { IsDescent result spot }
{
    match spot {
        Spot::Item(_) | Spot::Value(_) => Descent::Place(spot),
        Spot::Missing => Descent::Missing,
        _ => Descent::Part(spot),
    }
}

/// Finds the spot that an index or a key leads to, where no key is inserted.
pub fn spot_below<H: Host>(
    session: &Session<'_, H>,
    cells: &CellStore<H>,
    source: &mut Dynamic<H>,
    index: &Dynamic<H>,
    link: Link<'_>,
) -> Result<Spot, EvalAltResult<H>>
    ensures same { source.new ≡ source.old }
    ensures finds { IsSpotBelow result (found (way_below link.entry session.now.fail_on_invalid_map_property) H.name_of (cells_of cells.now)
        source.old index.now) source.old }
{
    let how = access_for(link, false, session.fail_on_invalid_map_property);
    find_spot(session.alloc, cells, source, index, how)
}

/// Finds where the walk goes on below a value, by an index or a key. An error is left in `place`.
pub fn find_down<H: Host>(
    session: &Session<'_, H>,
    cells: &CellStore<H>,
    place: &mut Option<EvalAltResult<H>>,
    source: &mut Dynamic<H>,
    index: &Dynamic<H>,
    link: Link<'_>,
) -> Option<Descent>
    ensures same { source.new ≡ source.old }
    ensures finds { FindsDown (came_some result place.new) (found (way_below link.entry session.now.fail_on_invalid_map_property)
        H.name_of (cells_of cells.now) source.old index.now) source.old }
{
    match spot_below(session, cells, source, index, link) {
        Ok(spot) => Some(descent_to(spot)),
        Err(error) => {
            stop(place, error);
            None
        }
    }
}

/// Makes the access to an item that natives get and set. Its index is taken.
pub fn item_access<'m, H: Host>(
    index: &mut Dynamic<H>,
    at: Position,
    guarded: bool,
) -> MemberAccess<'m, H>
    ensures { access_of result ≡ record { member = Item index.old; at = at; guarded = guarded } }
{
    MemberAccess {
        member: Member::Item(replace(index, unit_value())),
        at,
        guarded,
    }
}

/// Makes the key that a property's name is in a map. An error is left in `place`.
pub fn key_for<H: Host>(
    place: &mut Option<EvalAltResult<H>>,
    name: &Shared<Text>,
    pos: Position,
) -> Option<Dynamic<H>>
    ensures { Answers (came_some result place.new) (Ok (plain (kind.Str name.now))) }
{
    match text_value(name, pos) {
        Ok(key) => Some(key),
        Err(error) => {
            stop(place, error);
            None
        }
    }
}

/// Takes what an index or a key leads to. It is a copy, `()` for a key that is missing, or a part.
pub fn take_below<H: Host>(
    session: &Session<'_, H>,
    cells: &CellStore<H>,
    source: &mut Dynamic<H>,
    index: &Dynamic<H>,
    link: Link<'_>,
) -> Result<Dynamic<H>, EvalAltResult<H>>
    ensures same { source.new ≡ source.old }
    ensures takes { TakesBelow result (found (way_below link.entry session.now.fail_on_invalid_map_property) H.name_of (cells_of cells.now)
        source.old index.now) source.old }
{
    match spot_below(session, cells, source, index, link) {
        Ok(spot) => take_spot(session.alloc, source, spot, link.at),
        Err(error) => Err(error),
    }
}
