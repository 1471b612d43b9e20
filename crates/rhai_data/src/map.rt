//! A map while it is made, one entry after the other. Ports the map literal of upstream's
//! `eval/expr.rs`.

ghost use Rattle.std.specs.Prelude.{◌≡◌, List, [], ◌∷◌, ◌++◌, IfOk, IsTrue, Ok, Err, false, map};
ghost use Rattle.rhai_tree.specs.Keys.{key_of};
ghost use Rattle.rhai_tree.specs.Positions.{position_of};
ghost use Rattle.rhai_values.specs.Cells.{cells_of};
ghost use Rattle.rhai_values.specs.declared.base.value.Dynamic.{Dynamic};
ghost use Rattle.rhai_errors.specs.Errors.{is_out_of_memory};
ghost use Rattle.rhai_machine.specs.language.Data.{entry_sizes, filled, map_of, with_value as value_added};
ghost use Rattle.rhai_machine.specs.language.State.{Answers};
ghost use Rattle.rhai_machine.specs.language.Values.{flat};
ghost use Rattle.rhai_context.specs.Ends.{came, error_in};
ghost use Rattle.rhai_data.specs.Maps.{IsCounted};

use rhai_context::ends::{put, stop, take_value};
use rhai_context::outcomes::flatten_at;
use rhai_errors::error::EvalAltResult;
use rhai_errors::errors::data_too_large;
use rhai_state::session::Session;
use rhai_tree::expr::{Expr, MapEntry};
use rhai_tree::position::Position;
use rhai_tree::{Boxed, Items, Table};
use rhai_values::base::size::DataSizes;
use rhai_values::base::value::{Dynamic, Host, Union};
use rhai_values::cells::CellStore;
use std::alloc::{AllocError, Global};

/// The values of a map's entries, in the order of the entries, and how much data the map has.
pub struct EntryValues<H> {
    pub values: Items<Dynamic<H>>,
    pub sizes: DataSizes,
}

// Written by hand, as that of a value is.
impl<H: Drop> Drop for EntryValues<H> {
    fn drop(self) {
        let EntryValues {
            values: _,
            sizes: _,
        } = self;
    }
}

/// Counts how much data a map has with one entry more.
fn with_value<H: Host>(sizes: DataSizes, value: &Dynamic<H>) -> DataSizes
    ensures { (values : List (Dynamic H)) → sizes ≡ entry_sizes values →
        result ≡ entry_sizes (values ++ value.now ∷ []) }
{
    sizes
        .joined(value.data_sizes())
        .joined(DataSizes::of_maps(1))
}

/// Makes the table of some entries' keys with their values.
fn filled<H: Host>(
    alloc: Global,
    entries: &[MapEntry],
    values: Items<Dynamic<H>>,
) -> Result<Table<Dynamic<H>>, AllocError>
    ensures { IfOk result (λ table. table ≡ filled (map key_of entries.now) values ([], [])) }
{
    let mut table = Table::new(alloc);
    let mut rest = values.into_vec().into_iter();
    'each: for entry in entries {
        let Some(value) = rest.next() else {
            return Ok(table);
        };
        table.insert(entry.key.share()?, value)?;
    }
    Ok(table)
}

impl<H: Host> EntryValues<H> {
    /// Begins a map without values. It takes no memory.
    pub fn new(alloc: Global) -> EntryValues<H>
        ensures values { result.values ≡ [] }
        ensures counted { IsCounted result }
    {
        EntryValues {
            values: Items::new(alloc),
            sizes: DataSizes::none(),
        }
    }

    /// Adds the value of a run, flattened, as that of the next entry. Tells whether it went well; an error is
    /// left in `place`. Its data is added to what was counted before, so that no value is counted twice.
    ///
    /// # Errors
    /// Both at the value: `ErrorDataRace` for a handle whose cell is held, `ErrorDataTooLarge` where the
    /// map is above a limit with it. The values stay then.
    pub fn add(
        &mut self,
        session: &Session<'_, H>,
        cells: &CellStore<H>,
        out: &mut Dynamic<H>,
        place: &mut Option<EvalAltResult<H>>,
        item: &Expr,
    ) -> bool
        requires counted { IsCounted self.old }
        ensures counted { IsCounted self.new }
        ensures added { IsTrue result → value_added session.now.limits self.old.values
            (flat (cells_of cells.now) out.old (position_of item.now)) (position_of item.now)
            ≡ Ok self.new.values }
        ensures refused { result ≡ false → is_out_of_memory (error_in place.new) ≡ false →
            value_added session.now.limits self.old.values (flat (cells_of cells.now) out.old (position_of item.now))
            (position_of item.now) ≡ Err (error_in place.new) }
        ensures same { result ≡ false → self.new ≡ self.old }
    {
        if !flatten_at(session.alloc, cells, out, place, item) {
            return false;
        }
        let sizes = with_value(self.sizes, &*out);
        if let Some(fault) = sizes.exceeds(
            session.limits.max_string_size,
            session.limits.max_array_size,
            session.limits.max_map_size,
        ) {
            return stop(place, data_too_large(session.alloc, fault, item.position()));
        }
        match self.values.push(take_value(out)) {
            Ok(()) => {
                self.sizes = sizes;
                true
            }
            Err(_) => stop(place, EvalAltResult::ErrorOutOfMemory(item.position())),
        }
    }

    /// Makes the map of the entries' keys with the values the value of a run. Tells whether there was memory
    /// for it; else the error is left in `place`.
    pub fn finish(
        self,
        alloc: Global,
        out: &mut Dynamic<H>,
        place: &mut Option<EvalAltResult<H>>,
        entries: &[MapEntry],
        pos: Position,
    ) -> bool
        ensures { Answers (came result out.new place.new) (Ok (map_of (map key_of entries.now) self.values)) }
    {
        let EntryValues { values, sizes: _ } = self;
        match make_map(alloc, entries, values) {
            Ok(value) => {
                put(out, value);
                true
            }
            Err(AllocError) => stop(place, EvalAltResult::ErrorOutOfMemory(pos)),
        }
    }
}

/// Makes the map of some entries as a value.
fn make_map<H: Host>(
    alloc: Global,
    entries: &[MapEntry],
    values: Items<Dynamic<H>>,
) -> Result<Dynamic<H>, AllocError>
    ensures { IfOk result (λ value. value ≡ map_of (map key_of entries.now) values) }
{
    let table = filled(alloc, entries, values)?;
    Ok(Dynamic::new(Union::Map(Boxed::new(alloc, table)?)))
}
