//! An array while it is made, one item after the other. Ports the array literal of upstream's
//! `eval/expr.rs`.

ghost use Rattle.std.specs.Prelude.{◌≡◌, List, [], ◌∷◌, ◌++◌, IsTrue, Ok, Err, false};
ghost use Rattle.rhai_tree.specs.Positions.{position_of};
ghost use Rattle.rhai_values.specs.Cells.{cells_of};
ghost use Rattle.rhai_values.specs.DataSize.{data_sizes};
ghost use Rattle.rhai_values.specs.declared.base.value.Dynamic.{Dynamic};
ghost use Rattle.rhai_errors.specs.Errors.{is_out_of_memory};
ghost use Rattle.rhai_machine.specs.language.Data.{array_of, with_item as item_added};
ghost use Rattle.rhai_machine.specs.language.State.{Answers};
ghost use Rattle.rhai_machine.specs.language.Values.{flat};
ghost use Rattle.rhai_context.specs.Ends.{came, error_in};
ghost use Rattle.rhai_data.specs.Arrays.{IsMeasured};

use rhai_context::ends::{put, stop, take_value};
use rhai_context::outcomes::flatten_at;
use rhai_errors::error::EvalAltResult;
use rhai_errors::errors::data_too_large;
use rhai_state::session::Session;
use rhai_tree::expr::Expr;
use rhai_tree::position::Position;
use rhai_tree::{Boxed, Items};
use rhai_values::base::size::DataSizes;
use rhai_values::base::value::{Dynamic, Host, Union};
use rhai_values::cells::CellStore;
use std::alloc::Global;

/// The items of an array that is being made, and how much data the array has.
pub struct ArrayItems<H> {
    pub items: Items<Dynamic<H>>,
    pub sizes: DataSizes,
}

// Written by hand, as that of a value is.
impl<H: Drop> Drop for ArrayItems<H> {
    fn drop(self) {
        let ArrayItems { items: _, sizes: _ } = self;
    }
}

/// Counts how much data an array has with one item more.
fn with_item<H: Host>(sizes: DataSizes, item: &Dynamic<H>) -> DataSizes
    ensures { (items : List (Dynamic H)) → sizes ≡ data_sizes (array_of items) →
        result ≡ data_sizes (array_of (items ++ item.now ∷ [])) }
{
    sizes
        .joined(item.data_sizes())
        .joined(DataSizes::of_arrays(1))
}

impl<H: Host> ArrayItems<H> {
    /// Begins an array without items. It takes no memory.
    pub fn new(alloc: Global) -> ArrayItems<H>
        ensures items { result.items ≡ [] }
        ensures measured { IsMeasured result }
    {
        ArrayItems {
            items: Items::new(alloc),
            sizes: DataSizes::none(),
        }
    }

    /// Adds the value of a run, flattened, as one item more. Tells whether it went well; an error is left in
    /// `place`. Its data is added to what was counted before, so that no item is counted twice.
    ///
    /// # Errors
    /// Both at the item: `ErrorDataRace` for a handle whose cell is held, `ErrorDataTooLarge` where the
    /// array is above a limit with it. The items stay then.
    pub fn add(
        &mut self,
        session: &Session<'_, H>,
        cells: &CellStore<H>,
        out: &mut Dynamic<H>,
        place: &mut Option<EvalAltResult<H>>,
        item: &Expr,
    ) -> bool
        requires measured { IsMeasured self.old }
        ensures measured { IsMeasured self.new }
        ensures added { IsTrue result → item_added session.now.limits self.old.items
            (flat (cells_of cells.now) out.old (position_of item.now)) (position_of item.now)
            ≡ Ok self.new.items }
        ensures refused { result ≡ false → is_out_of_memory (error_in place.new) ≡ false →
            item_added session.now.limits self.old.items (flat (cells_of cells.now) out.old (position_of item.now))
            (position_of item.now) ≡ Err (error_in place.new) }
        ensures same { result ≡ false → self.new ≡ self.old }
    {
        if !flatten_at(session.alloc, cells, out, place, item) {
            return false;
        }
        let sizes = with_item(self.sizes, &*out);
        if let Some(fault) = sizes.exceeds(
            session.limits.max_string_size,
            session.limits.max_array_size,
            session.limits.max_map_size,
        ) {
            return stop(place, data_too_large(session.alloc, fault, item.position()));
        }
        match self.items.push(take_value(out)) {
            Ok(()) => {
                self.sizes = sizes;
                true
            }
            Err(_) => stop(place, EvalAltResult::ErrorOutOfMemory(item.position())),
        }
    }

    /// Makes the array the value of a run. Tells whether there was memory for it; else the error is left in
    /// `place`.
    pub fn finish(
        self,
        alloc: Global,
        out: &mut Dynamic<H>,
        place: &mut Option<EvalAltResult<H>>,
        pos: Position,
    ) -> bool
        ensures { Answers (came result out.new place.new) (Ok (array_of self.items)) }
    {
        let ArrayItems { items, sizes: _ } = self;
        match Boxed::new(alloc, items) {
            Ok(items) => {
                put(out, Dynamic::new(Union::Array(items)));
                true
            }
            Err(_) => stop(place, EvalAltResult::ErrorOutOfMemory(pos)),
        }
    }
}
