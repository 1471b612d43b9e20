//! Tables of natives: the functions that a host offers to its scripts.

ghost use Rattle.std.specs.Prelude.{◌≡◌};

use crate::error::EvalAltResult;
use rhai_tree::literal::NativeId;
use rhai_tree::position::Position;
use rhai_values::base::value::{Dynamic, Host};
use rhai_values::cells::CellStore;

/// What a native answers.
#[derive(Drop)]
pub enum Answer<H> {
    /// There is no such native.
    Missing,
    Value(Dynamic<H>),
    Fault(EvalAltResult<H>),
    NoMemory,
}

/// A host's natives. A call is a function of the table's state, the native, the position, the arguments
/// and the cells that they reach, unless memory runs out. Each implementation proves once the law of that
/// function.
pub trait NativeTable<H: Host> {
    ghost use Rattle.rhai_values.specs.Cells.{cells_of};
    ghost use Rattle.rhai_errors.specs.Native.{Natives, OfName, OfNumber, Named, Numbered, Obeys};
    ghost use Rattle.rhai_errors.specs.Native.{HasNoHandle, Lawful, Leaves, reply_of, request, lent_value};
    ghost use Rattle.rhai_errors.specs.Native.{left_by};

    /// The state of the table as far as it shows.
    ghost State: { Type 0 };

    ghost state: { Self → State };

    /// What a call does, which natives change nothing, and which cells, script functions and tables of
    /// constants stand in a state and in a value of the host's own type.
    ghost natives: { Natives State H };

    /// Calls a native by its name. Asked: the first argument is no bare handle of a cell.
    fn call(
        &mut self,
        cells: &CellStore<H>,
        name: &str,
        first: Option<&mut Dynamic<H>>,
        rest: &[Dynamic<H>],
        position: Position,
    ) -> Answer<H>
        requires { HasNoHandle (lent_value first) }
        ensures obeys { Obeys (natives.gives (state self.old)
            (request (cells_of cells.now) (Named name.now) (lent_value first.entry) rest.now position))
            (reply_of result) (left_by first.exit) (state self.new) }
        ensures no_handle { HasNoHandle (left_by first.exit) }
        ensures leaves { Leaves H.name_of natives (state self.old)
            (request (cells_of cells.now) (Named name.now) (lent_value first.entry) rest.now position)
            (left_by first.exit) (state self.new) };

    /// Calls a native by its number. Asked: the first argument is no bare handle of a cell.
    fn call_numbered(
        &mut self,
        cells: &CellStore<H>,
        id: NativeId,
        first: Option<&mut Dynamic<H>>,
        rest: &[Dynamic<H>],
        position: Position,
    ) -> Answer<H>
        requires { HasNoHandle (lent_value first) }
        ensures obeys { Obeys (natives.gives (state self.old)
            (request (cells_of cells.now) (Numbered id.number) (lent_value first.entry) rest.now position))
            (reply_of result) (left_by first.exit) (state self.new) }
        ensures no_handle { HasNoHandle (left_by first.exit) }
        ensures leaves { Leaves H.name_of natives (state self.old)
            (request (cells_of cells.now) (Numbered id.number) (lent_value first.entry) rest.now position)
            (left_by first.exit) (state self.new) };

    /// Tells whether a native of a name changes nothing, by its first argument's type and the number of
    /// its arguments. The type is the empty text where there is no first argument.
    fn is_pure(&self, name: &str, first_type: &str, count: usize) -> bool
        ensures { result ≡ natives.pure (state self.now) (OfName name.now first_type.now count) };

    /// Tells whether a native of a number changes nothing.
    fn is_pure_numbered(&self, id: NativeId) -> bool
        ensures { result ≡ natives.pure (state self.now) (OfNumber id.number) };

    ghost lawful: { Lawful H.name_of natives };
}
