//! Names of the types of values.

ghost use Rattle.std.specs.Prelude.{◌≡◌};
ghost use Rattle.rhai_values.specs.Cells.{cells_of};
ghost use Rattle.rhai_values.specs.TypeNames.{own_type_name as name_of_own_type, type_name_of};

use crate::base::value::{Dynamic, Host, Union};
use crate::cells::CellStore;

impl<H: Host> Dynamic<H> {
    /// Returns the name of the value's type. For a handle it is that of its cell's value, and the empty
    /// text where the cell is held or unknown. Ports upstream's `Dynamic::type_name`.
    pub fn type_name<'a>(&'a self, cells: &'a CellStore<H>) -> &'a str
        ensures { result.now ≡ type_name_of H.name_of (cells_of cells.now) self.now }
    {
        match &self.value {
            Union::Cell(id) => match cells.get(*id) {
                Some(shared) => own_type_name(&shared.value),
                None => "",
            },
            value => own_type_name(value),
        }
    }

    /// Returns the name of the value's type without a look at the cells: the empty text for a handle.
    pub fn own_type_name(&self) -> &str
        ensures { result.now ≡ name_of_own_type H.name_of self.now.value }
    {
        own_type_name(&self.value)
    }
}

/// Returns the name of a value's own type, and the empty text for a handle.
fn own_type_name<H: Host>(value: &Union<H>) -> &str
    ensures { result.now ≡ name_of_own_type H.name_of value.now }
{
    match value {
        Union::Unit => "()",
        Union::Bool(_) => "bool",
        Union::Int(_) => "i64",
        Union::Char(_) => "char",
        Union::Str(_) => "string",
        Union::ExclusiveRange(..) => "range",
        Union::InclusiveRange(..) => "range=",
        Union::Array(_) => "array",
        Union::Blob(_) => "blob",
        Union::Map(_) => "map",
        Union::FnPtr(_) => "Fn",
        Union::Host(host) => host.get().type_name(),
        Union::Cell(_) => "",
    }
}
