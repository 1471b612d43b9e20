//! What an index finds in a value.

use rhai_errors::error::Bounds;
use rhai_tree::position::Position;

/// Where an index leads in a value.
#[derive(Clone, Copy, Debug, PartialEq, Eq)]
pub enum Spot {
    /// An item of an array.
    Item(usize),
    /// The value of a map at a position in the order of the keys.
    Value(usize),
    /// A key that a map does not have.
    Missing,
    /// A byte of a blob.
    Byte(usize),
    /// A bit of an integer, counted from the lowest.
    Bit(usize),
    /// The bits of an integer from one up to another.
    BitField(usize, usize),
    /// A character of a text.
    Char(usize),
    /// The characters of a text from one up to another.
    Slice(usize, usize),
}

/// Why an index finds nothing in a value.
#[derive(Clone, Copy, Debug, PartialEq, Eq)]
pub enum Refusal {
    /// The index is outside an array or a blob.
    ArrayBounds(Bounds),
    /// The index is outside the bits of an integer.
    BitFieldBounds(Bounds),
    /// The index is outside a text.
    StringBounds(Bounds),
    /// The index ought to be an integer.
    WantsInteger,
    /// The index ought to be a text.
    WantsText,
    /// The value is not of a kind that is indexed here.
    NotIndexed,
}

/// How a value is indexed.
#[derive(Clone, Copy, Debug, PartialEq, Eq)]
pub struct Access {
    /// The start of the index or the property.
    pub idx_pos: Position,
    /// The operator.
    pub op_pos: Position,
    /// Whether a key that a map does not have is inserted.
    pub add_if_not_found: bool,
    /// Whether a key that a map does not have is an error, where it is not inserted.
    pub fail_on_invalid_map_property: bool,
}
