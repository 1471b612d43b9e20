//! A member of a value that natives get and set.

use rhai_tree::position::Position;
use rhai_tree::{Shared, Text};
use rhai_values::base::value::Dynamic;

/// What natives get and set in a value.
#[derive(Drop)]
pub enum Member<'a, H> {
    /// A property, by its name.
    Property(&'a Shared<Text>, Position),
    /// An item, by an index of any type.
    Item(Dynamic<H>),
}

/// How a member is got and set.
#[derive(Drop)]
pub struct MemberAccess<'a, H> {
    pub member: Member<'a, H>,
    /// The operator.
    pub at: Position,
    /// A constant is kept from a native that is not pure.
    pub guarded: bool,
}
