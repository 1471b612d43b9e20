//! What a chain is given besides its links.

use rhai_tree::expr::OpAssignment;
use rhai_values::base::value::Dynamic;

/// What an assignment gives: by an operator or as it is, and the value on the right.
#[derive(Drop)]
pub struct NewValue<H> {
    pub op: OpAssignment,
    pub value: Dynamic<H>,
}
