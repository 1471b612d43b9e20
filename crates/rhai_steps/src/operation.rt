//! What a call is told by: its name, the operator that wrote it, and where it stands.

use rhai_tree::position::Position;
use rhai_tree::token::Token;

/// A call's name, the operator that wrote it, if one did, and its position. Stands for the machine's record of that
/// name.
#[derive(Clone, Copy)]
pub struct Operation<'a> {
    pub name: &'a str,
    pub token: Option<Token>,
    pub at: Position,
}
