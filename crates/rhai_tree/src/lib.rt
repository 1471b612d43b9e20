//! The tree of a script, what makes it well formed and what passed; and the containers it is made of, which
//! contracts see as what they contain: a list as its items, a text as its bytes, a shared or boxed value as
//! the value. Two values that differ only in capacity or address are equal, so trees and values made of these
//! containers are plain data to a proof.
#![tactic(auto)]

mod boxed;
pub mod checked;
mod debug;
pub mod expr;
pub mod fault;
pub mod flags;
pub mod function;
mod items;
pub mod literal;
pub mod position;
mod shared;
pub mod signature;
mod table;
mod text;
pub mod token;

pub use boxed::Boxed;
pub use items::Items;
pub use shared::Shared;
pub use table::Table;
pub use text::Text;
