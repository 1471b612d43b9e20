//! Tables of natives from a list of them: a host lists its natives and says what each does with plain
//! values, and the law of tables holds of whatever it lists.
#![tactic(auto)]

mod arguments;
mod integers;
mod listed;
mod response;
mod table;

pub use arguments::Arguments;
pub use integers::Integers;
pub use listed::{Listed, ListedNatives};
pub use response::{Datum, Fault, Response};
pub use table::Natives;
