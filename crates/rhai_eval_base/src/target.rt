//! What an index leads to, and the arithmetic of indexing.

pub use rhai_places::indexing::get_indexed_mut;
pub use rhai_places::target::Target;
pub use rhai_spots::part::Part;
pub use rhai_spots::spot::Access;
