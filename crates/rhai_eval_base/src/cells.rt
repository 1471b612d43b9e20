//! The store of shared cells.

pub use rhai_values::cells::CellStore;
