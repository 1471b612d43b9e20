//! Calls.

mod arguments;
pub mod call;
mod captured;
pub mod dispatch;
pub mod method;
pub mod native;
pub mod script;
