//! Tables of natives, and the built-in operators.

pub use rhai_errors::table::{Answer, NativeTable};
pub use rhai_operators::{builtin_binary, builtin_op_assign, builtin_unary};
