//! Values, scopes, positions, tokens, the tree, errors, and the trait of host values.

pub use rhai_errors::error::{Bounds, EvalAltResult, FunctionCallError, TypeMismatch};
pub use rhai_state::scope::{Scope, ScopeEntry};
pub use rhai_tree::expr::{
    ConditionalExpr, Expr, FnCallExpr, Ident, MapEntry, Namespace, OpAssignment, RangeCase,
    SharedVariable, Stmt, StmtBlock, SwitchCase,
};
pub use rhai_tree::flags::ASTFlags;
pub use rhai_tree::function::FnAccess;
pub use rhai_tree::literal::{Literal, LiteralFnPtr, LiteralFnPtrKind, NativeId};
pub use rhai_tree::position::Position;
pub use rhai_tree::token::Token;
pub use rhai_tree::{Boxed, Items, Shared, Table, Text};
pub use rhai_values::base::hashable::literal_equals;
pub use rhai_values::base::literal::literal_value;
pub use rhai_values::base::size::{DataSizes, SizeFault};
pub use rhai_values::base::value::{AccessMode, CellId, Dynamic, FnPtr, FnPtrKind, Host, Union};
