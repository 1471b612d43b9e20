//! A script evaluator, by the names that a host uses: what trees are built of, their checker, values, scopes
//! and errors, the engine and its runs, and tables of natives. It only shows what the crates below it have,
//! but for a host's first needs: a type of values and a table for a host that has none of its own.
#![tactic(auto)]

mod no_host;
mod no_natives;

pub use no_host::NoHost;
pub use no_natives::{NoNative, NoNatives};

// Trees, and how they are built.
pub use rhai_build::choices::{result_always, result_if, throw_stmt, try_catching, try_stmt};
pub use rhai_build::expressions::{MapParts, character, int, this, truth, unit};
pub use rhai_build::functions::{TreeParts, script_function};
pub use rhai_build::statements::{
    assign, break_stmt, continue_stmt, do_until, do_while, if_stmt, loop_stmt, no_block,
    return_stmt, while_stmt,
};
pub use rhai_build::{Builder, at, list, no_namespace};
pub use rhai_eval::base::{
    ASTFlags, ConditionalExpr, Expr, FnCallExpr, Ident, Literal, LiteralFnPtr, LiteralFnPtrKind,
    MapEntry, Namespace, NativeId, OpAssignment, Position, RangeCase, SharedVariable, Stmt,
    StmtBlock, SwitchCase, Token,
};

// The checker.
pub use rhai_eval::check::{CheckFault, CheckedFn, CheckedTree, check_function, check_tree};

// Values, scopes and errors.
pub use rhai_eval::base::{
    AccessMode, Bounds, Boxed, CellId, Dynamic, EvalAltResult, FnPtr, FnPtrKind, FunctionCallError,
    Host, Items, Scope, ScopeEntry, Shared, Table, Text, TypeMismatch, Union,
};
pub use rhai_eval::cells::CellStore;

// Runs.
pub use rhai_eval::engine::Engine;
pub use rhai_eval::script::{
    EncapsulatedEnviron, FnAccess, FnKey, ScriptFnMetadata, ScriptFuncDef, ScriptFuncPayload,
    environ_of, metadata_of,
};
pub use rhai_eval::state::{
    Caches, GlobalRuntimeState, Import, Limits, Module, ModuleFn, ModuleTable,
};
pub use rhai_eval::target::{Part, Target};
pub use rhai_library::{function_of, library_of};

// Natives.
pub use rhai_eval::table::{Answer, NativeTable, builtin_binary, builtin_op_assign, builtin_unary};
pub use rhai_natives::{
    Arguments, Datum, Fault, Integers, Listed, ListedNatives, Natives, Response,
};
