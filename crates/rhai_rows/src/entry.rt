//! The public calls of the evaluator that lines enter by themselves, each with the last statement of a script.

/// A public call of the evaluator.
#[derive(Clone, Copy, Debug, PartialEq, Eq)]
pub enum Entry {
    Expr,
    Argument,
    FnCallExpr,
    FunctionCall,
    QualifiedCall,
    Stmt,
    Block,
    Chain,
    OpAssignment,
    Namespace,
    Imports,
    Indexed,
    IndexerGet,
    IndexerSet,
    VariableMut,
    Operation,
    ChainType,
}

/// The names of the calls.
const NAMES: &[(&str, Entry)] = &[
    ("eval_expr", Entry::Expr),
    ("get_arg_value", Entry::Argument),
    ("eval_fn_call_expr", Entry::FnCallExpr),
    ("make_function_call", Entry::FunctionCall),
    ("make_qualified_function_call", Entry::QualifiedCall),
    ("eval_stmt", Entry::Stmt),
    ("eval_stmt_block", Entry::Block),
    ("eval_dot_index_chain", Entry::Chain),
    ("eval_op_assignment", Entry::OpAssignment),
    ("search_namespace", Entry::Namespace),
    ("search_imports", Entry::Imports),
    ("get_indexed_mut", Entry::Indexed),
    ("call_indexer_get", Entry::IndexerGet),
    ("call_indexer_set", Entry::IndexerSet),
    ("variable_mut", Entry::VariableMut),
    ("track_operation", Entry::Operation),
    ("ChainType::from", Entry::ChainType),
];

impl Entry {
    /// Finds the call of a name.
    pub fn named(name: &str) -> Option<Entry> {
        for known in NAMES {
            if known.0 == name {
                return Some(known.1);
            }
        }
        None
    }
}
