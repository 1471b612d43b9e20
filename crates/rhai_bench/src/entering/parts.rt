//! Which part of a statement a call is entered with.

ghost use Rattle.std.specs.Prelude.{◌≡◌, is_some};
ghost use Rattle.rhai_tree.specs.declared.expr.Expr.{out-Expr};
ghost use Rattle.rhai_tree.specs.Frame.{resolves_call, resolves_expr, resolves_stmt, target_resolves, tests_of};
ghost use Rattle.rhai_machine.specs.language.Links.{first_in};
ghost use Rattle.rhai_steps.specs.Callers.{AgreesAt};
ghost use Rattle.rhai_steps.specs.Agreement.{passes};
ghost use Rattle.rhai_values.specs.Cells.{IsNoHandle};
ghost use Rattle.rhai_eval.specs.Chains.{AssignsNoHandle, chain_resolves};

use crate::entering::host::{Answer, Host, no_part, value_of};
use rhai_call_forms::arguments::split_first;
use rhai_eval::base::{Dynamic, Expr, FnCallExpr, OpAssignment, Position, Stmt, Union};
use rhai_eval::eval::chaining::ChainType;
use rhai_names::variables::is_plain;
use rhai_rows::entry::Entry;
use rhai_tables::host::Pair;
use std::alloc::Global;

/// Enters a call with what a statement has for it.
pub(crate) fn enter_part(host: &mut Host, alloc: Global, entry: Entry, stmt: &Stmt) -> Answer
    requires { AgreesAt host.old.global host.old.scope (passes (resolves_stmt stmt.now)) }
{
    if entry == Entry::Stmt {
        return host.run(alloc, stmt);
    }
    match stmt {
        Stmt::Block(block) => host.run_list(alloc, block.statements.as_slice(), true),
        Stmt::Expr(expr) => enter_expr(host, alloc, entry, expr),
        Stmt::FnCall(call, pos) => enter_call(host, alloc, entry, call, *pos),
        Stmt::Assignment(op, lhs, rhs) => {
            enter_assignment(host, alloc, entry, op, lhs, literal(rhs))
        }
        _ => no_part(),
    }
}

/// Returns the value of an integer that is written, `()` for anything else.
fn literal(expr: &Expr) -> Dynamic<Pair>
    ensures { IsNoHandle result.value }
{
    match expr {
        Expr::IntegerConstant(number, _) => Dynamic::new(Union::Int(*number)),
        _ => Dynamic::new(Union::Unit),
    }
}

/// Evaluates an expression.
fn eval(host: &mut Host, alloc: Global, expr: &Expr) -> Answer
    requires { AgreesAt host.old.global host.old.scope (resolves_expr expr.now) }
{
    host.caches.clear();
    host.engine.eval_expr(
        alloc,
        &mut host.global,
        &mut host.caches,
        &mut host.table,
        &mut host.scope,
        Some(&mut host.this),
        expr,
    )
}

/// Evaluates an argument.
fn eval_argument(host: &mut Host, alloc: Global, expr: &Expr) -> Answer
    requires { AgreesAt host.old.global host.old.scope (resolves_expr expr.now) }
{
    host.caches.clear();
    let argument = host.engine.get_arg_value(
        alloc,
        &mut host.global,
        &mut host.caches,
        &mut host.table,
        &mut host.scope,
        Some(&mut host.this),
        expr,
    );
    value_of(argument)
}

/// Enters a call with an expression.
fn enter_expr(host: &mut Host, alloc: Global, entry: Entry, expr: &Expr) -> Answer
    requires { AgreesAt host.old.global host.old.scope (resolves_expr expr.now) }
{
    match entry {
        Entry::Expr => eval(host, alloc, expr),
        Entry::Argument => eval_argument(host, alloc, expr),
        Entry::Chain => enter_chain(host, alloc, expr, None),
        Entry::Namespace => host.search(alloc, expr, None),
        Entry::Operation => host.charge(expr.start_position()),
        Entry::ChainType => Ok(Dynamic::new(Union::Bool(
            ChainType::from(expr) == ChainType::Indexing,
        ))),
        Entry::Indexed | Entry::IndexerGet | Entry::IndexerSet => {
            let value = eval(host, alloc, expr)?;
            enter_index(host, alloc, entry, value)
        }
        _ => match expr {
            Expr::FnCall(call, pos) => enter_call(host, alloc, entry, call, *pos),
            _ => no_part(),
        },
    }
}

/// Enters a call with the items of an array.
fn enter_index(host: &mut Host, alloc: Global, entry: Entry, value: Dynamic<Pair>) -> Answer {
    let mut value = value;
    let answer = match &mut value.value {
        Union::Array(items) => host.index(alloc, entry, items.get_mut().as_mut_slice()),
        _ => no_part(),
    };
    drop(value);
    answer
}

/// Enters a call with a call that is written.
fn enter_call(
    host: &mut Host,
    alloc: Global,
    entry: Entry,
    call: &FnCallExpr,
    pos: Position,
) -> Answer
    requires { AgreesAt host.old.global host.old.scope (resolves_call call.now pos) }
{
    host.caches.clear();
    match entry {
        Entry::FnCallExpr => host.engine.eval_fn_call_expr(
            alloc,
            &mut host.global,
            &mut host.caches,
            &mut host.table,
            &mut host.scope,
            Some(&mut host.this),
            call,
            pos,
        ),
        Entry::FunctionCall => {
            let (first, rest) = split_first(call.args.as_slice());
            host.engine.make_function_call(
                alloc,
                &mut host.global,
                &mut host.caches,
                &mut host.table,
                &mut host.scope,
                Some(&mut host.this),
                call.name.get().as_str(),
                call.op_token.as_ref(),
                first,
                rest,
                call.capture_parent_scope,
                pos,
            )
        }
        Entry::QualifiedCall if !is_plain(&call.namespace) => host
            .engine
            .make_qualified_function_call(
                alloc,
                &mut host.global,
                &mut host.caches,
                &mut host.table,
                &mut host.scope,
                Some(&mut host.this),
                &call.namespace,
                call.name.get().as_str(),
                call.args.as_slice(),
                pos,
            ),
        _ => no_part(),
    }
}

/// Enters a call with the left side of an assignment and a value.
fn enter_assignment(
    host: &mut Host,
    alloc: Global,
    entry: Entry,
    op: &OpAssignment,
    lhs: &Expr,
    value: Dynamic<Pair>,
) -> Answer
    requires resolves { AgreesAt host.old.global host.old.scope (target_resolves (tests_of lhs.now)) }
    requires value { IsNoHandle value.value }
{
    match entry {
        Entry::Chain => enter_chain(host, alloc, lhs, Some((value, op))),
        Entry::OpAssignment => host.assign(alloc, op, lhs, value),
        Entry::VariableMut => host.write(lhs, value),
        _ => host.search(alloc, lhs, Some(value)),
    }
}

/// Evaluates a chain, or assigns to what it leads to.
fn enter_chain(
    host: &mut Host,
    alloc: Global,
    expr: &Expr,
    new: Option<(Dynamic<Pair>, &OpAssignment)>,
) -> Answer
    requires resolves { AgreesAt host.old.global host.old.scope (chain_resolves (is_some new) expr.now) }
    requires value { AssignsNoHandle new }
{
    if !is_chain(expr) {
        drop(new);
        return no_part();
    }
    host.caches.clear();
    host.engine.eval_dot_index_chain(
        alloc,
        &mut host.global,
        &mut host.caches,
        &mut host.table,
        &mut host.scope,
        Some(&mut host.this),
        expr,
        new,
    )
}

fn is_chain(expr: &Expr) -> bool
    ensures { result ≡ is_some (first_in (out-Expr expr.now)) }
{
    matches!(expr, Expr::Index(..) | Expr::Dot(..))
}
