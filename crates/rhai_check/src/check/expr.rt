//! The checker's walk over expressions.

ghost use Rattle.std.specs.Prelude.{◌≡◌, [], IsTrue, IfErr, OnOk, map, length, option_map, true};
ghost use Rattle.rhai_check.specs.Around.{above, around};
ghost use Rattle.rhai_check.specs.MemoryNeeds.{in_option, any_need, needs_of, expr_needs_memory, call_needs_memory};
ghost use Rattle.rhai_tree.specs.Forms.{is_eval_call, is_unqualified};
ghost use Rattle.rhai_tree.specs.Frame.{tests_of, resolves_expr, resolves_call, target_resolves};
ghost use Rattle.rhai_tree.specs.Frame.{option_resolves, all_resolve_exprs, entries_resolve, map_resolves};
ghost use Rattle.rhai_tree.specs.Frame.{tests_of_entry};
ghost use Rattle.rhai_tree.specs.Names.{Frame};
ghost use Rattle.rhai_check.specs.Refusals.{Refuses};
ghost use Rattle.rhai_tree.specs.WellFormed.{seen_expr, seen_call, target_faults, faults_in_option};
ghost use Rattle.rhai_tree.specs.WellFormed.{faults_in_all, faults_in_entries, faults_in_map, seen_entry};

use crate::check::CheckFault;
use crate::check::chain::{
    check_behind_bracket, check_behind_dot, count_links, ends_chain, ends_in_method, is_root,
};
use crate::check::declared::Declared;
use crate::check::keys::has_keys;
use crate::check::names::{check_variable, has_good_index};
use crate::check::place::Place;
use crate::check::stmt::check_block;
use rhai_tree::Table;
use rhai_tree::expr::{Expr, FnCallExpr, MapEntry};
use rhai_tree::literal::Literal;
use rhai_tree::position::Position;

/// Passes an expression, or answers one of its faults.
#[cycle(check)]
pub(crate) fn check_expr(
    declared: &mut Declared,
    place: Place,
    expr: &Expr,
) -> Result<(), CheckFault>
    ensures same { OnOk result (declared.new ≡ declared.old) }
    ensures exact { OnOk result ((seen_expr expr.now).value (around declared.old place) ≡ []) }
    ensures resolved { OnOk result ((base : Frame) → IsTrue
        (resolves_expr expr.now (above base declared.old))) }
    ensures refused { IfErr result (λ fault. Refuses ((seen_expr expr.now).value (around declared.old place))
        (expr_needs_memory expr.now) fault) }
{
    match expr {
        Expr::DynamicConstant(_, _) => Ok(()),
        Expr::BoolConstant(_, _) => Ok(()),
        Expr::IntegerConstant(_, _) => Ok(()),
        Expr::CharConstant(_, _) => Ok(()),
        Expr::StringConstant(_, _) => Ok(()),
        Expr::Unit(_) => Ok(()),
        Expr::ThisPtr(_) => Ok(()),
        Expr::InterpolatedString(parts, _) => check_exprs(declared, place, parts.as_slice()),
        Expr::Array(items, _) => check_exprs(declared, place, items.as_slice()),
        Expr::Variable {
            offset,
            name,
            namespace,
            pos,
        } => check_variable(declared, *offset, name.get(), namespace, *pos),
        Expr::Map(entries, template, pos) => {
            check_map(declared, place, entries.as_slice(), template, *pos)
        }
        Expr::FnCall(call, pos) => check_call(declared, place, call, *pos),
        Expr::Stmt(block) => check_block(declared, place, block),
        Expr::And(parts, _) => check_exprs(declared, place, parts.as_slice()),
        Expr::Or(parts, _) => check_exprs(declared, place, parts.as_slice()),
        Expr::Coalesce(parts, _) => check_exprs(declared, place, parts.as_slice()),
        Expr::Property(_, pos) | Expr::MethodCall(_, pos) => Err(CheckFault::NotAnExpression(*pos)),
        Expr::Dot(lhs, rhs, options, pos) => {
            count_links(declared.allocator(), expr)?;
            check_expr(declared, place, lhs.get())?;
            check_behind_dot(declared, place, rhs.get(), ends_chain(*options), *pos)
        }
        Expr::Index(lhs, rhs, options, _) => {
            count_links(declared.allocator(), expr)?;
            check_expr(declared, place, lhs.get())?;
            check_behind_bracket(declared, place, rhs.get(), ends_chain(*options))
        }
    }
}

/// Passes a list of expressions, or answers one of their faults.
#[cycle(check)]
pub(crate) fn check_exprs(
    declared: &mut Declared,
    place: Place,
    exprs: &[Expr],
) -> Result<(), CheckFault>
    ensures same { OnOk result (declared.new ≡ declared.old) }
    ensures exact { OnOk result (faults_in_all (map seen_expr exprs.now) (around declared.old place) ≡ []) }
    ensures resolved { OnOk result ((base : Frame) → IsTrue
        (all_resolve_exprs (map tests_of exprs.now) (above base declared.old))) }
    ensures refused { IfErr result (λ fault. Refuses (faults_in_all (map seen_expr exprs.now)
        (around declared.old place)) (any_need (map needs_of exprs.now)) fault) }
{
    'each: for expr in exprs {
        check_expr(declared, place, expr)?;
    }
    Ok(())
}

/// Passes a map, or answers one of its faults.
#[cycle(check)]
fn check_map(
    declared: &mut Declared,
    place: Place,
    entries: &[MapEntry],
    template: &Table<Literal>,
    pos: Position,
) -> Result<(), CheckFault>
    ensures same { OnOk result (declared.new ≡ declared.old) }
    ensures exact { OnOk result (faults_in_map (map seen_entry entries.now) template.now.0 pos
        (around declared.old place) ≡ []) }
    ensures resolved { OnOk result ((base : Frame) → IsTrue
        (map_resolves (map tests_of_entry entries.now) template.now.0 pos (above base declared.old))) }
    ensures refused { IfErr result (λ fault. Refuses (faults_in_map (map seen_entry entries.now)
        template.now.0 pos (around declared.old place)) true fault) }
{
    match has_keys(declared.allocator(), entries, template) {
        Err(_) => Err(CheckFault::NoMemory),
        Ok(false) => Err(CheckFault::BadMapKey(pos)),
        Ok(true) => check_entries(declared, place, entries),
    }
}

/// Passes the values of a map's entries, or answers one of their faults.
#[cycle(check)]
fn check_entries(
    declared: &mut Declared,
    place: Place,
    entries: &[MapEntry],
) -> Result<(), CheckFault>
    ensures same { OnOk result (declared.new ≡ declared.old) }
    ensures exact { OnOk result (faults_in_entries (map seen_entry entries.now)
        (around declared.old place) ≡ []) }
    ensures resolved { OnOk result ((base : Frame) → IsTrue
        (entries_resolve (map tests_of_entry entries.now) (above base declared.old))) }
    ensures refused { IfErr result (λ fault. Refuses (faults_in_entries (map seen_entry entries.now)
        (around declared.old place)) true fault) }
{
    'each: for entry in entries {
        check_expr(declared, place, &entry.value)?;
    }
    Ok(())
}

/// Passes an expression that may be left out, or answers one of its faults.
#[cycle(check)]
pub(crate) fn check_option(
    declared: &mut Declared,
    place: Place,
    expr: &Option<Expr>,
) -> Result<(), CheckFault>
    ensures same { OnOk result (declared.new ≡ declared.old) }
    ensures exact { OnOk result (faults_in_option (option_map seen_expr expr.now) (around declared.old place)
        ≡ []) }
    ensures resolved { OnOk result ((base : Frame) → IsTrue
        (option_resolves (option_map tests_of expr.now) (above base declared.old))) }
    ensures refused { IfErr result (λ fault. Refuses (faults_in_option (option_map seen_expr expr.now)
        (around declared.old place)) (in_option (option_map needs_of expr.now)) fault) }
{
    match expr {
        None => Ok(()),
        Some(expr) => check_expr(declared, place, expr),
    }
}

/// Tells whether an expression may be assigned to. A variable, `this`, or a chain from one of them
/// that does not end in a method may.
fn is_place(expr: &Expr) -> bool
    ensures seen { result ≡ (seen_expr expr.now).is_place }
    ensures tested { result ≡ (tests_of expr.now).is_place }
{
    match expr {
        Expr::Variable { .. } | Expr::ThisPtr(_) => true,
        Expr::Dot(root, _, _, _) | Expr::Index(root, _, _, _) => {
            is_root(root.get()) && !ends_in_method(expr)
        }
        _ => false,
    }
}

/// Passes the left side of an assignment, or answers one of its faults.
#[cycle(check)]
pub(crate) fn check_target(
    declared: &mut Declared,
    place: Place,
    lhs: &Expr,
) -> Result<(), CheckFault>
    ensures same { OnOk result (declared.new ≡ declared.old) }
    ensures exact { OnOk result (target_faults (seen_expr lhs.now) (around declared.old place) ≡ []) }
    ensures resolved { OnOk result ((base : Frame) → IsTrue
        (target_resolves (tests_of lhs.now) (above base declared.old))) }
    ensures refused { IfErr result (λ fault. Refuses (target_faults (seen_expr lhs.now)
        (around declared.old place)) (expr_needs_memory lhs.now) fault) }
{
    if is_place(lhs) {
        check_expr(declared, place, lhs)
    } else {
        Err(CheckFault::BadAssignment(seen_start(lhs)))
    }
}

/// Tells whether a call is one of `eval` by its name, with one argument, operator or not.
fn is_eval_call(call: &FnCallExpr) -> bool
    ensures { result ≡ is_eval_call call.now.namespace call.now.name (length call.now.args) }
{
    call.namespace.path.len() == 0 && call.name.get().as_str() == "eval" && call.args.len() == 1
}

/// Tells whether a call's name stands without a path.
pub(crate) fn is_unqualified(call: &FnCallExpr) -> bool
    ensures { result ≡ is_unqualified call.now.namespace.path }
{
    call.namespace.path.len() == 0
}

/// Passes a call whose name or operator stands at a position, or answers one of its faults.
#[cycle(check)]
pub(crate) fn check_call(
    declared: &mut Declared,
    place: Place,
    call: &FnCallExpr,
    pos: Position,
) -> Result<(), CheckFault>
    ensures same { OnOk result (declared.new ≡ declared.old) }
    ensures exact { OnOk result ((seen_call call.now).value pos (around declared.old place) ≡ []) }
    ensures resolved { OnOk result ((base : Frame) → IsTrue
        (resolves_call call.now pos (above base declared.old))) }
    ensures refused { IfErr result (λ fault. Refuses ((seen_call call.now).value pos
        (around declared.old place)) (call_needs_memory call.now) fault) }
{
    if is_eval_call(call) {
        Err(CheckFault::EvalCall(pos))
    } else if has_good_index(declared.imports.as_slice(), &call.namespace) {
        check_exprs(declared, place, call.args.as_slice())
    } else {
        Err(CheckFault::BadImportOffset(call.namespace.position))
    }
}

/// Finds where an expression is seen to start, which is where its text does.
fn seen_start(expr: &Expr) -> Position
    ensures { result ≡ (seen_expr expr.now).start }
{
    match expr {
        Expr::Variable { namespace, pos, .. } => {
            if namespace.path.is_empty() {
                *pos
            } else {
                namespace.position
            }
        }
        Expr::FnCall(call, pos) => match (call.op_token, call.args.as_slice()) {
            (Some(_), [left, _]) => seen_start(left),
            _ => *pos,
        },
        Expr::Dot(lhs, _, _, _) | Expr::Index(lhs, _, _, _) => seen_start(lhs.get()),
        Expr::And(parts, pos) | Expr::Or(parts, pos) | Expr::Coalesce(parts, pos) => {
            match parts.as_slice() {
                [] => *pos,
                [first, ..] => seen_start(first),
            }
        }
        _ => expr.position(),
    }
}
