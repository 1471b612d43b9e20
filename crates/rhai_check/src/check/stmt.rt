//! The checker's walk over statements.

ghost use Rattle.std.specs.Prelude.{◌≡◌, ◌++◌, [], true, false, IsTrue, IfErr, OnOk, map};
ghost use Rattle.std.specs.Prelude.{option_map};
ghost use Rattle.rhai_check.specs.Around.{above, around, Continues};
ghost use Rattle.rhai_tree.specs.Forms.{any_of};
ghost use Rattle.rhai_check.specs.MemoryNeeds.{in_option, needs_of, stmt_needs_memory, block_needs_memory};
ghost use Rattle.rhai_check.specs.MemoryNeeds.{catch_needs_memory, conditional_needs_memory};
ghost use Rattle.rhai_tree.specs.Frame.{tests_of, resolves_stmt, resolves_block, all_resolve};
ghost use Rattle.rhai_tree.specs.Frame.{option_resolves, var_resolves, var_names, turns_resolve};
ghost use Rattle.rhai_tree.specs.Frame.{catch_resolves, resolves_conditional, conditionals_resolve};
ghost use Rattle.rhai_tree.specs.Names.{Frame};
ghost use Rattle.rhai_tree.specs.Reading.{Seen, faulty, sound};
ghost use Rattle.rhai_check.specs.Refusals.{Refuses};
ghost use Rattle.rhai_tree.specs.WellFormed.{seen_expr, seen_stmt, seen_block, faults_in_list};
ghost use Rattle.rhai_tree.specs.WellFormed.{faults_in_option, control_faults, var_faults, turn_faults};
ghost use Rattle.rhai_tree.specs.WellFormed.{catch_faults, seen_conditional, faults_in_conditionals};

use crate::check::CheckFault;
use crate::check::cases::is_switch;
use crate::check::declared::Declared;
use crate::check::expr::{check_call, check_expr, check_option, check_target};
use crate::check::names::{check_shared, is_good};
use crate::check::place::Place;
use bitflags::Flags;
use rhai_tree::expr::{ConditionalExpr, Expr, Ident, Stmt, StmtBlock};
use rhai_tree::flags::ASTFlags;
use rhai_tree::position::Position;
use std::num::NonZeroUsize;

/// Passes a block, or answers one of its faults. What it declares and imports ends with it.
#[cycle(check)]
pub(crate) fn check_block(
    declared: &mut Declared,
    place: Place,
    block: &StmtBlock,
) -> Result<(), CheckFault>
    ensures same { OnOk result (declared.new ≡ declared.old) }
    ensures exact { OnOk result ((seen_block block.now).value (around declared.old place) ≡ []) }
    ensures resolved { OnOk result ((base : Frame) → IsTrue
        (resolves_block block.now (above base declared.old))) }
    ensures refused { IfErr result (λ fault.
        Refuses ((seen_block block.now).value (around declared.old place)) (block_needs_memory block.now) fault) }
{
    let start = declared.mark();
    check_statements(declared, place.inside(), block.statements.as_slice())?;
    declared.truncate(start);
    Ok(())
}

/// Passes a list of statements, or answers one of their faults.
#[cycle(check)]
pub(crate) fn check_statements(
    declared: &mut Declared,
    place: Place,
    statements: &[Stmt],
) -> Result<(), CheckFault>
    ensures begins { OnOk result (Continues declared.old declared.new) }
    ensures exact { OnOk result (faults_in_list (map seen_stmt statements.now) (around declared.old place)
        ≡ ([], around declared.new place)) }
    ensures resolved { OnOk result ((base : Frame) → all_resolve (map resolves_stmt statements.now)
        (above base declared.old) ≡ (true, above base declared.new)) }
    ensures refused { IfErr result (λ fault. Refuses (faults_in_list (map seen_stmt statements.now)
        (around declared.old place)).0 (any_of (map stmt_needs_memory statements.now)) fault) }
{
    'each: for statement in statements {
        check_stmt(declared, place, statement)?;
    }
    Ok(())
}

/// Passes a `let` or a `const` but for its value, or answers its fault. One that is exported stands
/// in the tree's top list, and an index is the offset of the newest variable of its name.
fn check_declaration(
    declared: &Declared,
    place: Place,
    index: Option<NonZeroUsize>,
    ident: &Ident,
    options: ASTFlags,
    pos: Position,
) -> Result<(), CheckFault>
    ensures exact { OnOk result ((value : Seen faulty) →
        var_faults index ident.now value options pos (around declared.now place)
        ≡ value.value (around declared.now place)) }
    ensures resolved { OnOk result ((base : Frame) → (value : Seen sound) →
        var_resolves index ident.now value options pos (above base declared.now)
        ≡ value.value (above base declared.now)) }
    ensures refused { IfErr result (λ fault. (value : Seen faulty) → Refuses
        (var_faults index ident.now value options pos (around declared.now place)) false fault) }
{
    if options.contains(ASTFlags::EXPORTED) && !place.in_top {
        Err(CheckFault::ExportNotGlobal(pos))
    } else if is_good(declared.names.as_slice(), index, ident.name.get()) {
        Ok(())
    } else {
        Err(CheckFault::BadOffset(ident.pos))
    }
}

/// Passes a `let` or a `const`, or answers one of its faults. It declares its name, unless an index
/// says which variable it overwrites.
#[cycle(check)]
fn check_var(
    declared: &mut Declared,
    place: Place,
    index: Option<NonZeroUsize>,
    ident: &Ident,
    expr: &Expr,
    options: ASTFlags,
    pos: Position,
) -> Result<(), CheckFault>
    ensures added { OnOk result (declared.new ≡ record declared.old {
      names = var_names index ident.now.name declared.old.names;
    }) }
    ensures exact { OnOk result (var_faults index ident.now (seen_expr expr.now) options pos
        (around declared.old place) ≡ []) }
    ensures resolved { OnOk result ((base : Frame) → IsTrue
        (var_resolves index ident.now (tests_of expr.now) options pos (above base declared.old))) }
    ensures refused { IfErr result (λ fault. Refuses (var_faults index ident.now (seen_expr expr.now)
        options pos (around declared.old place)) true fault) }
{
    check_declaration(declared, place, index, ident, options, pos)?;
    check_expr(declared, place, expr)?;
    declared.declare_var(index, &ident.name)
}

/// Passes a `break` or a `continue` with its value, or answers its fault.
#[cycle(check)]
fn check_control(
    declared: &mut Declared,
    place: Place,
    expr: &Option<Expr>,
    pos: Position,
) -> Result<(), CheckFault>
    ensures same { OnOk result (declared.new ≡ declared.old) }
    ensures exact { OnOk result (control_faults pos (around declared.old place)
        ++ faults_in_option (option_map seen_expr expr.now) (around declared.old place) ≡ []) }
    ensures resolved { OnOk result ((base : Frame) → IsTrue
        (option_resolves (option_map tests_of expr.now) (above base declared.old))) }
    ensures refused { IfErr result (λ fault. Refuses (control_faults pos (around declared.old place)
        ++ faults_in_option (option_map seen_expr expr.now) (around declared.old place))
        (in_option (option_map needs_of expr.now)) fault) }
{
    if !place.in_loop {
        return Err(CheckFault::LoopControlOutside(pos));
    }
    check_option(declared, place, expr)
}

/// Passes a condition of a `switch` and its result, or answers one of their faults.
#[cycle(check)]
fn check_conditional(
    declared: &mut Declared,
    place: Place,
    conditional: &ConditionalExpr,
) -> Result<(), CheckFault>
    ensures same { OnOk result (declared.new ≡ declared.old) }
    ensures exact { OnOk result (seen_conditional conditional.now (around declared.old place) ≡ []) }
    ensures resolved { OnOk result ((base : Frame) → IsTrue
        (resolves_conditional conditional.now (above base declared.old))) }
    ensures refused { IfErr result (λ fault. Refuses (seen_conditional conditional.now
        (around declared.old place)) (conditional_needs_memory conditional.now) fault) }
{
    check_expr(declared, place, &conditional.condition)?;
    check_expr(declared, place, &conditional.expr)
}

/// Passes the conditions and results of a `switch`, or answers one of their faults.
#[cycle(check)]
fn check_conditionals(
    declared: &mut Declared,
    place: Place,
    conditionals: &[ConditionalExpr],
) -> Result<(), CheckFault>
    ensures same { OnOk result (declared.new ≡ declared.old) }
    ensures exact { OnOk result (faults_in_conditionals (map seen_conditional conditionals.now)
        (around declared.old place) ≡ []) }
    ensures resolved { OnOk result ((base : Frame) → IsTrue
        (conditionals_resolve (map resolves_conditional conditionals.now) (above base declared.old))) }
    ensures refused { IfErr result (λ fault. Refuses (faults_in_conditionals
        (map seen_conditional conditionals.now) (around declared.old place))
        (any_of (map conditional_needs_memory conditionals.now)) fault) }
{
    'each: for conditional in conditionals {
        check_conditional(declared, place, conditional)?;
    }
    Ok(())
}

/// Passes the body of a `for`, which has the counter and the variable, or answers one of its faults.
/// These names end with it.
#[cycle(check)]
fn check_turns(
    declared: &mut Declared,
    place: Place,
    variable: &Ident,
    counter: &Option<Ident>,
    body: &StmtBlock,
) -> Result<(), CheckFault>
    ensures same { OnOk result (declared.new ≡ declared.old) }
    ensures exact { OnOk result (turn_faults variable.now counter.now body.now (around declared.old place)
        ≡ []) }
    ensures resolved { OnOk result ((base : Frame) → IsTrue
        (turns_resolve variable.now counter.now body.now (above base declared.old))) }
    ensures refused { IfErr result (λ fault. Refuses (turn_faults variable.now counter.now body.now
        (around declared.old place)) true fault) }
{
    let start = declared.mark();
    declared.declare_turn(variable, counter)?;
    check_block(declared, place.looping(), body)?;
    declared.truncate(start);
    Ok(())
}

/// Passes the branch of a `try` with its catch variable, or answers one of their faults. The
/// variable's name ends with the branch.
#[cycle(check)]
fn check_branch(
    declared: &mut Declared,
    place: Place,
    branch: &StmtBlock,
    variable: &Expr,
) -> Result<(), CheckFault>
    ensures same { OnOk result (declared.new ≡ declared.old) }
    ensures exact { OnOk result (catch_faults variable.now branch.now (around declared.old place) ≡ []) }
    ensures resolved { OnOk result ((base : Frame) → IsTrue
        (catch_resolves variable.now branch.now (above base declared.old))) }
    ensures refused { IfErr result (λ fault. Refuses (catch_faults variable.now branch.now
        (around declared.old place)) (catch_needs_memory variable.now branch.now) fault) }
{
    let start = declared.mark();
    declared.declare_catch(variable)?;
    check_block(declared, place, branch)?;
    declared.truncate(start);
    Ok(())
}

/// Passes a statement, or answers one of its faults.
#[cycle(check)]
fn check_stmt(declared: &mut Declared, place: Place, stmt: &Stmt) -> Result<(), CheckFault>
    ensures begins { OnOk result (Continues declared.old declared.new) }
    ensures exact { OnOk result
        (seen_stmt stmt.now (around declared.old place) ≡ ([], around declared.new place)) }
    ensures resolved { OnOk result ((base : Frame) → resolves_stmt stmt.now (above base declared.old)
        ≡ (true, above base declared.new)) }
    ensures refused { IfErr result (λ fault. Refuses (seen_stmt stmt.now (around declared.old place)).0
        (stmt_needs_memory stmt.now) fault) }
{
    match stmt {
        Stmt::Noop(_) => Ok(()),
        Stmt::Expr(expr) => check_expr(declared, place, expr),
        Stmt::FnCall(call, pos) => check_call(declared, place, call, *pos),
        Stmt::Block(block) => check_block(declared, place, block),
        Stmt::Var(ident, expr, index, options, pos) => {
            check_var(declared, place, *index, ident, expr, *options, *pos)
        }
        Stmt::If(expr, body, branch, _) => {
            check_expr(declared, place, expr)?;
            check_block(declared, place, body)?;
            check_block(declared, place, branch)
        }
        Stmt::Assignment(_, lhs, rhs) => {
            check_target(declared, place, lhs)?;
            check_expr(declared, place, rhs)
        }
        Stmt::While(expr, body, _) => {
            check_expr(declared, place, expr)?;
            check_block(declared, place.looping(), body)
        }
        Stmt::Do(expr, body, _, _) => {
            check_expr(declared, place, expr)?;
            check_block(declared, place.looping(), body)
        }
        Stmt::BreakLoop(expr, _, pos) => check_control(declared, place, expr, *pos),
        Stmt::Return(expr, _, _) => check_option(declared, place, expr),
        Stmt::Switch {
            expr,
            expressions,
            cases,
            ranges,
            def_case,
            pos,
        } => {
            let count = expressions.len();
            if !is_switch(count, cases.as_slice(), ranges.as_slice(), *def_case) {
                return Err(CheckFault::BadSwitch(*pos));
            }
            check_expr(declared, place, expr)?;
            check_conditionals(declared, place, expressions.as_slice())
        }
        Stmt::For {
            name,
            counter,
            expr,
            body,
            ..
        } => {
            check_expr(declared, place, expr)?;
            check_turns(declared, place, name, counter, body)
        }
        Stmt::TryCatch(body, variable, branch, _) => {
            check_block(declared, place, body)?;
            check_branch(declared, place, branch, variable)
        }
        Stmt::Share(variables) => check_shared(declared.names.as_slice(), variables.as_slice()),
        Stmt::Export(_, _, _) => Ok(()),
        Stmt::Import(path, alias, _) => {
            check_expr(declared, place, path)?;
            declared.import(alias)
        }
    }
}
