//! The checker's walk along chains.

ghost use Rattle.std.specs.Prelude.{◌≡◌, ◌≤◌, ◌+◌, [], IsTrue, IfErr, OnOk, length};
ghost use Rattle.rhai_check.specs.Around.{above, around};
ghost use Rattle.rhai_check.specs.MemoryNeeds.{expr_needs_memory, call_needs_memory};
ghost use Rattle.rhai_tree.specs.Forms.{ends_chain};
ghost use Rattle.rhai_tree.specs.Frame.{tests_of, resolves_method, dot_resolves, name_resolves};
ghost use Rattle.rhai_tree.specs.Frame.{bracket_resolves, tested_root, tested_end};
ghost use Rattle.rhai_tree.specs.Links.{links_in, most_links};
ghost use Rattle.rhai_tree.specs.Names.{Frame};
ghost use Rattle.rhai_check.specs.Refusals.{Refuses};
ghost use Rattle.rhai_tree.specs.WellFormed.{seen_expr, seen_call, dot_faults, name_faults};
ghost use Rattle.rhai_tree.specs.WellFormed.{seen_root, seen_end};

use crate::check::CheckFault;
use crate::check::declared::Declared;
use crate::check::expr::{check_expr, check_exprs, is_unqualified};
use crate::check::place::Place;
use bitflags::Flags;
use rhai_tree::Items;
use rhai_tree::expr::{Expr, FnCallExpr};
use rhai_tree::flags::ASTFlags;
use rhai_tree::position::Position;
use std::alloc::Global;

/// Tells whether an operator of a chain ends it: the chain stands in brackets of its own.
pub(crate) fn ends_chain(options: ASTFlags) -> bool
    ensures { result ≡ ends_chain options }
{
    options.contains(ASTFlags::BREAK)
}

/// Tells whether a chain that starts from an expression may be assigned to. One that starts from a
/// variable or `this` may.
pub(crate) fn is_root(expr: &Expr) -> bool
    ensures seen { result ≡ seen_root (seen_expr expr.now) }
    ensures tested { result ≡ tested_root (tests_of expr.now) }
{
    matches!(expr, Expr::Variable { .. } | Expr::ThisPtr(_))
}

/// Tells whether a chain that goes on with an expression ends in a method.
pub(crate) fn ends_in_method(expr: &Expr) -> bool
    ensures seen { result ≡ seen_end (seen_expr expr.now).link }
    ensures tested { result ≡ tested_end (tests_of expr.now).link }
{
    match expr {
        Expr::Dot(_, rhs, options, _) => match rhs.get() {
            Expr::MethodCall(_, _) => true,
            rest => !ends_chain(*options) && ends_in_method(rest),
        },
        Expr::Index(_, rhs, options, _) => !ends_chain(*options) && ends_in_method(rhs.get()),
        _ => false,
    }
}

/// Adds an item for each link of a chain, or answers that there is no memory.
fn push_links(items: &mut Items<()>, chain: &Expr) -> Result<(), CheckFault>
    ensures pushed { OnOk result (length items.new ≡ length items.old + links_in chain.now) }
    ensures memory { IfErr result (λ fault. fault ≡ CheckFault.NoMemory) }
{
    match chain {
        Expr::Dot(_, rest, _, _) | Expr::Index(_, rest, _, _) => match items.push(()) {
            Ok(()) => push_links(items, rest.get()),
            Err(_) => Err(CheckFault::NoMemory),
        },
        _ => Ok(()),
    }
}

/// Passes a chain whose links a list can count, or answers that there is no memory. The items of
/// the list have no size.
pub(crate) fn count_links(alloc: Global, chain: &Expr) -> Result<(), CheckFault>
    ensures counted { OnOk result (links_in chain.now ≤ most_links) }
    ensures memory { IfErr result (λ fault. fault ≡ CheckFault.NoMemory) }
{
    let mut items: Items<()> = Items::new(alloc);
    push_links(&mut items, chain)?;
    // how many items a list has is a `usize`
    let _count = items.len();
    Ok(())
}

/// Passes what stands behind a bracket, or answers one of the faults that it has by itself. This is
/// an index, or a chain that has the index first and goes on, unless it ends there.
#[cycle(check)]
pub(crate) fn check_behind_bracket(
    declared: &mut Declared,
    place: Place,
    rhs: &Expr,
    ends: bool,
) -> Result<(), CheckFault>
    ensures same { OnOk result (declared.new ≡ declared.old) }
    ensures exact { OnOk result ((seen_expr rhs.now).value (around declared.old place) ≡ []) }
    ensures resolved { OnOk result ((base : Frame) → IsTrue
        (bracket_resolves ends (tests_of rhs.now) (above base declared.old))) }
    ensures refused { IfErr result (λ fault. Refuses ((seen_expr rhs.now).value (around declared.old place))
        (expr_needs_memory rhs.now) fault) }
{
    if ends {
        return check_expr(declared, place, rhs);
    }
    match rhs {
        Expr::Dot(first, rest, options, dot) => {
            check_expr(declared, place, first.get())?;
            check_behind_dot(declared, place, rest.get(), ends_chain(*options), *dot)
        }
        Expr::Index(first, rest, options, _) => {
            check_expr(declared, place, first.get())?;
            check_behind_bracket(declared, place, rest.get(), ends_chain(*options))
        }
        _ => check_expr(declared, place, rhs),
    }
}

/// Passes what stands behind a dot at a position, or answers one of its faults. This is a property
/// or a method, or one from which the chain goes on, unless it ends there.
#[cycle(check)]
pub(crate) fn check_behind_dot(
    declared: &mut Declared,
    place: Place,
    rhs: &Expr,
    ends: bool,
    pos: Position,
) -> Result<(), CheckFault>
    ensures same { OnOk result (declared.new ≡ declared.old) }
    ensures exact { OnOk result (dot_faults ends (seen_expr rhs.now).link pos (around declared.old place)
        ≡ []) }
    ensures resolved { OnOk result ((base : Frame) → IsTrue
        (dot_resolves ends (tests_of rhs.now).link pos (above base declared.old))) }
    ensures refused { IfErr result (λ fault. Refuses (dot_faults ends (seen_expr rhs.now).link pos
        (around declared.old place)) (expr_needs_memory rhs.now) fault) }
{
    if ends {
        return check_named(declared, place, rhs, pos);
    }
    match rhs {
        Expr::Dot(first, rest, options, dot) => {
            check_named(declared, place, first.get(), pos)?;
            check_behind_dot(declared, place, rest.get(), ends_chain(*options), *dot)
        }
        Expr::Index(first, rest, options, _) => {
            check_named(declared, place, first.get(), pos)?;
            check_behind_bracket(declared, place, rest.get(), ends_chain(*options))
        }
        _ => check_named(declared, place, rhs, pos),
    }
}

/// Passes a property or a method that begins behind a dot at a position, or answers one of its
/// faults.
#[cycle(check)]
fn check_named(
    declared: &mut Declared,
    place: Place,
    first: &Expr,
    pos: Position,
) -> Result<(), CheckFault>
    ensures same { OnOk result (declared.new ≡ declared.old) }
    ensures exact { OnOk result
        (name_faults (seen_expr first.now).link pos (around declared.old place) ≡ []) }
    ensures resolved { OnOk result ((base : Frame) → IsTrue
        (name_resolves (tests_of first.now).link pos (above base declared.old))) }
    ensures refused { IfErr result (λ fault. Refuses (name_faults (seen_expr first.now).link pos
        (around declared.old place)) (expr_needs_memory first.now) fault) }
{
    match first {
        Expr::Property(_, _) => Ok(()),
        Expr::MethodCall(call, name) => check_method(declared, place, call, *name),
        _ => Err(CheckFault::BadChain(pos)),
    }
}

/// Passes a method whose name stands at a position, or answers one of its faults.
#[cycle(check)]
fn check_method(
    declared: &mut Declared,
    place: Place,
    call: &FnCallExpr,
    pos: Position,
) -> Result<(), CheckFault>
    ensures same { OnOk result (declared.new ≡ declared.old) }
    ensures exact { OnOk result ((seen_call call.now).method pos (around declared.old place) ≡ []) }
    ensures resolved { OnOk result ((base : Frame) → IsTrue
        (resolves_method call.now pos (above base declared.old))) }
    ensures refused { IfErr result (λ fault. Refuses ((seen_call call.now).method pos
        (around declared.old place)) (call_needs_memory call.now) fault) }
{
    if is_unqualified(call) {
        check_exprs(declared, place, call.args.as_slice())
    } else {
        Err(CheckFault::QualifiedMethod(pos))
    }
}
