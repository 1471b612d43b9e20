//! The checker, and what it passed.

ghost use Rattle.std.specs.Prelude.{◌≡◌, is_ok, IfOk};
ghost use Rattle.rhai_tree.specs.Frame.{Resolves, ResolvesFunction};
ghost use Rattle.rhai_tree.specs.WellFormed.{IsFormed, IsFormedFunction, AreFormed};
ghost use Rattle.rhai_twins.specs.Checks.{check_ran_out};

use rhai_check::check::{check_function, check_tree};
use rhai_tree::checked::{CheckedFn, CheckedTree};
use rhai_tree::expr::Stmt;
use rhai_tree::fault::CheckFault;
use rhai_tree::function::ScriptFuncDef;
use rhai_tree::position::Position;
use rhai_tree::{Items, Shared};
use std::alloc::Global;

/// Shows that `check::check_tree` passes equal trees alike, and makes equal checked trees of them. Which
/// of several faults is told is open.
pub fn tree(
    alloc: Global,
    statements: Items<Stmt>,
    also_statements: Items<Stmt>,
    functions: Items<ScriptFuncDef>,
    also_functions: Items<ScriptFuncDef>,
) -> (
    Result<CheckedTree, CheckFault>,
    Result<CheckedTree, CheckFault>,
)
    requires statements { statements ≡ also_statements }
    requires functions { functions ≡ also_functions }
    ensures passed { check_ran_out result.0 ≡ check_ran_out result.1 → is_ok result.0 ≡ is_ok result.1 }
    ensures tree { IfOk result.0 (λ t. IfOk result.1 (λ u. t ≡ u)) }
{
    (
        check_tree(alloc, statements, functions),
        check_tree(alloc, also_statements, also_functions),
    )
}

/// Shows that `check::check_function` passes equal functions alike, and makes equal checked functions of
/// them. Which of several faults is told is open.
pub fn function(
    alloc: Global,
    def: ScriptFuncDef,
    also_def: ScriptFuncDef,
) -> (Result<CheckedFn, CheckFault>, Result<CheckedFn, CheckFault>)
    requires { def ≡ also_def }
    ensures passed { check_ran_out result.0 ≡ check_ran_out result.1 → is_ok result.0 ≡ is_ok result.1 }
    ensures function { IfOk result.0 (λ f. IfOk result.1 (λ g. f ≡ g)) }
{
    (check_function(alloc, def), check_function(alloc, also_def))
}

/// Shows that `CheckedFn::new` makes equal checked functions of equal definitions.
pub fn checked_function(def: ScriptFuncDef, also_def: ScriptFuncDef) -> (CheckedFn, CheckedFn)
    requires def { def ≡ also_def }
    requires formed { IsFormedFunction def }
    requires resolves { ResolvesFunction def }
    ensures { result.0 ≡ result.1 }
{
    (CheckedFn::new(def), CheckedFn::new(also_def))
}

/// Shows that `CheckedFn::def` reads equal definitions from equal functions.
pub fn def<'a>(one: &'a CheckedFn, other: &'a CheckedFn) -> (&'a ScriptFuncDef, &'a ScriptFuncDef)
    requires { one.now ≡ other.now }
    ensures { result.0.now ≡ result.1.now }
{
    (one.def(), other.def())
}

/// Shows that `CheckedTree::new` makes equal checked trees of equal statements and functions.
pub fn checked_tree(
    statements: Items<Stmt>,
    also_statements: Items<Stmt>,
    functions: Items<Shared<CheckedFn>>,
    also_functions: Items<Shared<CheckedFn>>,
) -> (CheckedTree, CheckedTree)
    requires statements { statements ≡ also_statements }
    requires functions { functions ≡ also_functions }
    requires formed { IsFormed statements }
    requires functions_formed { AreFormed functions }
    requires resolves { Resolves statements }
    ensures { result.0 ≡ result.1 }
{
    (
        CheckedTree::new(statements, functions),
        CheckedTree::new(also_statements, also_functions),
    )
}

/// Shows that `CheckedTree::statements` reads equal statements from equal trees.
pub fn statements<'a>(one: &'a CheckedTree, other: &'a CheckedTree) -> (&'a [Stmt], &'a [Stmt])
    requires { one.now ≡ other.now }
    ensures { result.0.now ≡ result.1.now }
{
    (one.statements(), other.statements())
}

/// Shows that `CheckedTree::functions` reads equal functions from equal trees.
pub fn functions<'a>(
    one: &'a CheckedTree,
    other: &'a CheckedTree,
) -> (&'a [Shared<CheckedFn>], &'a [Shared<CheckedFn>])
    requires { one.now ≡ other.now }
    ensures { result.0.now ≡ result.1.now }
{
    (one.functions(), other.functions())
}

/// Shows that `CheckFault::position` reads equal positions from equal faults.
pub fn fault_position(one: &CheckFault, other: &CheckFault) -> (Position, Position)
    requires { one.now ≡ other.now }
    ensures { result.0 ≡ result.1 }
{
    (one.position(), other.position())
}
