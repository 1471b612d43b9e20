//! The checker.

ghost use Rattle.std.specs.Prelude.{◌≡◌, ◌≢◌, IsTrue, IfOk, IfErr, OnOk};
ghost use Rattle.std.specs.List.{Contains};
ghost use Rattle.rhai_check.specs.MemoryNeeds.{needs_memory};
ghost use Rattle.rhai_tree.specs.WellFormed.{Stands, faults_in_function, IsFormedFunction, IsFormedTree};

mod cases;
mod chain;
mod declared;
mod expr;
mod function;
mod keys;
mod names;
mod place;
mod stmt;

use crate::check::declared::Declared;
use crate::check::function::{check_def, check_functions};
use crate::check::place::Place;
use crate::check::stmt::check_statements;
use rhai_tree::Items;
use rhai_tree::checked::{CheckedFn, CheckedTree};
use rhai_tree::expr::Stmt;
pub use rhai_tree::fault::CheckFault;
use rhai_tree::function::ScriptFuncDef;
use std::alloc::Global;

/// Passes a tree with the functions that stand beside it, where it is well formed. Otherwise it
/// answers one of the faults that stand in it. Where the tree declares a variable, imports a module,
/// makes a map, has a chain or has functions it may answer `NoMemory`.
pub fn check_tree(
    alloc: Global,
    statements: Items<Stmt>,
    functions: Items<ScriptFuncDef>,
) -> Result<CheckedTree, CheckFault>
    ensures passed { IfOk result (λ tree. tree ≡ (statements, functions)) }
    ensures formed { OnOk result (IsFormedTree statements functions) }
    ensures refused { IfErr result (λ fault. fault ≢ CheckFault.NoMemory →
        Stands fault statements functions) }
    ensures unformed { IfErr result (λ fault. fault ≢ CheckFault.NoMemory →
        ¬ IsFormedTree statements functions) }
    ensures memory { IfErr result (λ fault. fault ≡ CheckFault.NoMemory →
        IsTrue (needs_memory statements functions)) }
{
    let mut declared = Declared::new(alloc);
    check_statements(&mut declared, Place::TOP, statements.as_slice())?;
    let functions = check_functions(alloc, functions)?;
    Ok(CheckedTree::new(statements, functions))
}

/// Passes a function, where it is well formed. Otherwise it answers one of the faults that stand
/// in it, or `NoMemory`.
pub fn check_function(alloc: Global, def: ScriptFuncDef) -> Result<CheckedFn, CheckFault>
    ensures passed { IfOk result (λ function. function ≡ def) }
    ensures formed { OnOk result (IsFormedFunction def) }
    ensures refused { IfErr result (λ fault. fault ≢ CheckFault.NoMemory →
        Contains (faults_in_function def) fault) }
    ensures unformed { IfErr result (λ fault. fault ≢ CheckFault.NoMemory → ¬ IsFormedFunction def) }
{
    check_def(alloc, &def)?;
    Ok(CheckedFn::new(def))
}
