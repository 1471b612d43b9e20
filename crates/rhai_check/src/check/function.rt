//! The checker's walk over functions.

ghost use Rattle.std.specs.Prelude.{◌≡◌, ◌++◌, [], ◌∷◌, true, IfErr, OnOk, IfOk};
ghost use Rattle.rhai_check.specs.MemoryNeeds.{has_functions};
ghost use Rattle.rhai_tree.specs.Frame.{ResolvesFunction};
ghost use Rattle.rhai_check.specs.Refusals.{Refuses};
ghost use Rattle.rhai_tree.specs.WellFormed.{faults_in_function, faults_in_functions, IsFormedFunction};
ghost use Rattle.rhai_tree.specs.WellFormed.{AreFormed};

use crate::check::CheckFault;
use crate::check::declared::Declared;
use crate::check::place::Place;
use crate::check::stmt::check_block;
use rhai_tree::checked::CheckedFn;
use rhai_tree::function::{ScriptFuncDef, ScriptFuncPayload};
use rhai_tree::{Items, Shared};
use std::alloc::Global;

/// Passes a function, or answers one of its faults.
pub(crate) fn check_def(alloc: Global, def: &ScriptFuncDef) -> Result<(), CheckFault>
    ensures exact { OnOk result (IsFormedFunction def.now) }
    ensures resolved { OnOk result (ResolvesFunction def.now) }
    ensures refused { IfErr result (λ fault. Refuses (faults_in_function def.now) true fault) }
{
    let mut declared = Declared::new(alloc);
    'each: for param in def.params.as_slice() {
        declared.declare(param)?;
    }
    match &def.body {
        ScriptFuncPayload::Statements(body) => check_block(&mut declared, Place::BODY, body),
    }
}

/// Adds a function that passes, or answers one of its faults.
fn add_function(
    alloc: Global,
    functions: &mut Items<Shared<CheckedFn>>,
    def: ScriptFuncDef,
) -> Result<(), CheckFault>
    ensures added { OnOk result (functions.new ≡ functions.old ++ def ∷ []) }
    ensures exact { OnOk result (IsFormedFunction def) }
    ensures refused { IfErr result (λ fault. Refuses (faults_in_function def) true fault) }
{
    check_def(alloc, &def)?;
    match Shared::new(alloc, CheckedFn::new(def)) {
        Err(_) => Err(CheckFault::NoMemory),
        Ok(function) => match functions.push(function) {
            Ok(()) => Ok(()),
            Err(_) => Err(CheckFault::NoMemory),
        },
    }
}

/// Passes a list of functions, or answers one of their faults.
pub(crate) fn check_functions(
    alloc: Global,
    defs: Items<ScriptFuncDef>,
) -> Result<Items<Shared<CheckedFn>>, CheckFault>
    ensures passed { IfOk result (λ functions. functions ≡ defs) }
    ensures exact { OnOk result (AreFormed defs) }
    ensures refused { IfErr result (λ fault. Refuses (faults_in_functions defs) (has_functions defs) fault) }
{
    let mut functions = Items::new(alloc);
    'each: for def in defs.into_vec() {
        add_function(alloc, &mut functions, def)?;
    }
    Ok(functions)
}
