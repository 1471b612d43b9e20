//! What the checker passed.

ghost use Rattle.std.specs.Prelude.{◌≡◌};
ghost use Rattle.rhai_tree.specs.Frame.{Resolves, ResolvesFunction};
ghost use Rattle.rhai_tree.specs.WellFormed.{IsFormed, IsFormedFunction, AreFormed};

use crate::expr::Stmt;
use crate::function::ScriptFuncDef;
use crate::{Items, Shared};
use std::marker::Model;

/// A script function that the checker passed.
pub struct CheckedFn {
    def: ScriptFuncDef,
}

// Written by hand, so that the crates above call this, and need not go through the field.
impl Drop for CheckedFn {
    fn drop(self) {
        let CheckedFn { def: _ } = self;
    }
}

impl Model for CheckedFn {
    ghost use Rattle.rhai_tree.specs.declared.function.ScriptFuncDef.{ScriptFuncDef};

    ghost Value = { ScriptFuncDef };

    ghost use Rattle.rhai_tree.specs.contracts.function.ScriptFuncDef.{the_row};

    ghost coded = { the_row.coded };

    ghost use Rattle.rhai_tree.specs.Frame.{ResolvesFunction};
    ghost use Rattle.rhai_tree.specs.WellFormed.{IsFormedFunction};

    ghost view = { λ f. f.def };

    ghost invariant = { λ f. IsFormedFunction f.def × ResolvesFunction f.def };
}

impl CheckedFn {
    /// Wraps a function that is well formed. The checker alone calls this.
    pub fn new(def: ScriptFuncDef) -> CheckedFn
        requires formed { IsFormedFunction def }
        requires resolves { ResolvesFunction def }
        ensures { result ≡ def }
    {
        CheckedFn { def }
    }

    /// Lends the function.
    pub fn def(&self) -> &ScriptFuncDef
        ensures value { result.now ≡ self.now }
        ensures formed { IsFormedFunction self.now }
        ensures resolves { ResolvesFunction self.now }
    {
        &self.def
    }
}

/// A tree that the checker passed: its statements, and the functions that stand beside them.
pub struct CheckedTree {
    statements: Items<Stmt>,
    functions: Items<Shared<CheckedFn>>,
}

// Written by hand for the same reason.
impl Drop for CheckedTree {
    fn drop(self) {
        let CheckedTree {
            statements: _,
            functions: _,
        } = self;
    }
}

impl Model for CheckedTree {
    ghost use Rattle.std.specs.Prelude.{List};
    ghost use Rattle.std.specs.Coded.{coded×, coded_list};
    ghost use Rattle.rhai_tree.specs.declared.expr.Stmt.{Stmt};
    ghost use Rattle.rhai_tree.specs.contracts.expr.Stmt as stmt;
    ghost use Rattle.rhai_tree.specs.declared.function.ScriptFuncDef.{ScriptFuncDef};
    ghost use Rattle.rhai_tree.specs.contracts.function.ScriptFuncDef as function;

    ghost Value = { List Stmt × List ScriptFuncDef };

    ghost coded = { coded× (coded_list stmt.the_row.coded) (coded_list function.the_row.coded) };

    ghost use Rattle.rhai_tree.specs.Frame.{Resolves};
    ghost use Rattle.rhai_tree.specs.WellFormed.{IsFormed, AreFormed};

    ghost view = { λ t. (t.statements, t.functions) };

    ghost invariant = { λ t. IsFormed t.statements × AreFormed t.functions × Resolves t.statements };
}

impl CheckedTree {
    /// Wraps a tree that is well formed, with its functions. The checker alone calls this.
    pub fn new(statements: Items<Stmt>, functions: Items<Shared<CheckedFn>>) -> CheckedTree
        requires formed { IsFormed statements }
        requires functions_formed { AreFormed functions }
        requires resolves { Resolves statements }
        ensures { result ≡ (statements, functions) }
    {
        CheckedTree {
            statements,
            functions,
        }
    }

    /// Lends the statements at the top.
    pub fn statements(&self) -> &[Stmt]
        ensures value { result.now ≡ self.now.0 }
        ensures formed { IsFormed self.now.0 }
        ensures resolves { Resolves self.now.0 }
    {
        self.statements.as_slice()
    }

    /// Lends the functions.
    pub fn functions(&self) -> &[Shared<CheckedFn>]
        ensures value { result.now ≡ self.now.1 }
        ensures formed { AreFormed self.now.1 }
    {
        self.functions.as_slice()
    }
}
