//! What closures share, and pointers to them.

ghost use Rattle.std.specs.Prelude.{◌≡◌, ◌≢◌, [], ◌∷◌, ◌++◌};
ghost use Rattle.rhai_tree.specs.declared.expr.SharedVariable.{SharedVariable};
ghost use Rattle.rhai_tree.specs.declared.expr.Stmt.TheVariants as stmt;
ghost use Rattle.rhai_build.specs.Build.{IsSharedVariable, Made, pointer_at};

use crate::expressions::unit;
use crate::{Builder, at};
use rhai_tree::Items;
use rhai_tree::expr::{Expr, SharedVariable, Stmt};
use rhai_tree::literal::{Literal, LiteralFnPtr, LiteralFnPtrKind};
use std::num::NonZeroUsize;

impl Builder {
    /// Builds the statement that shares a variable. Its offset counts from the end of the scope;
    /// zero is none, and the name is searched.
    pub fn share(&mut self, name: &str, offset: usize, column: u16) -> Stmt
        requires { column ≢ 0 }
        ensures { Made self.old self.new ((v : SharedVariable) × IsSharedVariable name.now offset column v
            × (result ≡ stmt.Share (v ∷ []))) }
    {
        let mut variables = Items::new(self.alloc);
        self.add_shared(&mut variables, name, offset, column);
        Stmt::Share(variables)
    }

    /// Adds a variable to those that a statement shares. Its offset counts from the end of the scope; zero is
    /// none, and the name is searched.
    pub fn add_shared(
        &mut self,
        variables: &mut Items<SharedVariable>,
        name: &str,
        offset: usize,
        column: u16,
    )
        requires { column ≢ 0 }
        ensures { Made self.old self.new ((v : SharedVariable) × IsSharedVariable name.now offset column v
            × (variables.new ≡ variables.old ++ v ∷ [])) }
    {
        let Some(ident) = self.ident(name, column) else {
            return;
        };
        let offset = NonZeroUsize::new(offset);
        let pushed = variables.push(SharedVariable { ident, offset });
        if pushed.is_err() {
            self.has_memory = false;
        }
    }

    /// Builds a constant pointer to the function of a name with so many parameters.
    pub fn pointer(&mut self, name: &str, count: usize, column: u16) -> Expr
        requires { column ≢ 0 }
        ensures { Made self.old self.new (result ≡ pointer_at name.now count column) }
    {
        match self.name(name) {
            Some(name) => {
                let pointer = LiteralFnPtr {
                    name,
                    curry: Items::new(self.alloc),
                    kind: LiteralFnPtrKind::Arity(count),
                };
                Expr::DynamicConstant(Literal::FnPtr(pointer), at(column))
            }
            None => unit(column),
        }
    }
}
