//! Functions of scripts, which stand beside the statements of a tree.

ghost use Rattle.std.specs.Prelude.{◌≡◌, ◌++◌, ◌∷◌, [], IfOk, None, Some, map, true};
ghost use Rattle.std.specs.Option.{option_copied};
ghost use Rattle.rhai_tree.specs.declared.function.FnAccess.TheVariants.{Public};
ghost use Rattle.rhai_build.specs.Build.{Made, function_of};

use crate::{Builder, list, shared};
use rhai_tree::expr::{Stmt, StmtBlock};
use rhai_tree::function::{FnAccess, ScriptFuncDef, ScriptFuncPayload};
use rhai_tree::{Items, Shared, Text};
use std::alloc::{AllocError, Global};

/// The statements of a tree, and the functions beside them.
#[derive(Drop)]
pub struct TreeParts {
    pub statements: Items<Stmt>,
    pub functions: Items<ScriptFuncDef>,
}

/// Builds a function with a name, with parameters, and perhaps with the type that its `this` must
/// have.
pub fn script_function(
    alloc: Global,
    access: FnAccess,
    this_type: Option<&str>,
    name: &str,
    params: &[&str],
    body: StmtBlock,
) -> Result<ScriptFuncDef, AllocError>
    ensures { IfOk result (λ def.
        def
        ≡ function_of access (option_copied this_type.entry) name.now (map (λ p. p.now) params.now) body) }
{
    let params = shared_names(alloc, params)?;
    let this_type = match this_type {
        Some(name) => Some(shared(alloc, name)?),
        None => None,
    };
    Ok(ScriptFuncDef {
        body: ScriptFuncPayload::Statements(body),
        name: shared(alloc, name)?,
        access,
        this_type,
        params,
    })
}

/// Makes shared copies of names.
fn shared_names(alloc: Global, names: &[&str]) -> Result<Items<Shared<Text>>, AllocError>
    ensures { IfOk result (λ made. made ≡ map (λ n. n.now) names.now) }
{
    let mut made = Items::new(alloc);
    'names: for name in names {
        made.push(shared(alloc, name)?)?;
    }
    Ok(made)
}

impl Builder {
    /// Adds a function that anybody may call.
    pub fn function(&mut self, name: &str, params: &[&str], body: StmtBlock)
        ensures { Made self.old self.new (self.new.functions ≡ self.old.functions
            ++ function_of Public None name.now (map (λ p. p.now) params.now) body ∷ []) }
    {
        self.add_function(None, name, params, body);
    }

    /// Adds a function that is called on values of a type alone.
    pub fn define_on(&mut self, this_type: &str, name: &str, params: &[&str], body: StmtBlock)
        ensures { Made self.old self.new (self.new.functions ≡ self.old.functions
            ++ function_of Public (Some this_type.now) name.now (map (λ p. p.now) params.now) body ∷ []) }
    {
        self.add_function(Some(this_type), name, params, body);
    }

    fn add_function(
        &mut self,
        this_type: Option<&str>,
        name: &str,
        params: &[&str],
        body: StmtBlock,
    )
        ensures { Made self.old self.new (self.new.functions ≡ self.old.functions ++ function_of Public
            (option_copied this_type.entry) name.now (map (λ p. p.now) params.now) body ∷ []) }
    {
        match script_function(self.alloc, FnAccess::Public, this_type, name, params, body) {
            Ok(function) => {
                if self.functions.push(function).is_err() {
                    self.has_memory = false;
                }
            }
            Err(AllocError) => self.has_memory = false,
        }
    }

    /// Finishes a tree and answers its statements and the functions that were added. It fails where
    /// memory ran out for them or for one of their parts.
    pub fn finish_with_functions<const N: usize>(
        self,
        statements: [Stmt; N],
    ) -> Result<TreeParts, AllocError>
        ensures statements { IfOk result (λ tree. tree.statements ≡ statements.entry) }
        ensures functions { IfOk result (λ tree. tree.functions ≡ self.functions) }
        ensures fed { IfOk result (λ _. self.has_memory ≡ true) }
    {
        let Builder {
            alloc,
            has_memory,
            functions,
        } = self;
        let statements = list(alloc, statements)?;
        if has_memory {
            Ok(TreeParts {
                statements,
                functions,
            })
        } else {
            Err(AllocError)
        }
    }
}
