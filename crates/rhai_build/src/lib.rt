//! Trees by hand, as a parser would make them of a text in one line. Positions are its columns,
//! counted from 1.
#![tactic(auto)]

ghost use Rattle.std.specs.Prelude.{◌≡◌, ◌≢◌, [], IfOk, MatchOption, false, true};
ghost use Rattle.rhai_tree.specs.Position.{at as place};
ghost use Rattle.rhai_build.specs.Build.{Made, ident_at, unqualified};

use rhai_tree::expr::{Ident, Namespace, Stmt};
use rhai_tree::function::ScriptFuncDef;
use rhai_tree::position::Position;
use rhai_tree::{Items, Shared, Text};
use std::alloc::{AllocError, Global};

pub mod chains;
pub mod choices;
pub mod expressions;
pub mod functions;
pub mod sharing;
pub mod statements;

/// Makes the position at a column of the first line.
pub fn at(column: u16) -> Position
    requires { column ≢ 0 }
    ensures { result ≡ place 1 column }
{
    Position::new(1, column)
}

/// Makes the namespace of a name without one.
pub fn no_namespace(alloc: Global) -> Namespace
    ensures { result ≡ unqualified }
{
    Namespace {
        path: Items::new(alloc),
        index: None,
        position: Position::NONE,
    }
}

/// Makes a shared copy of a text.
fn shared(alloc: Global, text: &str) -> Result<Shared<Text>, AllocError>
    ensures { IfOk result (λ t. t ≡ text.now) }
{
    Shared::new(alloc, Text::from_str(alloc, text)?)
}

/// Makes a list of the items given.
pub fn list<T: Drop, const N: usize>(alloc: Global, items: [T; N]) -> Result<Items<T>, AllocError>
    ensures { IfOk result (λ it. it ≡ items) }
{
    Ok(Items::from_vec(Vec::from_array(alloc, items)?))
}

/// Makes the parts of a tree. Where memory runs out it goes on, with other forms instead of those
/// that could not be made, and `finish` answers that memory ran out.
#[derive(Drop)]
pub struct Builder {
    alloc: Global,
    has_memory: bool,
    /// The functions that were added.
    functions: Items<ScriptFuncDef>,
}

impl Builder {
    /// Makes a builder that has made nothing.
    pub fn new(alloc: Global) -> Builder
        ensures fed { result.has_memory ≡ true }
        ensures functions { result.functions ≡ [] }
    {
        Builder {
            alloc,
            has_memory: true,
            functions: Items::new(alloc),
        }
    }

    /// Finishes a tree without functions and answers its statements. It fails where memory ran out
    /// for them or for one of their parts.
    pub fn finish<const N: usize>(
        mut self,
        statements: [Stmt; N],
    ) -> Result<Items<Stmt>, AllocError>
        ensures made { IfOk result (λ it. it ≡ statements.entry) }
        ensures fed { IfOk result (λ _. self.has_memory ≡ true) }
    {
        let statements = self.list(statements);
        if self.has_memory {
            Ok(statements)
        } else {
            Err(AllocError)
        }
    }

    /// Makes a list of the items given.
    fn list<T: Drop, const N: usize>(&mut self, items: [T; N]) -> Items<T>
        ensures { Made self.old self.new (result ≡ items) }
    {
        match list(self.alloc, items) {
            Ok(items) => items,
            Err(AllocError) => {
                self.has_memory = false;
                Items::new(self.alloc)
            }
        }
    }

    /// Makes a name at a column, None where memory ran out.
    fn ident(&mut self, name: &str, column: u16) -> Option<Ident>
        requires { column ≢ 0 }
        ensures { MatchOption result (self.new.has_memory ≡ false)
            (λ ident. (ident ≡ ident_at name.now column) × (self.new.has_memory ≡ self.old.has_memory)) }
    {
        match self.name(name) {
            Some(name) => Some(Ident {
                name,
                pos: at(column),
            }),
            None => None,
        }
    }

    /// Makes a shared copy of a name, None where memory ran out.
    fn name(&mut self, name: &str) -> Option<Shared<Text>>
        ensures { MatchOption result (self.new.has_memory ≡ false)
            (λ text. (text ≡ name.now) × (self.new.has_memory ≡ self.old.has_memory)) }
    {
        match shared(self.alloc, name) {
            Ok(name) => Some(name),
            Err(AllocError) => {
                self.has_memory = false;
                None
            }
        }
    }
}
