//! How a tree is made of its parts.

mod choices;
mod memory;
mod operations;
mod statements;

use crate::making::memory::Memory;
use crate::parts::Part;
use rhai_build::functions::TreeParts;
use rhai_build::no_namespace;
use rhai_build::statements::no_block;
use rhai_tree::Items;
use rhai_tree::expr::{Expr, Ident, Namespace, Stmt, StmtBlock};
use rhai_tree::function::ScriptFuncDef;
use rhai_tree::literal::{Literal, LiteralFnPtr, LiteralFnPtrKind};
use rhai_tree::position::Position;
use std::alloc::{AllocError, Global};
use std::num::NonZeroUsize;

/// What the parts so far have made, and no later part has taken. Where memory runs out it goes on without what
/// could not be made, and `finish` says so.
pub(crate) struct Making {
    memory: Memory,
    paths: Items<Namespace>,
    exprs: Items<Expr>,
    statements: Items<Stmt>,
    blocks: Items<StmtBlock>,
    functions: Items<ScriptFuncDef>,
}

// Written by hand, so that what lets go of it calls this, and need not go through its parts.
impl Drop for Making {
    fn drop(self) {
        let Making {
            memory: _,
            paths: _,
            exprs: _,
            statements: _,
            blocks: _,
            functions: _,
        } = self;
    }
}

/// Returns the position at a column of the first line, none for zero.
fn at_column(column: u16) -> Position {
    if column == 0 {
        Position::NONE
    } else {
        Position::new(1, column)
    }
}

impl Making {
    /// Begins with nothing made.
    pub(crate) fn new(alloc: Global) -> Making {
        Making {
            memory: Memory::new(alloc),
            paths: Items::new(alloc),
            exprs: Items::new(alloc),
            statements: Items::new(alloc),
            blocks: Items::new(alloc),
            functions: Items::new(alloc),
        }
    }

    /// Hands over the statements that no part has taken, and the functions, or says that memory ran out.
    pub(crate) fn finish(self) -> Result<TreeParts, AllocError> {
        let Making {
            memory,
            paths,
            exprs,
            statements,
            blocks,
            functions,
        } = self;
        drop(paths);
        drop(exprs);
        drop(blocks);
        let tree = TreeParts {
            statements,
            functions,
        };
        if memory.has_run_out() {
            Err(AllocError)
        } else {
            Ok(tree)
        }
    }

    /// Hands over the statements alone, or says that memory ran out.
    pub(crate) fn finish_statements(self) -> Result<Items<Stmt>, AllocError> {
        let TreeParts {
            statements,
            functions,
        } = self.finish()?;
        drop(functions);
        Ok(statements)
    }

    /// Adds parts, one after another.
    pub(crate) fn add_all(&mut self, parts: &[Part<'_>]) {
        for part in parts {
            self.add(*part);
        }
    }

    /// Adds a part.
    pub(crate) fn add(&mut self, part: Part<'_>) {
        match part {
            Part::Int(value, column) => {
                self.push_expr(Expr::IntegerConstant(value, at_column(column)));
            }
            Part::Truth(value, column) => {
                self.push_expr(Expr::BoolConstant(value, at_column(column)));
            }
            Part::Character(value, column) => {
                self.push_expr(Expr::CharConstant(value, at_column(column)));
            }
            Part::Unit(column) => self.push_expr(Expr::Unit(at_column(column))),
            Part::This(column) => self.push_expr(Expr::ThisPtr(at_column(column))),
            Part::Always => self.push_expr(Expr::BoolConstant(true, Position::NONE)),
            Part::Path(names, index, column) => self.add_path(names, index, column),
            _ => self.add_named(part),
        }
    }

    /// Adds a text, a property, a variable or a pointer, or an expression that is made of others.
    fn add_named(&mut self, part: Part<'_>) {
        match part {
            Part::Text(text, column) => self.add_text(text, column),
            Part::Property(name, column) => self.add_property(name, column),
            Part::Variable(name, offset, column) => self.add_variable(name, offset, column),
            Part::Pointer(name, count, column) => self.add_pointer(name, count, column),
            _ => self.add_operation(part),
        }
    }

    fn add_text(&mut self, text: &str, column: u16) {
        if let Some(text) = self.memory.shared(text) {
            self.push_expr(Expr::StringConstant(text, at_column(column)));
        }
    }

    fn add_property(&mut self, name: &str, column: u16) {
        if let Some(name) = self.memory.shared(name) {
            self.push_expr(Expr::Property(name, at_column(column)));
        }
    }

    fn add_variable(&mut self, name: &str, offset: usize, column: u16) {
        if let Some(name) = self.memory.shared(name) {
            let namespace = self.path();
            self.push_expr(Expr::Variable {
                offset: NonZeroUsize::new(offset),
                name,
                namespace,
                pos: at_column(column),
            });
        }
    }

    fn add_pointer(&mut self, name: &str, count: usize, column: u16) {
        if let Some(name) = self.memory.shared(name) {
            let pointer = LiteralFnPtr {
                name,
                curry: self.memory.no_items(),
                kind: LiteralFnPtrKind::Arity(count),
            };
            self.push_expr(Expr::DynamicConstant(Literal::FnPtr(pointer), at_column(column)));
        }
    }

    /// Adds the path in front of the next name.
    fn add_path(&mut self, names: &[&str], index: usize, column: u16) {
        let path = self.memory.shared_names(names);
        self.memory.push(
            &mut self.paths,
            Namespace {
                path,
                index: NonZeroUsize::new(index),
                position: at_column(column),
            },
        );
    }

    fn push_expr(&mut self, expr: Expr) {
        self.memory.push(&mut self.exprs, expr);
    }

    fn push_stmt(&mut self, stmt: Stmt) {
        self.memory.push(&mut self.statements, stmt);
    }

    /// Makes a name at a column, None where there was no memory for it.
    fn ident(&mut self, name: &str, column: u16) -> Option<Ident> {
        match self.memory.shared(name) {
            Some(name) => Some(Ident {
                name,
                pos: at_column(column),
            }),
            None => None,
        }
    }

    /// Takes the path in front of a name, an empty one where there is none.
    fn path(&mut self) -> Namespace {
        match self.paths.pop() {
            Some(path) => path,
            None => no_namespace(self.memory.allocator()),
        }
    }

    /// Takes the newest expression, `()` where there is none.
    fn expr(&mut self) -> Expr {
        match self.exprs.pop() {
            Some(expr) => expr,
            None => Expr::Unit(Position::NONE),
        }
    }

    /// Takes the newest block, one without statements where there is none.
    fn block(&mut self) -> StmtBlock {
        match self.blocks.pop() {
            Some(block) => block,
            None => no_block(self.memory.allocator()),
        }
    }
}
