//! Statements without parts of their own, and blocks.

use crate::making::{Making, at_column};
use crate::parts::Part;
use bitflags::Flags;
use rhai_build::statements::no_block;
use rhai_tree::expr::{Expr, OpAssignment, Stmt, StmtBlock};
use rhai_tree::flags::ASTFlags;
use rhai_tree::position::Position;
use rhai_tree::token::Token;
use std::num::NonZeroUsize;

/// Joins options into one.
fn join_options(options: &[ASTFlags]) -> ASTFlags {
    let mut all = ASTFlags::empty();
    for option in options {
        all.insert(*option);
    }
    all
}

impl Making {
    /// Adds a block or a statement.
    pub(super) fn add_stmt(&mut self, part: Part<'_>) {
        match part {
            Part::Block(count, opening, closing) => self.add_block(count, opening, closing),
            Part::Value => {
                let value = self.expr();
                self.push_stmt(Stmt::Expr(value));
            }
            Part::BlockStatement => {
                let block = self.block();
                self.push_stmt(Stmt::Block(block));
            }
            Part::Assign(column) => self.add_assignment(None, column),
            Part::AssignBy(token, column) => self.add_assignment(Some(token), column),
            Part::Throw(column) => self.add_throw(None, column),
            Part::ThrowValue(column) => {
                let value = self.expr();
                self.add_throw(Some(value), column);
            }
            _ => self.add_declaration(part),
        }
    }

    /// Adds so many statements as a block.
    fn add_block(&mut self, count: usize, opening: u16, closing: u16) {
        let statements = self.memory.take_last(&mut self.statements, count);
        self.memory.push(
            &mut self.blocks,
            StmtBlock {
                statements,
                position: at_column(opening),
                end_position: at_column(closing),
            },
        );
    }

    fn add_throw(&mut self, value: Option<Expr>, column: u16) {
        self.push_stmt(Stmt::Return(value, ASTFlags::BREAK, at_column(column)));
    }

    /// Adds a declaration of a variable or a constant.
    fn add_declaration(&mut self, part: Part<'_>) {
        match part {
            Part::Let(name, at_name, column) => self.declare(name, at_name, 0, &[], column),
            Part::Const(name, at_name, column) => {
                self.declare(name, at_name, 0, &[ASTFlags::CONSTANT], column);
            }
            Part::ExportLet(name, at_name, column) => {
                self.declare(name, at_name, 0, &[ASTFlags::EXPORTED], column);
            }
            Part::ExportConst(name, at_name, column) => {
                let options = [ASTFlags::CONSTANT, ASTFlags::EXPORTED];
                self.declare(name, at_name, 0, &options, column);
            }
            Part::Overwrite(name, at_name, offset, options, column) => {
                self.declare(name, at_name, offset, options, column);
            }
            _ => self.add_branch(part),
        }
    }

    /// Adds a `let` with options over the variable at an offset from the end of the scope. Zero is no
    /// offset.
    fn declare(
        &mut self,
        name: &str,
        at_name: u16,
        offset: usize,
        options: &[ASTFlags],
        column: u16,
    ) {
        if let Some(name) = self.ident(name, at_name) {
            let value = self.expr();
            let index = NonZeroUsize::new(offset);
            let options = join_options(options);
            self.push_stmt(Stmt::Var(name, value, index, options, at_column(column)));
        }
    }

    fn add_assignment(&mut self, op: Option<Token>, column: u16) {
        let right = self.expr();
        let left = self.expr();
        let position = at_column(column);
        self.push_stmt(Stmt::Assignment(OpAssignment { op, position }, left, right));
    }

    /// Adds an `if`, or a loop.
    fn add_branch(&mut self, part: Part<'_>) {
        match part {
            Part::If(column) => {
                let branch = no_block(self.memory.allocator());
                self.add_if(branch, column);
            }
            Part::IfElse(column) => {
                let branch = self.block();
                self.add_if(branch, column);
            }
            Part::While(column) => {
                let condition = self.expr();
                self.add_loop(condition, column);
            }
            Part::Loop(column) => self.add_loop(Expr::Unit(Position::NONE), column),
            _ => self.add_jump(part),
        }
    }

    fn add_if(&mut self, branch: StmtBlock, column: u16) {
        let body = self.block();
        let condition = self.expr();
        self.push_stmt(Stmt::If(condition, body, branch, at_column(column)));
    }

    fn add_loop(&mut self, condition: Expr, column: u16) {
        let body = self.block();
        self.push_stmt(Stmt::While(condition, body, at_column(column)));
    }

    /// Adds what leaves a loop.
    fn add_jump(&mut self, part: Part<'_>) {
        match part {
            Part::Break(column) => {
                self.push_stmt(Stmt::BreakLoop(None, ASTFlags::BREAK, at_column(column)));
            }
            Part::BreakWith(column) => {
                let value = Some(self.expr());
                self.push_stmt(Stmt::BreakLoop(value, ASTFlags::BREAK, at_column(column)));
            }
            Part::Continue(column) => {
                self.push_stmt(Stmt::BreakLoop(None, ASTFlags::empty(), at_column(column)));
            }
            _ => self.add_choice(part),
        }
    }
}
