//! Statements.

ghost use Rattle.std.specs.Prelude.{◌≡◌, ◌≢◌, Option, None, Some};
ghost use Rattle.rhai_tree.specs.Position.{at as place, none as nowhere};
ghost use Rattle.rhai_tree.specs.declared.expr.Expr.TheVariants as expr;
ghost use Rattle.rhai_tree.specs.declared.expr.Stmt.TheVariants as stmt;
ghost use Rattle.rhai_build.specs.Build.{absent_block, assigned_by, block_at, break_option, constant_option};
ghost use Rattle.rhai_build.specs.Build.{ident_at, Made, negated_option, no_options};

use crate::{Builder, at};
use bitflags::Flags;
use rhai_tree::Items;
use rhai_tree::expr::{Expr, OpAssignment, Stmt, StmtBlock};
use rhai_tree::flags::ASTFlags;
use rhai_tree::position::Position;
use rhai_tree::token::Token;
use std::alloc::Global;

impl Builder {
    /// Builds a block of statements between two braces.
    pub fn block<const N: usize>(
        &mut self,
        statements: [Stmt; N],
        opening: u16,
        closing: u16,
    ) -> StmtBlock
        requires opening { opening ≢ 0 }
        requires closing { closing ≢ 0 }
        ensures { Made self.old self.new (result ≡ block_at statements.entry opening closing) }
    {
        StmtBlock {
            statements: self.list(statements),
            position: at(opening),
            end_position: at(closing),
        }
    }

    /// Builds a declaration of a variable, whose name stands at a column of its own.
    pub fn let_stmt(&mut self, name: &str, at_name: u16, value: Expr, column: u16) -> Stmt
        requires at_name { at_name ≢ 0 }
        requires column { column ≢ 0 }
        ensures { Made self.old self.new
            (result ≡ stmt.Var (ident_at name.now at_name) value None no_options (place 1 column)) }
    {
        self.declaration(name, at_name, value, ASTFlags::empty(), column)
    }

    /// Builds a declaration of a constant, whose name stands at a column of its own.
    pub fn const_stmt(&mut self, name: &str, at_name: u16, value: Expr, column: u16) -> Stmt
        requires at_name { at_name ≢ 0 }
        requires column { column ≢ 0 }
        ensures { Made self.old self.new
            (result ≡ stmt.Var (ident_at name.now at_name) value None constant_option (place 1 column)) }
    {
        self.declaration(name, at_name, value, ASTFlags::CONSTANT, column)
    }

    fn declaration(
        &mut self,
        name: &str,
        at_name: u16,
        value: Expr,
        options: ASTFlags,
        column: u16,
    ) -> Stmt
        requires at_name { at_name ≢ 0 }
        requires column { column ≢ 0 }
        ensures { Made self.old self.new
            (result ≡ stmt.Var (ident_at name.now at_name) value None options (place 1 column)) }
    {
        match self.ident(name, at_name) {
            Some(name) => Stmt::Var(name, value, None, options, at(column)),
            None => Stmt::Noop(at(column)),
        }
    }
}

/// Makes a block that the text does not have.
pub fn no_block(alloc: Global) -> StmtBlock
    ensures { result ≡ absent_block }
{
    StmtBlock {
        statements: Items::new(alloc),
        position: Position::NONE,
        end_position: Position::NONE,
    }
}

/// Builds an assignment, by an operator where there is one.
pub fn assign(op: Option<Token>, column: u16, left: Expr, right: Expr) -> Stmt
    requires { column ≢ 0 }
    ensures { result ≡ stmt.Assignment (assigned_by op column) left right }
{
    let position = at(column);
    Stmt::Assignment(OpAssignment { op, position }, left, right)
}

/// Builds an `if`. Where the text has no `else`, its branch is `no_block`.
pub fn if_stmt(condition: Expr, body: StmtBlock, branch: StmtBlock, column: u16) -> Stmt
    requires { column ≢ 0 }
    ensures { result ≡ stmt.If condition body branch (place 1 column) }
{
    Stmt::If(condition, body, branch, at(column))
}

/// Builds a `while`.
pub fn while_stmt(condition: Expr, body: StmtBlock, column: u16) -> Stmt
    requires { column ≢ 0 }
    ensures { result ≡ stmt.While condition body (place 1 column) }
{
    Stmt::While(condition, body, at(column))
}

/// Builds a `loop`, which has no condition.
pub fn loop_stmt(body: StmtBlock, column: u16) -> Stmt
    requires { column ≢ 0 }
    ensures { result ≡ stmt.While (expr.Unit nowhere) body (place 1 column) }
{
    Stmt::While(Expr::Unit(Position::NONE), body, at(column))
}

/// Builds a `do` with a `while` after its body.
pub fn do_while(body: StmtBlock, condition: Expr, column: u16) -> Stmt
    requires { column ≢ 0 }
    ensures { result ≡ stmt.Do condition body no_options (place 1 column) }
{
    Stmt::Do(condition, body, ASTFlags::empty(), at(column))
}

/// Builds a `do` with an `until` after its body.
pub fn do_until(body: StmtBlock, condition: Expr, column: u16) -> Stmt
    requires { column ≢ 0 }
    ensures { result ≡ stmt.Do condition body negated_option (place 1 column) }
{
    Stmt::Do(condition, body, ASTFlags::NEGATED, at(column))
}

/// Builds a `break`, with its value if it has one.
pub fn break_stmt(value: Option<Expr>, column: u16) -> Stmt
    requires { column ≢ 0 }
    ensures { result ≡ stmt.BreakLoop value break_option (place 1 column) }
{
    Stmt::BreakLoop(value, ASTFlags::BREAK, at(column))
}

/// Builds a `continue`.
pub fn continue_stmt(column: u16) -> Stmt
    requires { column ≢ 0 }
    ensures { result ≡ stmt.BreakLoop None no_options (place 1 column) }
{
    Stmt::BreakLoop(None, ASTFlags::empty(), at(column))
}

/// Builds a `return`, with its value if it has one.
pub fn return_stmt(value: Option<Expr>, column: u16) -> Stmt
    requires { column ≢ 0 }
    ensures { result ≡ stmt.Return value no_options (place 1 column) }
{
    Stmt::Return(value, ASTFlags::empty(), at(column))
}
