//! Expressions that are made of others.

use crate::making::{Making, at_column};
use crate::parts::Part;
use bitflags::Flags;
use rhai_tree::expr::{Expr, FnCallExpr, MapEntry};
use rhai_tree::flags::ASTFlags;
use rhai_tree::literal::Literal;
use rhai_tree::token::Token;
use rhai_tree::{Items, Table};

impl Making {
    /// Adds an expression that is made of others.
    pub(super) fn add_operation(&mut self, part: Part<'_>) {
        match part {
            Part::Array(count, column) => {
                let items = self.exprs(count);
                self.push_expr(Expr::Array(items, at_column(column)));
            }
            Part::Ones(count, at_item, column) => {
                let items = self.ones(count, at_item);
                self.push_expr(Expr::Array(items, at_column(column)));
            }
            Part::Map(names, column) => self.add_map(names, column),
            Part::MapLike(key, names, column) => self.add_map_like(key, names, column),
            Part::And(column) => {
                let operands = self.exprs(2);
                self.push_expr(Expr::And(operands, at_column(column)));
            }
            Part::Coalesce(column) => {
                let operands = self.exprs(2);
                self.push_expr(Expr::Coalesce(operands, at_column(column)));
            }
            Part::Operator(token, column) => {
                self.add_call(token.as_str(), 2, Some(token), column);
            }
            Part::Call(name, count, column) => self.add_call(name, count, None, column),
            Part::Method(name, count, column) => self.add_method(name, count, column),
            _ => self.add_chain(part),
        }
    }

    /// Adds a dot, an index, or a block as an expression.
    fn add_chain(&mut self, part: Part<'_>) {
        match part {
            Part::Dot(column) => self.add_dot(ASTFlags::empty(), column),
            Part::DotAtEnd(column) => self.add_dot(ASTFlags::BREAK, column),
            Part::DotUnlessUnit(column) => self.add_dot(ASTFlags::NEGATED, column),
            Part::Index(column) => self.add_index(ASTFlags::BREAK, column),
            Part::IndexOn(column) => self.add_index(ASTFlags::empty(), column),
            Part::BlockValue => {
                let block = self.block();
                self.push_expr(Expr::Stmt(block));
            }
            _ => self.add_stmt(part),
        }
    }

    /// Takes so many expressions.
    fn exprs(&mut self, count: usize) -> Items<Expr> {
        self.memory.take_last(&mut self.exprs, count)
    }

    /// Makes so many ones, which all stand at one position.
    fn ones(&mut self, count: u32, column: u16) -> Items<Expr> {
        let mut items = self.memory.no_items();
        for _ in 0..count {
            let one = Expr::IntegerConstant(1, at_column(column));
            self.memory.push(&mut items, one);
        }
        items
    }

    fn add_call(&mut self, name: &str, count: usize, op_token: Option<Token>, column: u16) {
        if let Some(call) = self.call(name, count, op_token) {
            self.push_expr(Expr::FnCall(call, at_column(column)));
        }
    }

    fn add_method(&mut self, name: &str, count: usize, column: u16) {
        if let Some(call) = self.call(name, count, None) {
            self.push_expr(Expr::MethodCall(call, at_column(column)));
        }
    }

    /// Makes a call with so many arguments, None where there was no memory for its name.
    fn call(&mut self, name: &str, count: usize, op_token: Option<Token>) -> Option<FnCallExpr> {
        match self.memory.shared(name) {
            Some(name) => Some(FnCallExpr {
                namespace: self.path(),
                name,
                args: self.exprs(count),
                op_token,
                capture_parent_scope: false,
            }),
            None => None,
        }
    }

    /// Adds a map with a value for each of its names.
    fn add_map(&mut self, names: &[&str], column: u16) {
        let mut template = Table::new(self.memory.allocator());
        for name in names.iter().rev() {
            self.add_key(&mut template, name);
        }
        self.push_map(names, template, column);
    }

    /// Adds a map with a value for each of its names, and a template with another key alone.
    fn add_map_like(&mut self, key: &str, names: &[&str], column: u16) {
        let mut template = Table::new(self.memory.allocator());
        self.add_key(&mut template, key);
        self.push_map(names, template, column);
    }

    fn add_key(&mut self, template: &mut Table<Literal>, key: &str) {
        if let Some(key) = self.memory.shared(key) {
            self.memory.remember(template.insert(key, Literal::Unit));
        }
    }

    /// Adds a map with a value for each of its names, and with a template.
    fn push_map(&mut self, names: &[&str], template: Table<Literal>, column: u16) {
        let mut entries = self.memory.no_items();
        for name in names.iter().rev() {
            if let Some(key) = self.memory.shared(name) {
                let value = self.expr();
                self.memory.put_first(&mut entries, MapEntry { key, value });
            }
        }
        self.push_expr(Expr::Map(entries, template, at_column(column)));
    }

    fn add_dot(&mut self, options: ASTFlags, column: u16) {
        let rest = self.expr();
        let object = self.expr();
        if let Some(rest) = self.memory.boxed(rest) {
            if let Some(object) = self.memory.boxed(object) {
                self.push_expr(Expr::Dot(object, rest, options, at_column(column)));
            }
        }
    }

    fn add_index(&mut self, options: ASTFlags, column: u16) {
        let rest = self.expr();
        let object = self.expr();
        if let Some(rest) = self.memory.boxed(rest) {
            if let Some(object) = self.memory.boxed(object) {
                self.push_expr(Expr::Index(object, rest, options, at_column(column)));
            }
        }
    }
}
