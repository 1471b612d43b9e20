//! `switch`, `for`, `try` and `throw`.

ghost use Rattle.std.specs.Prelude.{◌≡◌, ◌≢◌, None, Some, true};
ghost use Rattle.rhai_tree.specs.Position.{at as place, none as nowhere};
ghost use Rattle.rhai_tree.specs.declared.expr.Expr.TheVariants as expr;
ghost use Rattle.rhai_tree.specs.declared.expr.Stmt.TheVariants as stmt;
ghost use Rattle.rhai_tree.specs.declared.literal.Literal.TheVariants as Literal;
ghost use Rattle.rhai_build.specs.Build.{Made, break_option, case_of, ident_at, result_under};

use crate::{Builder, at};
use bitflags::Flags;
use rhai_tree::expr::{ConditionalExpr, Expr, Ident, RangeCase, Stmt, StmtBlock, SwitchCase};
use rhai_tree::flags::ASTFlags;
use rhai_tree::literal::Literal;
use rhai_tree::position::Position;

/// Builds a result of a `switch` under a condition.
pub fn result_if(condition: Expr, value: Expr) -> ConditionalExpr
    ensures { result ≡ result_under condition value }
{
    ConditionalExpr {
        condition,
        expr: value,
    }
}

/// Builds a result of a `switch` without a condition.
pub fn result_always(value: Expr) -> ConditionalExpr
    ensures { result ≡ result_under (expr.BoolConstant true nowhere) value }
{
    result_if(Expr::BoolConstant(true, Position::NONE), value)
}

/// Builds a `try` without a catch variable.
pub fn try_stmt(body: StmtBlock, branch: StmtBlock, column: u16) -> Stmt
    requires { column ≢ 0 }
    ensures { result ≡ stmt.TryCatch body (expr.Unit nowhere) branch (place 1 column) }
{
    Stmt::TryCatch(body, Expr::Unit(Position::NONE), branch, at(column))
}

/// Builds a `try` with a catch variable.
pub fn try_catching(body: StmtBlock, caught: Expr, branch: StmtBlock, column: u16) -> Stmt
    requires { column ≢ 0 }
    ensures { result ≡ stmt.TryCatch body caught branch (place 1 column) }
{
    Stmt::TryCatch(body, caught, branch, at(column))
}

/// Builds a `throw`, with its value if it has one.
pub fn throw_stmt(value: Option<Expr>, column: u16) -> Stmt
    requires { column ≢ 0 }
    ensures { result ≡ stmt.Return value break_option (place 1 column) }
{
    Stmt::Return(value, ASTFlags::BREAK, at(column))
}

impl Builder {
    /// Makes a text the value of a case.
    pub fn text_case(&mut self, text: &str) -> Literal
        ensures { Made self.old self.new (result ≡ Literal.Str text.now) }
    {
        match self.name(text) {
            Some(text) => Literal::Str(text),
            None => Literal::Unit,
        }
    }

    /// Builds a case of a `switch`: a value, and the numbers of its results, counted from 0.
    pub fn case<const N: usize>(&mut self, value: Literal, results: [usize; N]) -> SwitchCase
        ensures { Made self.old self.new (result ≡ case_of value results.entry) }
    {
        SwitchCase {
            value,
            blocks: self.list(results),
        }
    }

    /// Builds a `switch`, with the number of its default if it has one.
    pub fn switch_stmt<const N: usize, const M: usize, const K: usize>(
        &mut self,
        value: Expr,
        results: [ConditionalExpr; N],
        cases: [SwitchCase; M],
        ranges: [RangeCase; K],
        default: Option<usize>,
        column: u16,
    ) -> Stmt
        requires { column ≢ 0 }
        ensures { Made self.old self.new
            (result ≡ stmt.Switch value results.entry cases.entry ranges.entry default (place 1 column)) }
    {
        Stmt::Switch {
            expr: value,
            expressions: self.list(results),
            cases: self.list(cases),
            ranges: self.list(ranges),
            def_case: default,
            pos: at(column),
        }
    }

    /// Builds a `for`, whose variable stands at a column of its own.
    pub fn for_stmt(
        &mut self,
        name: &str,
        at_name: u16,
        value: Expr,
        body: StmtBlock,
        column: u16,
    ) -> Stmt
        requires at_name { at_name ≢ 0 }
        requires column { column ≢ 0 }
        ensures { Made self.old self.new
            (result ≡ stmt.For (ident_at name.now at_name) None value body (place 1 column)) }
    {
        match self.ident(name, at_name) {
            Some(name) => Stmt::For {
                name,
                counter: None,
                expr: value,
                body,
                pos: at(column),
            },
            None => Stmt::Noop(at(column)),
        }
    }

    /// Builds a `for` with a counter, which stands at a column of its own as its variable does.
    pub fn for_counted(
        &mut self,
        name: &str,
        at_name: u16,
        counter: &str,
        at_counter: u16,
        value: Expr,
        body: StmtBlock,
        column: u16,
    ) -> Stmt
        requires at_name { at_name ≢ 0 }
        requires at_counter { at_counter ≢ 0 }
        requires column { column ≢ 0 }
        ensures { Made self.old self.new (result ≡ stmt.For (ident_at name.now at_name)
            (Some (ident_at counter.now at_counter)) value body (place 1 column)) }
    {
        let (Some(name), Some(counter)) = (
            self.ident(name, at_name),
            self.ident(counter, at_counter),
        ) else {
            return Stmt::Noop(at(column));
        };
        Stmt::For {
            name,
            counter: Some(counter),
            expr: value,
            body,
            pos: at(column),
        }
    }
}
