//! Expressions and statements.

ghost use Rattle.std.specs.Prelude.{◌≡◌};
ghost use Rattle.rhai_tree.specs.Positions.{position_of, start_of, stmt_position_of};

use crate::flags::ASTFlags;
use crate::literal::Literal;
use crate::position::Position;
use crate::token::Token;
use crate::{Boxed, Items, Shared, Table, Text};
use std::num::NonZeroUsize;

/// A name with its position.
#[derive(Drop)]
pub struct Ident {
    pub name: Shared<Text>,
    pub pos: Position,
}

/// The path in front of a qualified name. Ports upstream's `Namespace`.
#[derive(Drop)]
pub struct Namespace {
    /// The names, root first. Empty for an unqualified name.
    pub path: Items<Shared<Text>>,
    /// Where the root stands among the imports, counted from the newest.
    pub index: Option<NonZeroUsize>,
    pub position: Position,
}

/// How a value is assigned: as it is, or by an operator.
#[derive(Clone, Copy, Debug, PartialEq, Eq)]
pub struct OpAssignment {
    /// The operator without its `=`, None for a plain assignment.
    pub op: Option<Token>,
    /// Where the operator stands.
    pub position: Position,
}

/// An expression. Ports upstream's `Expr`.
#[cycle(tree)]
pub enum Expr {
    DynamicConstant(Literal, Position),
    BoolConstant(bool, Position),
    IntegerConstant(i64, Position),
    CharConstant(char, Position),
    StringConstant(Shared<Text>, Position),
    Unit(Position),
    InterpolatedString(Items<Expr>, Position),
    Array(Items<Expr>, Position),
    /// The entries, and a template of the map that has their keys.
    Map(Items<MapEntry>, Table<Literal>, Position),
    ThisPtr(Position),
    Variable {
        /// Where the variable stands, counted from the scope's end.
        offset: Option<NonZeroUsize>,
        name: Shared<Text>,
        namespace: Namespace,
        pos: Position,
    },
    Property(Shared<Text>, Position),
    MethodCall(FnCallExpr, Position),
    FnCall(FnCallExpr, Position),
    Stmt(StmtBlock),
    /// `lhs.rhs`, at the dot.
    Dot(Boxed<Expr>, Boxed<Expr>, ASTFlags, Position),
    /// `lhs[rhs]`, at the bracket.
    Index(Boxed<Expr>, Boxed<Expr>, ASTFlags, Position),
    And(Items<Expr>, Position),
    Or(Items<Expr>, Position),
    Coalesce(Items<Expr>, Position),
}

// Written by hand, so that whoever lets an expression go calls this, and need not go through its
// forms there.
impl Drop for Expr {
    #[cycle(tree)]
    fn drop(self) {
        match self {
            Expr::DynamicConstant(literal, _) => drop(literal),
            Expr::StringConstant(text, _) | Expr::Property(text, _) => drop(text),
            Expr::InterpolatedString(parts, _)
            | Expr::Array(parts, _)
            | Expr::And(parts, _)
            | Expr::Or(parts, _)
            | Expr::Coalesce(parts, _) => drop(parts),
            Expr::Map(entries, template, _) => {
                drop(entries);
                drop(template);
            }
            Expr::Variable {
                offset: _,
                name,
                namespace,
                pos: _,
            } => {
                drop(name);
                drop(namespace);
            }
            Expr::MethodCall(call, _) | Expr::FnCall(call, _) => drop(call),
            Expr::Stmt(block) => drop(block),
            Expr::Dot(lhs, rhs, _, _) | Expr::Index(lhs, rhs, _, _) => {
                drop(lhs);
                drop(rhs);
            }
            Expr::BoolConstant(_, _)
            | Expr::IntegerConstant(_, _)
            | Expr::CharConstant(_, _)
            | Expr::Unit(_)
            | Expr::ThisPtr(_) => {}
        }
    }
}

impl Expr {
    /// Finds where the expression stands. A chain or an operator call stands at its operator,
    /// another call at its name, a block at its opening brace. Ports upstream's `Expr::position`.
    pub fn position(&self) -> Position
        ensures { result ≡ position_of self.now }
    {
        match self {
            Expr::DynamicConstant(_, pos)
            | Expr::BoolConstant(_, pos)
            | Expr::IntegerConstant(_, pos)
            | Expr::CharConstant(_, pos)
            | Expr::StringConstant(_, pos)
            | Expr::Unit(pos)
            | Expr::InterpolatedString(_, pos)
            | Expr::Array(_, pos)
            | Expr::Map(_, _, pos)
            | Expr::ThisPtr(pos)
            | Expr::Variable { pos, .. }
            | Expr::Property(_, pos)
            | Expr::MethodCall(_, pos)
            | Expr::FnCall(_, pos)
            | Expr::Dot(_, _, _, pos)
            | Expr::Index(_, _, _, pos)
            | Expr::And(_, pos)
            | Expr::Or(_, pos)
            | Expr::Coalesce(_, pos) => *pos,
            Expr::Stmt(block) => block.position,
        }
    }

    /// Finds where the expression's text starts. A chain, an operator between two operands and the
    /// operators over lists start at their first operand, a qualified variable at its path. Ports
    /// upstream's `Expr::start_position`.
    pub fn start_position(&self) -> Position
        ensures { result ≡ start_of self.now }
    {
        match self {
            Expr::Variable { namespace, pos, .. } => {
                if namespace.path.is_empty() {
                    *pos
                } else {
                    namespace.position
                }
            }
            Expr::FnCall(call, pos) => match (call.op_token, call.args.as_slice()) {
                (Some(_), [left, _]) => left.start_position(),
                _ => *pos,
            },
            Expr::Dot(lhs, _, _, _) | Expr::Index(lhs, _, _, _) => lhs.get().start_position(),
            Expr::And(parts, pos) | Expr::Or(parts, pos) | Expr::Coalesce(parts, pos) => {
                match parts.as_slice() {
                    [] => *pos,
                    [first, ..] => first.start_position(),
                }
            }
            _ => self.position(),
        }
    }
}

/// An entry of a map expression.
#[cycle(tree)]
#[derive(Drop)]
pub struct MapEntry {
    pub key: Shared<Text>,
    pub value: Expr,
}

/// A call. Ports upstream's `FnCallExpr`.
#[cycle(tree)]
#[derive(Drop)]
pub struct FnCallExpr {
    pub namespace: Namespace,
    pub name: Shared<Text>,
    pub args: Items<Expr>,
    /// The operator, where the call was written as one.
    pub op_token: Option<Token>,
    /// Whether the function runs on the caller's scope.
    pub capture_parent_scope: bool,
}

/// Statements in braces. Ports upstream's `StmtBlock`.
#[cycle(tree)]
#[derive(Drop)]
pub struct StmtBlock {
    pub statements: Items<Stmt>,
    /// The opening brace.
    pub position: Position,
    /// The closing brace.
    pub end_position: Position,
}

/// A result of a `switch` under its condition. Ports upstream's `ConditionalExpr`.
#[cycle(tree)]
#[derive(Drop)]
pub struct ConditionalExpr {
    pub condition: Expr,
    pub expr: Expr,
}

/// A case of a `switch`: a value, and the results that it may have, in order.
#[derive(Drop)]
pub struct SwitchCase {
    pub value: Literal,
    pub blocks: Items<usize>,
}

/// A case of a `switch` over integers, with its result. Ports upstream's `RangeCase`.
#[derive(Clone, Copy, Debug, PartialEq, Eq)]
pub enum RangeCase {
    ExclusiveInt(i64, i64, usize),
    InclusiveInt(i64, i64, usize),
}

/// A variable that closures share, by its name and offset.
#[derive(Drop)]
pub struct SharedVariable {
    pub ident: Ident,
    pub offset: Option<NonZeroUsize>,
}

/// A statement. Ports upstream's `Stmt`.
#[cycle(tree)]
pub enum Stmt {
    Noop(Position),
    Expr(Expr),
    FnCall(FnCallExpr, Position),
    Block(StmtBlock),
    Assignment(OpAssignment, Expr, Expr),
    Var(Ident, Expr, Option<NonZeroUsize>, ASTFlags, Position),
    If(Expr, StmtBlock, StmtBlock, Position),
    Switch {
        expr: Expr,
        expressions: Items<ConditionalExpr>,
        cases: Items<SwitchCase>,
        ranges: Items<RangeCase>,
        def_case: Option<usize>,
        pos: Position,
    },
    While(Expr, StmtBlock, Position),
    Do(Expr, StmtBlock, ASTFlags, Position),
    For {
        name: Ident,
        counter: Option<Ident>,
        expr: Expr,
        body: StmtBlock,
        pos: Position,
    },
    BreakLoop(Option<Expr>, ASTFlags, Position),
    TryCatch(StmtBlock, Expr, StmtBlock, Position),
    Return(Option<Expr>, ASTFlags, Position),
    Import(Expr, Option<Ident>, Position),
    Export(Ident, Option<Ident>, Position),
    Share(Items<SharedVariable>),
}

// Written by hand for the same reason.
impl Drop for Stmt {
    #[cycle(tree)]
    fn drop(self) {
        match self {
            Stmt::Expr(expr) => drop(expr),
            Stmt::FnCall(call, _) => drop(call),
            Stmt::Block(block) => drop(block),
            Stmt::Assignment(_, lhs, rhs) => {
                drop(lhs);
                drop(rhs);
            }
            Stmt::Var(ident, expr, _, _, _) => {
                drop(ident);
                drop(expr);
            }
            Stmt::If(condition, body, branch, _) => {
                drop(condition);
                drop(body);
                drop(branch);
            }
            Stmt::Switch {
                expr,
                expressions,
                cases,
                ranges,
                def_case: _,
                pos: _,
            } => {
                drop(expr);
                drop(expressions);
                drop(cases);
                drop(ranges);
            }
            Stmt::While(condition, body, _) | Stmt::Do(condition, body, _, _) => {
                drop(condition);
                drop(body);
            }
            Stmt::For {
                name,
                counter,
                expr,
                body,
                pos: _,
            } => {
                drop(name);
                drop(counter);
                drop(expr);
                drop(body);
            }
            Stmt::BreakLoop(expr, _, _) | Stmt::Return(expr, _, _) => drop(expr),
            Stmt::TryCatch(body, catch, handler, _) => {
                drop(body);
                drop(catch);
                drop(handler);
            }
            Stmt::Import(path, alias, _) => {
                drop(path);
                drop(alias);
            }
            Stmt::Export(name, alias, _) => {
                drop(name);
                drop(alias);
            }
            Stmt::Share(variables) => drop(variables),
            Stmt::Noop(_) => {}
        }
    }
}

impl Stmt {
    /// Finds where the statement starts. An expression or an assignment starts where its text does,
    /// `Share` at its first name, or nowhere where it has no names. Ports upstream's
    /// `Stmt::position`.
    pub fn position(&self) -> Position
        ensures { result ≡ stmt_position_of self.now }
    {
        match self {
            Stmt::Noop(pos)
            | Stmt::FnCall(_, pos)
            | Stmt::Var(_, _, _, _, pos)
            | Stmt::If(_, _, _, pos)
            | Stmt::Switch { pos, .. }
            | Stmt::While(_, _, pos)
            | Stmt::Do(_, _, _, pos)
            | Stmt::For { pos, .. }
            | Stmt::BreakLoop(_, _, pos)
            | Stmt::TryCatch(_, _, _, pos)
            | Stmt::Return(_, _, pos)
            | Stmt::Import(_, _, pos)
            | Stmt::Export(_, _, pos) => *pos,
            Stmt::Expr(expr) => expr.start_position(),
            Stmt::Assignment(_, lhs, _) => lhs.start_position(),
            Stmt::Block(block) => block.position,
            Stmt::Share(variables) => match variables.as_slice() {
                [] => Position::NONE,
                [first, ..] => first.ident.pos,
            },
        }
    }
}
