//! Trees as lists of their parts, each behind those that it is made of, as an operator behind its operands.

use crate::making::Making;
use rhai_build::functions::TreeParts;
use rhai_tree::Items;
use rhai_tree::expr::{RangeCase, Stmt};
use rhai_tree::flags::ASTFlags;
use rhai_tree::token::Token;
use std::alloc::{AllocError, Global};

/// A part of a tree. It takes what it is made of from the parts before it, the newest first: `()`, or a block
/// without statements, where there is too little. Columns stand last, that of a name right behind the name;
/// zero is no position.
#[derive(Clone, Copy)]
pub enum Part<'a> {
    Int(i64, u16),
    Truth(bool, u16),
    Character(char, u16),
    Unit(u16),
    This(u16),
    Text(&'a str, u16),
    /// A variable with its offset from the end of the scope; zero is none, and the name is searched.
    Variable(&'a str, usize, u16),
    /// The path in front of the next name: its names, the root first, and the root's index among the imports,
    /// counted from the newest; zero is none.
    Path(&'a [&'a str], usize, u16),
    /// A constant pointer to the function of a name with so many parameters.
    Pointer(&'a str, usize, u16),
    /// An array of so many ones, which all stand at the first column.
    Ones(u32, u16, u16),
    /// An array of so many items.
    Array(usize, u16),
    /// A map with a value for each of its names.
    Map(&'a [&'a str], u16),
    /// A map with a value for each of its names, and a template with another one alone.
    MapLike(&'a str, &'a [&'a str], u16),
    And(u16),
    Coalesce(u16),
    /// An operator between two operands.
    Operator(Token, u16),
    /// A call with so many arguments.
    Call(&'a str, usize, u16),
    Property(&'a str, u16),
    /// A method with so many arguments.
    Method(&'a str, usize, u16),
    /// A dot between an expression and what stands behind it.
    Dot(u16),
    /// A dot where its chain ends.
    DotAtEnd(u16),
    DotUnlessUnit(u16),
    /// An expression at an index, where its chain ends.
    Index(u16),
    /// An expression at an index from which its chain goes on.
    IndexOn(u16),
    /// So many statements between two braces.
    Block(usize, u16, u16),
    /// A block as an expression.
    BlockValue,
    /// An expression as a statement.
    Value,
    /// A block as a statement.
    BlockStatement,
    Let(&'a str, u16, u16),
    Const(&'a str, u16, u16),
    /// A variable that is exported where it is declared.
    ExportLet(&'a str, u16, u16),
    /// A constant that is exported where it is declared.
    ExportConst(&'a str, u16, u16),
    /// A `let` with options over the variable at an offset from the end of the scope; zero is none.
    Overwrite(&'a str, u16, usize, &'a [ASTFlags], u16),
    Assign(u16),
    AssignBy(Token, u16),
    /// An `if` without an `else`.
    If(u16),
    IfElse(u16),
    While(u16),
    Loop(u16),
    Break(u16),
    BreakWith(u16),
    Continue(u16),
    Throw(u16),
    ThrowValue(u16),
    Try(u16),
    TryCatching(u16),
    For(&'a str, u16, u16),
    ForCounted(&'a str, u16, &'a str, u16, u16),
    /// A condition that is met, which no text has, before a result of a `switch`.
    Always,
    /// A `switch` of so many results, each behind its condition, with its cases, its ranges and the number of
    /// its default.
    Switch(usize, &'a [Case<'a>], &'a [RangeCase], Option<usize>, u16),
    /// What closures share: names, each with its offset from the end of the scope, zero for none.
    Share(&'a [(&'a str, usize, u16)]),
    /// A variable that is exported under its own name.
    Export(&'a str, u16, u16),
    /// A variable that is exported under an alias.
    ExportAs(&'a str, u16, &'a str, u16, u16),
    /// An `import` of what an expression leads to, without an alias.
    Import(u16),
    /// An `import` of what an expression leads to, under an alias.
    ImportAs(&'a str, u16, u16),
    /// A function with a block.
    Function(&'a str, &'a [&'a str]),
    /// A private function with a block.
    PrivateFunction(&'a str, &'a [&'a str]),
}

/// A case of a `switch`: its value, and the numbers of its results.
#[derive(Clone, Copy)]
pub enum Case<'a> {
    OfInt(i64, &'a [usize]),
    OfText(&'a str, &'a [usize]),
    OfCharacter(char, &'a [usize]),
    OfTruth(bool, &'a [usize]),
}

/// Builds the statements of a tree without functions.
pub fn statements_of(alloc: Global, parts: &[Part<'_>]) -> Result<Items<Stmt>, AllocError> {
    let mut making = Making::new(alloc);
    making.add_all(parts);
    making.finish_statements()
}

/// Builds the statements of a tree and the functions beside them.
pub fn tree_of(alloc: Global, parts: &[Part<'_>]) -> Result<TreeParts, AllocError> {
    let mut making = Making::new(alloc);
    making.add_all(parts);
    making.finish()
}
