//! Trees with imports, and with names behind a path.

use rhai_tree::expr::{Expr, FnCallExpr, Ident, Namespace, Stmt, StmtBlock};
use rhai_tree::position::Position;
use rhai_tree::{Items, Shared, Text};
use std::alloc::{AllocError, Global};
use std::num::NonZeroUsize;

/// Builds `try {} catch (x) { m::x }`, where the last name has the offset of the variable.
pub fn offset_behind_a_path(alloc: Global) -> Result<Items<Stmt>, AllocError> {
    let plain = path_of(alloc, None, None, Position::NONE)?;
    let caught = variable(alloc, None, plain, Position::new(1, 15))?;
    let path = path_of(alloc, Some("m"), None, Position::new(1, 20))?;
    let last = variable(alloc, NonZeroUsize::new(1), path, Position::new(1, 23))?;
    let body = block(alloc, None)?;
    let branch = block(alloc, Some(Stmt::Expr(last)))?;
    let tried = Stmt::TryCatch(body, caught, branch, Position::new(1, 1));
    list(alloc, None, tried)
}

/// Builds `m::x`, with an index where nothing is imported.
pub fn index_without_imports(alloc: Global) -> Result<Items<Stmt>, AllocError> {
    let last = indexed_variable(alloc, Some("m"), Position::new(1, 1), Position::new(1, 4))?;
    list(alloc, None, last)
}

/// Builds `m::f()`, with an index where nothing is imported.
pub fn call_without_imports(alloc: Global) -> Result<Items<Stmt>, AllocError> {
    let call = FnCallExpr {
        namespace: path_of(alloc, Some("m"), NonZeroUsize::new(1), Position::new(1, 1))?,
        name: name(alloc, "f")?,
        args: Items::new(alloc),
        op_token: None,
        capture_parent_scope: false,
    };
    list(alloc, None, Stmt::FnCall(call, Position::new(1, 4)))
}

/// Builds `import "m" as m; m::x`, with the import's index.
pub fn index_of_an_import(alloc: Global) -> Result<Items<Stmt>, AllocError> {
    let imported = import(alloc, Some("m"))?;
    let last = indexed_variable(alloc, Some("m"), Position::new(1, 18), Position::new(1, 21))?;
    list(alloc, Some(imported), last)
}

/// Builds `{ import "m" as m; } m::x`, with the import's index.
pub fn import_of_a_block(alloc: Global) -> Result<Items<Stmt>, AllocError> {
    let imported = import(alloc, Some("m"))?;
    let first = Stmt::Block(block(alloc, Some(imported))?);
    let last = indexed_variable(alloc, Some("m"), Position::new(1, 22), Position::new(1, 25))?;
    list(alloc, Some(first), last)
}

/// Builds `import "m"; ::x`, whose root is the empty text, with the import's index.
pub fn import_without_an_alias(alloc: Global) -> Result<Items<Stmt>, AllocError> {
    let imported = import(alloc, None)?;
    let last = indexed_variable(alloc, Some(""), Position::new(1, 13), Position::new(1, 15))?;
    list(alloc, Some(imported), last)
}

/// Builds `x`, whose namespace has an index and no path.
pub fn index_without_a_path(alloc: Global) -> Result<Items<Stmt>, AllocError> {
    let last = indexed_variable(alloc, None, Position::NONE, Position::new(1, 1))?;
    list(alloc, None, last)
}

fn name(alloc: Global, text: &str) -> Result<Shared<Text>, AllocError> {
    Shared::new(alloc, Text::from_str(alloc, text)?)
}

/// Builds a path of its root alone, or none.
fn path_of(
    alloc: Global,
    root: Option<&str>,
    index: Option<NonZeroUsize>,
    position: Position,
) -> Result<Namespace, AllocError> {
    let mut path = Items::new(alloc);
    if let Some(root) = root {
        path.push(name(alloc, root)?)?;
    }
    Ok(Namespace {
        path,
        index,
        position,
    })
}

/// Builds `x` behind a path.
fn variable(
    alloc: Global,
    offset: Option<NonZeroUsize>,
    namespace: Namespace,
    pos: Position,
) -> Result<Expr, AllocError> {
    Ok(Expr::Variable {
        offset,
        name: name(alloc, "x")?,
        namespace,
        pos,
    })
}

/// Builds `x` behind a path with the index of the newest import.
fn indexed_variable(
    alloc: Global,
    root: Option<&str>,
    position: Position,
    pos: Position,
) -> Result<Stmt, AllocError> {
    let path = path_of(alloc, root, NonZeroUsize::new(1), position)?;
    Ok(Stmt::Expr(variable(alloc, None, path, pos)?))
}

/// Builds an import of `m`.
fn import(alloc: Global, alias: Option<&str>) -> Result<Stmt, AllocError> {
    let module = Expr::StringConstant(name(alloc, "m")?, Position::NONE);
    let alias = match alias {
        Some(alias) => Some(Ident {
            name: name(alloc, alias)?,
            pos: Position::NONE,
        }),
        None => None,
    };
    Ok(Stmt::Import(module, alias, Position::NONE))
}

/// Builds a block of one statement, or of none.
fn block(alloc: Global, statement: Option<Stmt>) -> Result<StmtBlock, AllocError> {
    let mut statements = Items::new(alloc);
    if let Some(statement) = statement {
        statements.push(statement)?;
    }
    Ok(StmtBlock {
        statements,
        position: Position::NONE,
        end_position: Position::NONE,
    })
}

/// Builds a list of one statement or two.
fn list(alloc: Global, first: Option<Stmt>, last: Stmt) -> Result<Items<Stmt>, AllocError> {
    let mut statements = Items::new(alloc);
    if let Some(first) = first {
        statements.push(first)?;
    }
    statements.push(last)?;
    Ok(statements)
}
