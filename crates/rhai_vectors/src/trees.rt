//! Trees that the checker refuses, and some that it passes.

use crate::modules;
use crate::reader::Reader;
use crate::sheet::Sheet;
use rhai_build::functions::script_function;
use rhai_check::check::{CheckFault, check_function, check_tree};
use rhai_samples::built::{dot_that_ends_and_goes_on, method_of_a_module};
use rhai_samples::parts::statements_of;
use rhai_samples::refused::{
    INTEGER_ASSIGNED, INTEGER_BEHIND_A_DOT, METHOD_ASSIGNED, PROPERTY_ALONE,
};
use rhai_tree::Items;
use rhai_tree::expr::{Stmt, StmtBlock};
use rhai_tree::function::{FnAccess, ScriptFuncDef};
use rhai_tree::position::Position;
use std::alloc::{AllocError, Global};

/// Writes the fault for which the checker refuses the tree of a name, and its position, or that it passed.
pub fn answer(line: &mut Reader<'_>, out: &mut Sheet) {
    let name = line.word();
    match tree_of(line.allocator(), name) {
        Ok(Some(statements)) => check(line, statements, out),
        Ok(None) => line.want("the name of a tree"),
        Err(AllocError) => line.lack_memory(),
    }
}

/// Writes why the checker refuses a function whose body is the tree of a name, or that it passed.
pub fn answer_of_function(line: &mut Reader<'_>, out: &mut Sheet) {
    let alloc = line.allocator();
    let name = line.word();
    match function_of(alloc, name) {
        Ok(Some(def)) => tell(line, check_function(alloc, def).err(), out),
        Ok(None) => line.want("the name of a tree"),
        Err(AllocError) => line.lack_memory(),
    }
}

/// Builds a function that has the tree of a name for its body.
fn function_of(alloc: Global, name: &str) -> Result<Option<ScriptFuncDef>, AllocError> {
    match tree_of(alloc, name)? {
        Some(statements) => {
            let body = StmtBlock {
                statements,
                position: Position::NONE,
                end_position: Position::NONE,
            };
            script_function(alloc, FnAccess::Public, None, "f", &[], body).map(Some)
        }
        None => Ok(None),
    }
}

/// Builds the tree of a name.
fn tree_of(alloc: Global, name: &str) -> Result<Option<Items<Stmt>>, AllocError> {
    let parts = match name {
        "integer_behind_a_dot" => INTEGER_BEHIND_A_DOT,
        "dot_that_ends_and_goes_on" => return dot_that_ends_and_goes_on(alloc).map(Some),
        "integer_assigned" => INTEGER_ASSIGNED,
        "method_assigned" => METHOD_ASSIGNED,
        "property_alone" => PROPERTY_ALONE,
        "method_of_a_module" => return method_of_a_module(alloc).map(Some),
        _ => return tree_with_modules(alloc, name),
    };
    statements_of(alloc, parts).map(Some)
}

/// Builds the tree of a name that has imports or a path.
fn tree_with_modules(alloc: Global, name: &str) -> Result<Option<Items<Stmt>>, AllocError> {
    let statements = match name {
        "offset_behind_a_path" => modules::offset_behind_a_path(alloc),
        "index_without_imports" => modules::index_without_imports(alloc),
        "call_without_imports" => modules::call_without_imports(alloc),
        "index_of_an_import" => modules::index_of_an_import(alloc),
        "import_of_a_block" => modules::import_of_a_block(alloc),
        "import_without_an_alias" => modules::import_without_an_alias(alloc),
        "index_without_a_path" => modules::index_without_a_path(alloc),
        _ => return Ok(None),
    };
    statements.map(Some)
}

fn check(line: &mut Reader<'_>, statements: Items<Stmt>, out: &mut Sheet) {
    let alloc = line.allocator();
    let fault = check_tree(alloc, statements, Items::new(alloc)).err();
    tell(line, fault, out);
}

/// Writes a fault, or that there was none.
fn tell(line: &mut Reader<'_>, fault: Option<CheckFault>, out: &mut Sheet) {
    match fault {
        None => out.write("passed"),
        Some(CheckFault::NoMemory) => line.lack_memory(),
        Some(fault) => out.fault(fault),
    }
}
