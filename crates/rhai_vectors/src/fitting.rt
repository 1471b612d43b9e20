//! Whether a state and a scope fit: where a cell or a table of constants that is not there can hide.

use crate::host::Stone;
use crate::reader::Reader;
use crate::sheet::Sheet;
use rhai_errors::errors::shared_text;
use rhai_state::scope::Scope;
use rhai_state::state::GlobalRuntimeState;
use rhai_tree::checked::CheckedFn;
use rhai_tree::expr::StmtBlock;
use rhai_tree::function::{FnAccess, ScriptFuncDef, ScriptFuncPayload};
use rhai_tree::position::Position;
use rhai_tree::{Boxed, Items, Shared, Table};
use rhai_values::base::value::{
    AccessMode, CellId, Dynamic, EncapsulatedEnviron, FnPtr, FnPtrKind, Module, Union,
};
use rhai_values::cells::put_back;
use std::alloc::{AllocError, Global};

/// How many steps a line has at most.
const MOST_STEPS: usize = 8;

/// A state and a scope.
struct Run {
    global: GlobalRuntimeState<Stone>,
    scope: Scope<Stone>,
}

// Written by hand, so that what lets go of it calls this, and need not go through its parts.
impl Drop for Run {
    fn drop(self) {
        let Run {
            global: _,
            scope: _,
        } = self;
    }
}

/// Writes whether a state and a scope fit after the steps of a line. The state begins with two cells, each
/// with an integer; the steps are:
///
/// - `variable HELD`: another variable
/// - `cell N HELD`: what a cell has, where there is such a cell
/// - `take N`: a cell is held
/// - `library VALUE`, `import VALUE`: another module, with a module in it that has the value as a constant
/// - `module HELD`: a library that has a constant
/// - `table HELD`: another table of constants, with one
/// - `current N`: the number of the current table
///
/// What is held is `plain VALUE`, or a pointer: `argument VALUE` with an argument, or `environ N VALUE` to a
/// function in an environment, which has that table, and a library as of `library`.
pub fn answer(line: &mut Reader<'_>, out: &mut Sheet) {
    if tell(line, out).is_err() {
        line.lack_memory();
    }
}

fn tell(line: &mut Reader<'_>, out: &mut Sheet) -> Result<(), AllocError> {
    let mut run = Run::new(line.allocator())?;
    for _ in 0..MOST_STEPS {
        if line.is_at_end() {
            break;
        }
        run.step(line)?;
    }
    out.write(if run.global.fits(&run.scope) {
        "true"
    } else {
        "false"
    });
    Ok(())
}

impl Run {
    fn new(alloc: Global) -> Result<Run, AllocError> {
        let mut global = GlobalRuntimeState::new(alloc)?;
        for number in 0..2 {
            if global.cells.add(Dynamic::new(Union::Int(number))).is_err() {
                return Err(AllocError);
            }
        }
        Ok(Run {
            global,
            scope: Scope::new(alloc),
        })
    }

    /// Does the next step of a line.
    fn step(&mut self, line: &mut Reader<'_>) -> Result<(), AllocError> {
        match line.word() {
            "variable" => self.add_variable(line),
            "cell" => self.store(line),
            "take" => self.take(line),
            "library" => self.add_library(line),
            "import" => self.add_import(line),
            "module" => self.add_module(line),
            "table" => self.add_table(line),
            "current" => {
                self.global.constants = line.count();
                Ok(())
            }
            _ => {
                line.want("variable, cell, take, library, import, module, table or current");
                Ok(())
            }
        }
    }

    fn add_variable(&mut self, line: &mut Reader<'_>) -> Result<(), AllocError> {
        let value = held(line)?;
        push_variable(line.allocator(), &mut self.scope, value)
    }

    /// Gives a cell a value, a bare handle too.
    fn store(&mut self, line: &mut Reader<'_>) -> Result<(), AllocError> {
        let number = line.count();
        let value = held(line)?;
        if number < self.global.cells.len() {
            put_back(&mut self.global.cells, CellId { number }, value);
        }
        Ok(())
    }

    fn take(&mut self, line: &mut Reader<'_>) -> Result<(), AllocError> {
        let number = line.count();
        drop(self.global.cells.take(CellId { number }));
        Ok(())
    }

    fn add_library(&mut self, line: &mut Reader<'_>) -> Result<(), AllocError> {
        let library = shared_outer(line)?;
        self.global.lib.push(library)
    }

    fn add_import(&mut self, line: &mut Reader<'_>) -> Result<(), AllocError> {
        let name = String::from_str(line.allocator(), "m")?;
        self.global.push_import(name, shared_outer(line)?)
    }

    fn add_module(&mut self, line: &mut Reader<'_>) -> Result<(), AllocError> {
        let value = held(line)?;
        let alloc = line.allocator();
        let library = Shared::new(alloc, inner(alloc, value)?)?;
        self.global.lib.push(library)
    }

    fn add_table(&mut self, line: &mut Reader<'_>) -> Result<(), AllocError> {
        let value = held(line)?;
        let table = table_of(line.allocator(), value)?;
        self.global.constant_tables.push(table)
    }
}

fn push_variable(
    alloc: Global,
    scope: &mut Scope<Stone>,
    value: Dynamic<Stone>,
) -> Result<(), AllocError> {
    let name = String::from_str(alloc, "x")?;
    scope.push_entry(name, AccessMode::ReadWrite, value)
}

/// Reads what is held next.
fn held(line: &mut Reader<'_>) -> Result<Dynamic<Stone>, AllocError> {
    match line.word() {
        "plain" => Ok(line.value()),
        "argument" => {
            let value = line.value();
            pointer(line.allocator(), value, FnPtrKind::Name)
        }
        "environ" => {
            let constants = line.count();
            let kind = function_in(line, constants)?;
            pointer(line.allocator(), Dynamic::new(Union::Unit), kind)
        }
        _ => {
            line.want("plain, argument or environ");
            Ok(Dynamic::new(Union::Unit))
        }
    }
}

/// Makes a pointer with an argument.
fn pointer(
    alloc: Global,
    argument: Dynamic<Stone>,
    kind: FnPtrKind<Stone>,
) -> Result<Dynamic<Stone>, AllocError> {
    let mut curry = Items::new(alloc);
    curry.push(argument)?;
    let name = shared_text(alloc, "f")?;
    let pointer = FnPtr { name, curry, kind };
    Ok(Dynamic::new(Union::FnPtr(Boxed::new(alloc, pointer)?)))
}

/// Reads the value of a library's constant, and makes what leads to a function in the environment that has
/// the library and a table of constants.
fn function_in(line: &mut Reader<'_>, constants: usize) -> Result<FnPtrKind<Stone>, AllocError> {
    let alloc = line.allocator();
    let mut lib = Items::new(alloc);
    lib.push(shared_outer(line)?)?;
    let environ = EncapsulatedEnviron {
        lib,
        imports: Items::new(alloc),
        constants,
    };
    let environ = Shared::new(alloc, environ)?;
    Ok(FnPtrKind::Script(function(alloc)?, Some(environ)))
}

/// Makes a function without statements.
fn function(alloc: Global) -> Result<Shared<CheckedFn>, AllocError> {
    let body = StmtBlock {
        statements: Items::new(alloc),
        position: Position::NONE,
        end_position: Position::NONE,
    };
    let def = ScriptFuncDef {
        body: ScriptFuncPayload::Statements(body),
        name: shared_text(alloc, "f")?,
        access: FnAccess::Public,
        this_type: None,
        params: Items::new(alloc),
    };
    Shared::new(alloc, CheckedFn::new(def))
}

/// Makes a table of constants with a value.
fn table_of(alloc: Global, value: Dynamic<Stone>) -> Result<Table<Dynamic<Stone>>, AllocError> {
    let mut table = Table::new(alloc);
    table.insert(shared_text(alloc, "c")?, value)?;
    Ok(table)
}

/// Makes a module with a constant.
fn inner(alloc: Global, value: Dynamic<Stone>) -> Result<Module<Stone>, AllocError> {
    let mut module = Module::new(alloc);
    module.constants = table_of(alloc, value)?;
    Ok(module)
}

/// Reads a value, and makes a module with a module in it that has the value as a constant.
fn shared_outer(line: &mut Reader<'_>) -> Result<Shared<Module<Stone>>, AllocError> {
    let value = line.value();
    let alloc = line.allocator();
    let within = Shared::new(alloc, inner(alloc, value)?)?;
    let mut module = Module::new(alloc);
    module.sub_modules.insert(shared_text(alloc, "m")?, within)?;
    Shared::new(alloc, module)
}
