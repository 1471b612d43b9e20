//! What lookups find in the libraries and imports of a run, and what its caches keep of them.

use crate::host::Stone;
use crate::reader::Reader;
use crate::sheet::Sheet;
use rhai_build::functions::script_function;
use rhai_check::check::check_function;
use rhai_errors::errors::shared_text;
use rhai_functions::function::Function;
use rhai_functions::key::FnKey;
use rhai_lookups::caches::Caches;
use rhai_lookups::lists::{Lists, Mark};
use rhai_tree::checked::CheckedFn;
use rhai_tree::expr::StmtBlock;
use rhai_tree::function::FnAccess;
use rhai_tree::position::Position;
use rhai_tree::{Items, Shared};
use rhai_values::base::value::{Import, Module, ModuleFn};
use std::alloc::{AllocError, Global};

/// How many steps a line has at most.
const MOST_STEPS: usize = 16;

/// The libraries and imports of a run, and the lists of statements that it is in.
struct Run {
    lists: Lists<Stone>,
    marks: Vec<Mark>,
}

// Written by hand, so that what lets go of it calls this, and need not go through its parts.
impl Drop for Run {
    fn drop(self) {
        let Run { lists: _, marks: _ } = self;
    }
}

/// Writes what the lookups among the steps of a line find, and what is in the caches behind them: how many entries the
/// newest has, and how many there are. Behind `off` the caches keep nothing. The steps are:
///
/// - `library N NAME`, `import N NAME`, `global N NAME`: another module with the number N and a function, which an import
///   may show without its name
/// - `list`, `block`, `end`: a list of statements begins, one that takes its imports back too, and the newest ends
/// - `call`, `end-call`: a call of a function with an environment begins, and the newest ends
/// - `truncate LIBRARIES IMPORTS`: the first so many are left
/// - `find NAME`, `linked NAME`, `plain NAME`: the number of the module whose function is found, as the three lookups do
///   it, or `none`
pub fn answer(line: &mut Reader<'_>, out: &mut Sheet) {
    let alloc = line.allocator();
    let mut caches = match line.word() {
        "on" => Caches::new(alloc),
        "off" => Caches::off(alloc),
        _ => {
            line.want("on or off");
            Caches::off(alloc)
        }
    };
    let mut run = Run {
        lists: Lists::from_parts(Items::new(alloc), Items::new(alloc), &mut caches),
        marks: Vec::new(alloc),
    };
    for _ in 0..MOST_STEPS {
        if line.is_at_end() {
            break;
        }
        run.step(line, out);
    }
    run.give_to(&mut caches);
    out.kept(caches.entries(), caches.len());
    drop(caches);
}

impl Run {
    /// Ends the run, and leaves its oldest cache to the caller.
    fn give_to(self, caches: &mut Caches<Stone>) {
        let Run { lists, marks } = self;
        drop(marks);
        drop(lists.into_parts(caches));
    }

    /// Does the next step of a line.
    fn step(&mut self, line: &mut Reader<'_>, out: &mut Sheet) {
        let word = line.word();
        let done = match word {
            "library" => self.add_library(line),
            "import" => self.add_import(line, false),
            "global" => self.add_import(line, true),
            "call" => self.lists.begin_call(),
            _ => {
                self.move_on(word, line, out);
                Ok(())
            }
        };
        if done.is_err() {
            line.lack_memory();
        }
    }

    /// Does a step that adds nothing.
    fn move_on(&mut self, word: &str, line: &mut Reader<'_>, out: &mut Sheet) {
        match word {
            "list" => self.begin(false, line),
            "block" => self.begin(true, line),
            "end" => self.end(),
            "end-call" => self.lists.end_call(),
            "truncate" => {
                let libs = line.count();
                let imports = line.count();
                self.lists.truncate(libs, imports);
            }
            _ => self.look(word, line, out),
        }
    }

    /// Looks for a function without parameters, and tells which is found.
    fn look(&mut self, word: &str, line: &mut Reader<'_>, out: &mut Sheet) {
        let key = FnKey {
            name: line.word(),
            arity: 0,
            this_type: None,
        };
        let found = match word {
            "find" => self.find(&key),
            "linked" => self.lists.find_library(&key),
            "plain" => Ok(self.find_plain(&key)),
            _ => {
                line.want("a step");
                Ok(None)
            }
        };
        match found {
            Ok(found) => tell(found, out),
            Err(AllocError) => line.lack_memory(),
        }
    }

    /// Looks for a function in libraries and imports.
    fn find(&mut self, key: &FnKey<'_>) -> Result<Option<Function<Stone>>, AllocError> {
        let kept = self.lists.look_up(key)?;
        Ok(kept.into_found().0)
    }

    /// Looks for a function of a library that a call by its name alone means.
    fn find_plain(&mut self, key: &FnKey<'_>) -> Option<Function<Stone>> {
        self.lists
            .find_plain(key)
            .map(|def| Function { def, environ: None })
    }

    /// Begins a list of statements.
    fn begin(&mut self, restores: bool, line: &mut Reader<'_>) {
        let mark = self.lists.begin_list(restores);
        if self.marks.push(mark).is_err() {
            line.lack_memory();
        }
    }

    /// Ends the newest list of statements, if there is one.
    fn end(&mut self) {
        if let Some(mark) = self.marks.pop() {
            self.lists.end(mark);
        }
    }

    fn add_library(&mut self, line: &mut Reader<'_>) -> Result<(), AllocError> {
        let module = module(line, false)?;
        self.lists.push_lib(module)
    }

    /// Adds an import, whose function is global or not.
    fn add_import(&mut self, line: &mut Reader<'_>, is_global: bool) -> Result<(), AllocError> {
        let module = module(line, is_global)?;
        let name = shared_text(line.allocator(), "m")?;
        self.lists.push_import(Import { name, module })
    }
}

/// Tells the number of the module that a function is of, or `none`.
fn tell(found: Option<Function<Stone>>, out: &mut Sheet) {
    match found {
        Some(function) => {
            let start = function.def.get().def().body.start_position();
            drop(function);
            out.number(start.line().unwrap_or(0));
        }
        None => out.write("none"),
    }
    out.write(", ");
}

/// Reads a number and a name, and makes a module with a function of that name, whose body begins at the line of that
/// number.
fn module(line: &mut Reader<'_>, is_global: bool) -> Result<Shared<Module<Stone>>, AllocError> {
    let alloc = line.allocator();
    let number = line.count();
    let def = function(alloc, number, line.word())?;
    let mut module = Module::new(alloc);
    module.functions.push(ModuleFn {
        def,
        environ: None,
        is_global,
    })?;
    Shared::new(alloc, module)
}

/// Makes a function without statements, whose body begins at a line.
fn function(alloc: Global, number: usize, name: &str) -> Result<Shared<CheckedFn>, AllocError> {
    let body = StmtBlock {
        statements: Items::new(alloc),
        position: start_of(number),
        end_position: Position::NONE,
    };
    let def = script_function(alloc, FnAccess::Public, None, name, &[], body)?;
    match check_function(alloc, def) {
        Ok(checked) => Shared::new(alloc, checked),
        Err(_) => Err(AllocError),
    }
}

/// Returns the first position of a line, none for zero.
fn start_of(number: usize) -> Position {
    match u16::try_from(number) {
        Ok(line) if line > 0 => Position::new(line, 1),
        _ => Position::NONE,
    }
}
