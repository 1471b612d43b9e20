//! A script of a row or a list, made, checked and run in a way, and what holds after its run.

use crate::scripts::Source;
use rhai_eval_base::base::{CellId, Dynamic, EvalAltResult, Items, Scope, Union};
use rhai_eval_base::cells::CellStore;
use rhai_eval_base::check::{CheckFault, CheckedTree, check_tree};
use rhai_eval_base::state::{Caches, GlobalRuntimeState};
use rhai_eval_base::table::NativeTable;
use rhai_rows::levels::Levels;
use rhai_rows::linked_pointer::scope_for;
use rhai_rows::modules::add_library;
use rhai_rows::outcome::Ending;
use rhai_rows::print::write_ending;
use rhai_rows::refuser;
use rhai_rows::runner::Runner;
use rhai_rows::sample::Script;
use rhai_rows::settings::{Settings, Way};
use rhai_samples::operators::SUM;
use rhai_samples::parts::statements_of;
use rhai_tables::host::Pair;
use rhai_tables::tables::bench::BenchTable;
use std::alloc::Global;
use std::io;
use std::io::Write;
use std::mem::replace;

/// A script with its row or list and its number there, and a way to run it.
#[derive(Clone, Copy)]
pub struct Part<'a> {
    pub list: &'a str,
    pub place: usize,
    pub source: Source<'a>,
    pub way: Way,
}

/// What a run came to.
pub struct Report {
    /// The line of its ending, and how many operations were counted.
    pub line: Vec<u8>,
    /// The same of a second run of the script over the state that was left, None where the checker refused it.
    pub again: Option<Vec<u8>>,
    /// What the natives have counted.
    pub counter: i64,
    /// The names of the variables that it left, one a line.
    pub names: Vec<u8>,
    /// The names of the imports that it left, one a line.
    pub imports: Vec<u8>,
    pub has_run_out: bool,
    /// What should hold after a run, and does not.
    pub wrong: Option<&'static str>,
}

// Written by hand, so that what lets go of it calls this, and need not go through its parts.
impl Drop for Report {
    fn drop(self) {
        let Report {
            line: _,
            again: _,
            counter: _,
            names: _,
            imports: _,
            has_run_out: _,
            wrong: _,
        } = self;
    }
}

impl Part<'_> {
    /// Makes the script and runs it. None where the script or the state of its run could not be made.
    pub fn run<R: Runner>(self, alloc: Global) -> io::Result<Option<Report>> {
        let (Ok(script), Ok(global), Ok(scope)) = (
            self.source.script(alloc),
            GlobalRuntimeState::new(alloc),
            scope_for(alloc, self.list),
        ) else {
            return Ok(None);
        };
        let mut run = Run {
            global,
            caches: self.way.caches(alloc),
            table: BenchTable::new(alloc, script.settings.has_odd_natives),
            scope,
        };
        run.global.always_search_scope = self.way.always_search_scope;
        if script.settings.start.set(&mut run.global).is_err() {
            return Ok(None);
        }
        run.report::<R>(alloc, self.list, script)
    }
}

/// What a host keeps between runs.
struct Run {
    global: GlobalRuntimeState<Pair>,
    caches: Caches<Pair>,
    table: BenchTable,
    scope: Scope<Pair>,
}

// Written by hand, so that what lets go of it calls this, and need not go through its parts.
impl Drop for Run {
    fn drop(self) {
        let Run {
            global: _,
            caches: _,
            table: _,
            scope: _,
        } = self;
    }
}

impl Run {
    /// Checks and runs a script, sees to what holds then, and runs another and itself over what is left. None where the
    /// library of its functions or its engine could not be made.
    fn report<R: Runner>(
        mut self,
        alloc: Global,
        list: &str,
        script: Script,
    ) -> io::Result<Option<Report>> {
        let Script {
            statements,
            functions,
            settings,
        } = script;
        let variables = self.scope.len();
        let (tree, ending, is_restored) = match check_tree(alloc, statements, functions) {
            Err(fault) => (None, Ending::Refused(fault), true),
            Ok(tree) => {
                if add_library(alloc, &mut self.global, &tree).is_err() {
                    return Ok(None);
                }
                match self.run_tree::<R>(alloc, settings, &tree) {
                    Some((ending, is_restored)) => (Some(tree), ending, is_restored),
                    None => return Ok(None),
                }
            }
        };
        // What is asked for from here on is granted.
        refuser::end(alloc);
        let line = self.line_of(alloc, &ending)?;
        let has_run_out = found_no_memory(&ending);
        drop(ending);
        let counter = self.table.count();
        let names = names_of(alloc, &self.scope)?;
        let imports = imports_of(alloc, &self.global)?;
        let wrong = if is_restored {
            self.what_is_wrong::<R>(alloc, settings, variables)
        } else {
            Some("libraries or levels are not what they were")
        };
        let again = match &tree {
            Some(tree) => self.again::<R>(alloc, list, settings, tree)?,
            None => None,
        };
        drop(tree);
        Ok(Some(Report {
            line,
            again,
            counter,
            names,
            imports,
            has_run_out,
            wrong,
        }))
    }

    /// Runs a tree, and tells how it ends and whether what a run takes back is as it was. None where the
    /// engine could not be made.
    fn run_tree<R: Runner>(
        &mut self,
        alloc: Global,
        settings: Settings,
        tree: &CheckedTree,
    ) -> Option<(Ending, bool)> {
        let before = Levels::of(&self.global);
        self.caches.clear();
        let Ok(outcome) = R::eval_tree(
            alloc,
            &settings,
            &mut self.global,
            &mut self.caches,
            &mut self.table,
            &mut self.scope,
            tree,
        ) else {
            return None;
        };
        let is_restored = before.are_but_for_imports(&self.global);
        match outcome {
            Ok(value) => Some((Ending::Value(value), is_restored)),
            Err(error) => Some((Ending::Error(error), is_restored)),
        }
    }

    /// Tells what does not hold after a run that began with so many variables.
    fn what_is_wrong<R: Runner>(
        &mut self,
        alloc: Global,
        settings: Settings,
        variables: usize,
    ) -> Option<&'static str> {
        let limit = settings.limits.max_operations;
        if limit > 0 && self.global.num_operations > limit {
            Some("the count is past its limit")
        } else if self.global.num_operations == 0 && self.has_done_something(variables) {
            Some("nothing is counted, and something was done")
        } else if self.scope.len() < variables {
            Some("variables are gone that were there")
        } else if self.scope.len() > settings.limits.max_variables {
            Some("there are more variables than may be")
        } else if self.global.num_modules_loaded
            > settings
                .limits
                .max_modules
                .max(settings.start.num_modules_loaded)
        {
            Some("more modules are loaded than may be")
        } else if self.global.imports.len() > self.global.num_modules_loaded {
            Some("there are more imports than were loaded")
        } else if is_any_held(&self.global.cells) != settings.start.has_held_cell {
            Some("a cell is held, or one is held no more")
        } else if self.global.fits(&self.scope) == settings.start.has_held_cell {
            Some("state and scope do not fit together, or do with a cell that is held")
        } else if self.sum::<R>(alloc) != Some(42) {
            Some("40 + 2 is not 42 any more")
        } else {
            None
        }
    }

    /// Runs a script again over the state that is left, with all memory granted. Its variables and natives are new, and
    /// what counts against a limit begins as before the first run. None where it could not be made.
    fn again<R: Runner>(
        &mut self,
        alloc: Global,
        list: &str,
        settings: Settings,
        tree: &CheckedTree,
    ) -> io::Result<Option<Vec<u8>>> {
        let Ok(scope) = scope_for(alloc, list) else {
            return Ok(None);
        };
        let table = BenchTable::new(alloc, settings.has_odd_natives);
        drop(replace(&mut self.scope, scope));
        drop(replace(&mut self.table, table));
        self.global.num_operations = settings.start.num_operations;
        self.global.num_modules_loaded = settings.start.num_modules_loaded;
        match self.run_tree::<R>(alloc, settings, tree) {
            Some((ending, _)) => Ok(Some(self.line_of(alloc, &ending)?)),
            None => Ok(None),
        }
    }

    /// Writes the line of an ending, and how many operations are counted.
    fn line_of(&self, alloc: Global, ending: &Ending) -> io::Result<Vec<u8>> {
        let mut line = Vec::new(alloc);
        write_ending(alloc, ending, &mut line)?;
        write!(&mut line, ", {} operations", self.global.num_operations)?;
        Ok(line)
    }

    /// Tells whether a run that began with so many variables left a trace of what is charged.
    fn has_done_something(&self, variables: usize) -> bool {
        self.scope.len() > variables || self.table.count() > 0 || !self.global.imports.is_empty()
    }

    /// Evaluates `40 + 2` over what the run left.
    fn sum<R: Runner>(&mut self, alloc: Global) -> Option<i64> {
        let tree = check_tree(alloc, statements_of(alloc, SUM).ok()?, Items::new(alloc)).ok()?;
        self.global.num_operations = 0;
        match self.run_tree::<R>(alloc, Settings::USUAL, &tree)?.0 {
            Ending::Value(value) => integer_in(&value),
            _ => None,
        }
    }
}

/// Lists the names of a scope's variables, one a line.
fn names_of(alloc: Global, scope: &Scope<Pair>) -> io::Result<Vec<u8>> {
    let mut names = Vec::new(alloc);
    for entry in scope.entries() {
        writeln!(&mut names, "{}", entry.name.get().as_str())?;
    }
    Ok(names)
}

/// Lists the names of a state's imports, one a line.
fn imports_of(alloc: Global, global: &GlobalRuntimeState<Pair>) -> io::Result<Vec<u8>> {
    let mut names = Vec::new(alloc);
    for import in global.imports.as_slice() {
        writeln!(&mut names, "{}", import.name.get().as_str())?;
    }
    Ok(names)
}

fn found_no_memory(ending: &Ending) -> bool {
    match ending {
        Ending::Value(_) => false,
        Ending::Error(error) => matches!(error, EvalAltResult::ErrorOutOfMemory(_)),
        Ending::Refused(fault) => matches!(fault, CheckFault::NoMemory),
    }
}

fn is_any_held(cells: &CellStore<Pair>) -> bool {
    (0..cells.len()).any(|number| cells.get(CellId { number }).is_none())
}

fn integer_in(value: &Dynamic<Pair>) -> Option<i64> {
    match &value.value {
        Union::Int(number) => Some(*number),
        _ => None,
    }
}
