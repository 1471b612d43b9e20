//! What a host has for a call that it enters by itself, and the calls that take no part of a tree, or any list of it.

ghost use Rattle.std.specs.Prelude.{◌≡◌, false, true, OnOk, IsTrue, Bool, length, map};
ghost use Rattle.rhai_tree.specs.declared.expr.Expr.{out-Expr};
ghost use Rattle.rhai_tree.specs.declared.expr.Stmt.{out-Stmt};
ghost use Rattle.rhai_tree.specs.Frame.{all_resolve, resolves_stmt};
ghost use Rattle.rhai_laws.specs.Kept.{is_import};
ghost use Rattle.rhai_steps.specs.Callers.{AgreesAt, frame_of, sight_of};
ghost use Rattle.rhai_steps.specs.Agreement.{Leads, changes, passes};
ghost use Rattle.rhai_state.specs.Scope.{in_use, names_in, Fits};
ghost use Rattle.rhai_values.specs.Cells.{IsNoHandle};
ghost use Rattle.rhai_steps.specs.Offsets.{index_in, offset_in};
ghost use Rattle.rhai_eval.specs.Search.{is_variable, names_variable};

use crate::script::engine_of;
use rhai_eval::base::{
    Dynamic, EvalAltResult, Expr, Items, Namespace, OpAssignment, Position, Scope, Stmt, Union,
};
use rhai_eval::cells::CellStore;
use rhai_eval::engine::Engine;
use rhai_eval::eval::search::variable_mut;
use rhai_eval::state::{Caches, GlobalRuntimeState, Module};
use rhai_eval::target::{Part, Target};
use rhai_names::variables::is_plain;
use rhai_rows::entry::Entry;
use rhai_rows::outcome::{Ending, Outcome};
use rhai_rows::settings::{Settings, Way};
use rhai_rows::start::first_handle;
use rhai_tables::host::Pair;
use rhai_tables::tables::bench::BenchTable;
use std::alloc::{AllocError, Global};
use std::mem::replace;
use std::num::NonZeroUsize;

/// What a host has for its calls.
pub(crate) struct Host {
    pub(crate) engine: Engine<Pair>,
    pub(crate) global: GlobalRuntimeState<Pair>,
    pub(crate) caches: Caches<Pair>,
    pub(crate) table: BenchTable,
    pub(crate) scope: Scope<Pair>,
    /// What a call has as its `this`, or what it works on: 1 at first, or the handle of the cell that is held.
    pub(crate) this: Dynamic<Pair>,
}

// Written by hand, so that what lets go of it calls this, and need not go through its parts.
impl Drop for Host {
    fn drop(self) {
        let Host {
            engine: _,
            global: _,
            caches: _,
            table: _,
            scope: _,
            this: _,
        } = self;
    }
}

/// What a call comes to.
pub(crate) type Answer = Result<Dynamic<Pair>, EvalAltResult<Pair>>;

/// Answers where a statement is none that a call takes: by an error without a position.
pub(crate) fn no_part() -> Answer {
    Err(EvalAltResult::ErrorUnboundThis(Position::NONE))
}

/// Returns the value of an answer, and leaves out what is told besides.
pub(crate) fn value_of<T: Copy>(answer: Result<(Dynamic<Pair>, T), EvalAltResult<Pair>>) -> Answer {
    match answer {
        Ok((value, _)) => Ok(value),
        Err(error) => Err(error),
    }
}

fn unit() -> Dynamic<Pair> {
    Dynamic::new(Union::Unit)
}

/// Tells whether an offset, if there is one, is at most a length.
fn is_within(offset: Option<NonZeroUsize>, length: usize) -> bool
    ensures { IsTrue result → (searches : Bool) → Fits (in_use searches offset) length }
{
    match offset {
        Some(offset) => offset.get() <= length,
        None => true,
    }
}

/// Tells whether an expression is a variable whose offset, if it has one, is at most a length.
fn is_in_scope(expr: &Expr, length: usize) -> bool
    ensures variable { IsTrue result → names_variable (out-Expr expr.now) ≡ true }
    ensures fits { IsTrue result → (searches : Bool) → Fits (offset_in searches (out-Expr expr.now)) length }
{
    match expr {
        Expr::Variable { offset, .. } => is_within(*offset, length),
        _ => false,
    }
}

/// Tells whether the index of a variable's path, if it has both, is at most a number of imports.
fn is_imported(expr: &Expr, imports: usize) -> bool
    ensures { IsTrue result → (searches : Bool) → Fits (index_in searches (out-Expr expr.now)) imports }
{
    match expr {
        Expr::Variable { namespace, .. } => {
            if is_plain(namespace) {
                return true;
            }
            is_within(namespace.index, imports)
        }
        _ => true,
    }
}

/// Tells whether an expression is a variable without a path.
fn is_alone(expr: &Expr) -> bool
    ensures { IsTrue result → is_variable (out-Expr expr.now) ≡ true }
{
    match expr {
        Expr::Variable { namespace, .. } => is_plain(namespace),
        _ => false,
    }
}

/// Tells whether a value is a handle of a cell.
fn is_handle(value: &Dynamic<Pair>) -> bool
    ensures { result ≡ false → IsNoHandle value.now.value }
{
    matches!(&value.value, Union::Cell(_))
}

impl Host {
    /// Makes a host above the variables of a scope.
    pub(crate) fn new(
        alloc: Global,
        settings: &Settings,
        way: Way,
        scope: Scope<Pair>,
    ) -> Result<Host, AllocError> {
        let engine = engine_of(alloc, settings)?;
        let mut global = GlobalRuntimeState::new(alloc)?;
        global.always_search_scope = way.always_search_scope;
        settings.start.set(&mut global)?;
        let this = if settings.start.has_held_cell {
            first_handle()
        } else {
            Dynamic::new(Union::Int(1))
        };
        Ok(Host {
            engine,
            global,
            caches: way.caches(alloc),
            table: BenchTable::new(alloc, settings.has_odd_natives),
            scope,
            this,
        })
    }

    /// Tells what a call came to, with what it left.
    pub(crate) fn outcome(self, alloc: Global, ending: Ending) -> Outcome {
        let Host {
            engine: _,
            global,
            caches,
            table,
            scope,
            this,
        } = self;
        let mut global = global;
        Outcome {
            ending,
            num_operations: global.num_operations,
            num_modules_loaded: global.num_modules_loaded,
            imports: replace(&mut global.imports, Items::new(alloc)),
            cells: replace(&mut global.cells, CellStore::new(alloc)),
            scope,
            this,
            counted: table.count(),
            entries: caches.entries(),
            depth: caches.len(),
        }
    }

    /// Runs a statement.
    pub(crate) fn run(&mut self, alloc: Global, stmt: &Stmt) -> Answer
        requires { AgreesAt self.old.global self.old.scope (passes (resolves_stmt stmt.now)) }
        ensures leads { OnOk result (is_import (out-Stmt stmt.now) ≡ false →
            Leads (sight_of self.old.global)
            (changes (resolves_stmt stmt.now) (frame_of self.old.global self.old.scope))
            (sight_of self.new.global) (names_in self.new.scope)) }
    {
        self.caches.clear();
        self.engine.eval_stmt(
            alloc,
            &mut self.global,
            &mut self.caches,
            &mut self.table,
            &mut self.scope,
            Some(&mut self.this),
            stmt,
            false,
        )
    }

    /// Runs a list of statements.
    pub(crate) fn run_list(&mut self, alloc: Global, statements: &[Stmt], restores: bool) -> Answer
        requires { AgreesAt self.old.global self.old.scope
            (passes (all_resolve (map resolves_stmt statements.now))) }
    {
        self.caches.clear();
        self.engine.eval_stmt_block(
            alloc,
            &mut self.global,
            &mut self.caches,
            &mut self.table,
            &mut self.scope,
            Some(&mut self.this),
            statements,
            restores,
        )
    }

    /// Assigns a value to `this`.
    pub(crate) fn assign(
        &mut self,
        alloc: Global,
        op: &OpAssignment,
        root: &Expr,
        value: Dynamic<Pair>,
    ) -> Answer
        requires { IsNoHandle value.value }
    {
        let mut target = Target {
            at: &mut self.this,
            part: Part::Whole,
        };
        let done = self.engine.eval_op_assignment(
            alloc,
            &mut self.global,
            &mut self.caches,
            &mut self.table,
            op,
            root,
            &mut target,
            value,
        );
        done.map(|()| unit())
    }

    /// Finds the place of a variable, behind a path or not, puts a value there if there is one, and answers what stood
    /// there before.
    pub(crate) fn search(
        &mut self,
        alloc: Global,
        expr: &Expr,
        new: Option<Dynamic<Pair>>,
    ) -> Answer {
        if !is_in_scope(expr, self.scope.len()) {
            drop(new);
            return no_part();
        }
        if !is_imported(expr, self.global.imports.len()) {
            drop(new);
            return no_part();
        }
        let mut found = self.engine.search_namespace(
            alloc,
            &mut self.global,
            &mut self.caches,
            &mut self.table,
            &mut self.scope,
            Some(&mut self.this),
            expr,
        )?;
        match new {
            Some(value) => Ok(replace(found.as_mut(), value)),
            None => found.take_or_clone(alloc),
        }
    }

    /// Puts a value in the place of a variable without a path, and answers what stood there before.
    pub(crate) fn write(&mut self, expr: &Expr, new: Dynamic<Pair>) -> Answer {
        if !is_alone(expr) {
            drop(new);
            return no_part();
        }
        if !is_in_scope(expr, self.scope.len()) {
            drop(new);
            return no_part();
        }
        match variable_mut(&mut self.scope, &self.global, expr) {
            Ok(place) => Ok(replace(place, new)),
            Err(error) => {
                drop(new);
                Err(error)
            }
        }
    }

    /// Charges an operation.
    pub(crate) fn charge(&mut self, pos: Position) -> Answer {
        let charged = self.engine.track_operation(&mut self.global, pos);
        charged.map(|()| unit())
    }

    /// Finds the root of the path of a list's last variable, and answers its constant of the variable's name, or `()`.
    pub(crate) fn read_root(&self, alloc: Global, statements: &[Stmt]) -> Answer {
        match statements.last() {
            Some(Stmt::Expr(expr)) => self.read_constant(alloc, expr),
            _ => no_part(),
        }
    }

    /// Finds the root of the path of a variable, and answers its constant of the variable's name, or `()`.
    fn read_constant(&self, alloc: Global, expr: &Expr) -> Answer {
        let Expr::Variable {
            name,
            namespace,
            ..
        } = expr
        else {
            return no_part();
        };
        match self.root(namespace) {
            Some(module) => constant_of(alloc, module, name.get().as_str()),
            None => Ok(unit()),
        }
    }

    /// Finds the module at the root of a path.
    fn root(&self, namespace: &Namespace) -> Option<&Module<Pair>> {
        if is_within(namespace.index, self.global.imports.len()) {
            self.engine.search_imports(&self.global, namespace)
        } else {
            None
        }
    }

    /// Asks for the item of the first of some values at the index that the second is, or sets it to the third. What is
    /// left of the first is `this` then.
    pub(crate) fn index(
        &mut self,
        alloc: Global,
        entry: Entry,
        items: &mut [Dynamic<Pair>],
    ) -> Answer {
        match items {
            [object, index, new] => {
                let answer = self.engine.call_indexer_set(
                    alloc,
                    &mut self.global,
                    &mut self.caches,
                    &mut self.table,
                    object,
                    index,
                    new,
                    true,
                    Position::new(1, 1),
                );
                self.keep(object);
                value_of(answer)
            }
            [object, index] => {
                let answer = self.read_index(alloc, entry, object, index);
                self.keep(object);
                answer
            }
            _ => no_part(),
        }
    }

    /// Makes a value that a call worked on `this`.
    fn keep(&mut self, object: &mut Dynamic<Pair>) {
        drop(replace(&mut self.this, replace(object, unit())));
    }

    /// Asks for the item of a value at an index, the indexer or what finds it.
    fn read_index(
        &mut self,
        alloc: Global,
        entry: Entry,
        object: &mut Dynamic<Pair>,
        index: &mut Dynamic<Pair>,
    ) -> Answer {
        match entry {
            Entry::IndexerGet => self.engine.call_indexer_get(
                alloc,
                &mut self.global,
                &mut self.caches,
                &mut self.table,
                object,
                index,
                Position::new(1, 1),
            ),
            _ => self.find_index(alloc, object, index),
        }
    }

    /// Finds what an index leads to, and answers it.
    fn find_index(
        &mut self,
        alloc: Global,
        object: &mut Dynamic<Pair>,
        index: &mut Dynamic<Pair>,
    ) -> Answer {
        if is_handle(object) {
            return no_part();
        }
        let found = self.engine.get_indexed_mut(
            alloc,
            &mut self.global,
            &mut self.caches,
            &mut self.table,
            object,
            index,
            Position::new(1, 2),
            Position::new(1, 1),
            true,
            true,
        )?;
        found.take_or_clone(alloc)
    }
}

/// Copies the constant of a module that has a name, `()` where there is none.
fn constant_of(alloc: Global, module: &Module<Pair>, name: &str) -> Answer {
    match module.constants.get(name) {
        Some(value) => match value.try_clone(alloc) {
            Ok(value) => Ok(value),
            Err(AllocError) => Err(EvalAltResult::ErrorOutOfMemory(Position::NONE)),
        },
        None => Ok(unit()),
    }
}
