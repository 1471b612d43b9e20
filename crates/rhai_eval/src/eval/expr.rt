//! Expressions. Ports upstream's `eval/expr.rs`; the contracts speak of the machine's runs.

ghost use Rattle.std.specs.Prelude.{◌≡◌, length, IfOk, IfErr, IsTrue, true, false, Some, Ok, Err};
ghost use Rattle.rhai_tree.specs.Frame.{resolves_expr};
ghost use Rattle.rhai_tree.specs.declared.expr.Expr.{out-Expr};
ghost use Rattle.rhai_errors.specs.Errors.{is_out_of_memory};
ghost use Rattle.rhai_errors.specs.Native.{left_by, lent_value};
ghost use Rattle.std.specs.Option.{option_copied};
ghost use Rattle.rhai_state.specs.Scope.{entries_of, in_use, names_in, Fits};
ghost use Rattle.rhai_lookups.specs.Levels.{CachesFit, CachesLeft};
ghost use Rattle.rhai_lookups.specs.Runs.{lists_of};
ghost use Rattle.rhai_machine.specs.language.Frames.{Eval};
ghost use Rattle.rhai_machine.specs.language.Setting.{globals_of};
ghost use Rattle.rhai_steps.specs.Callers.{AgreesAt, state_of, surroundings_of};
ghost use Rattle.rhai_steps.specs.Offsets.{index_at_offset, index_in, offset_in};
ghost use Rattle.rhai_names.specs.Roots.{root_searched};
ghost use Rattle.rhai_steps.specs.States.{holding};
ghost use Rattle.rhai_laws.specs.Kept.{Kept};
ghost use Rattle.rhai_eval.specs.Ends.{EndsAs};
ghost use Rattle.rhai_eval.specs.Search.{found_behind, is_variable, names_variable, searched};
ghost use Rattle.rhai_eval.specs.States.{offer_of, under};

use crate::engine::Engine;
use crate::eval::search::{is_behind_path, seen_variable, value_alone, value_behind, variable_mut};
use crate::this::{give_back_with_this, take_with_this};
use rhai_context::ends::finish;
use rhai_context::{give_back, take};
use rhai_errors::error::EvalAltResult;
use rhai_errors::table::NativeTable;
use rhai_lookups::caches::Caches;
use rhai_names::roots::root_of;
use rhai_names::variables::scope_index;
use rhai_places::target::Target;
use rhai_spots::part::Part;
use rhai_state::scope::Scope;
use rhai_state::state::GlobalRuntimeState;
use rhai_tree::expr::{Expr, Namespace};
use rhai_values::base::value::{Dynamic, Host, Module};
use std::alloc::Global;

impl<H: Host> Engine<H> {
    /// Finds where the variable of an expression stands in a scope of a length, counted from the start. It is
    /// found where it has an offset and variables are not searched for, and else None is the answer. It takes
    /// no memory. Asked: the offset is at most the length.
    pub fn scope_index(
        &self,
        state: &GlobalRuntimeState<H>,
        expr: &Expr,
        scope_len: usize,
    ) -> Option<usize>
        requires { Fits (offset_in state.now.always_search_scope (out-Expr expr.now)) scope_len }
        ensures { result ≡ index_at_offset (offset_in state.now.always_search_scope (out-Expr expr.now)) scope_len }
    {
        scope_index(state, expr, scope_len)
    }

    /// Finds the place of the variable that an expression names. Where it has an offset and variables are not
    /// searched for, that is the entry there, whatever its name, and else the newest entry of the name. A
    /// name that no entry has means a constant of the engine's global modules, of which a copy is found, or
    /// else the first function of the libraries that has it: a temporary, beside a place of the scope that no
    /// variable has (`Scope::spare_mut`). Ports upstream's `search_scope_only`; asked for a variable without
    /// a path alone, whose offset is at most the length.
    ///
    /// The place of a variable is the value that `crate::eval::search::variable_mut` lends, whose clause
    /// `writes_back` tells what becomes of the scope: behind the engine no clause here repeats it.
    ///
    /// # Errors
    /// `ErrorVariableNotFound` where there is neither, and `ErrorDataRace` where the variable is the handle
    /// of a cell that is held, both at the variable.
    pub fn search_scope_only<'s, T: NativeTable<H>>(
        &self,
        alloc: Global,
        global: &mut GlobalRuntimeState<H>,
        _caches: &mut Caches<H>,
        _table: &mut T,
        scope: &'s mut Scope<H>,
        _this: Option<&'s mut Dynamic<H>>,
        expr: &Expr,
    ) -> Result<Target<'s, H>, EvalAltResult<H>>
        requires variable { is_variable (out-Expr expr.now) ≡ true }
        requires fits { Fits (offset_in global.old.always_search_scope (out-Expr expr.now))
            (length (entries_of scope.old)) }
        ensures found { IfOk result (λ target.
            searched global.old.always_search_scope (out-Expr expr.now) (globals_of (offer_of self.now))
            (surroundings_of global.old) (entries_of scope.old) ≡ Some (Ok (target.at.now, target.part))) }
        ensures missed { IfErr result (λ e. is_out_of_memory e ≡ false →
            searched global.old.always_search_scope (out-Expr expr.now) (globals_of (offer_of self.now))
            (surroundings_of global.old) (entries_of scope.old) ≡ Some (Err e)) }
        ensures same { global.new ≡ global.old }
        ensures caches { _caches.new ≡ _caches.old }
        ensures table { T.state _table.new ≡ T.state _table.old }
    {
        let is_there = seen_variable(scope, global, expr).is_some();
        if is_there {
            let at = variable_mut(scope, global, expr)?;
            return Ok(Target {
                at,
                part: Part::Whole,
            });
        }
        let value = value_alone(&self.session(alloc), global, expr)?;
        Ok(Target {
            at: scope.spare_mut(),
            part: Part::Temporary(value),
        })
    }

    /// Finds the place of a variable, behind a path or not. Without a path it is found as `search_scope_only`
    /// says; behind one it means a constant of the module that the path leads to, of which a copy is found
    /// that may not be written: a temporary, beside a place of the scope that no variable has. The root of
    /// the path is found as `search_imports` says. Ports upstream's `search_namespace`; asked for a variable
    /// alone, whose offset is at most the length, and whose index, behind a path, is at most the number of
    /// imports.
    ///
    /// # Errors
    /// Those of `search_scope_only`. At the path: `ErrorModuleNotFound` where nothing has its first name, and
    /// `ErrorVariableNotFound` where there is no such constant.
    pub fn search_namespace<'s, T: NativeTable<H>>(
        &self,
        alloc: Global,
        global: &mut GlobalRuntimeState<H>,
        caches: &mut Caches<H>,
        table: &mut T,
        scope: &'s mut Scope<H>,
        this: Option<&'s mut Dynamic<H>>,
        expr: &Expr,
    ) -> Result<Target<'s, H>, EvalAltResult<H>>
        requires variable { names_variable (out-Expr expr.now) ≡ true }
        requires fits { Fits (offset_in global.old.always_search_scope (out-Expr expr.now))
            (length (entries_of scope.old)) }
        requires index { Fits (index_in global.old.always_search_scope (out-Expr expr.now))
            (length global.old.imports) }
        ensures found { IfOk result (λ target.
            found_behind global.old.always_search_scope (out-Expr expr.now) (globals_of (offer_of self.now))
            (surroundings_of global.old) (entries_of scope.old) ≡ Some (Ok (target.at.now, target.part))) }
        ensures missed { IfErr result (λ e. is_out_of_memory e ≡ false →
            found_behind global.old.always_search_scope (out-Expr expr.now) (globals_of (offer_of self.now))
            (surroundings_of global.old) (entries_of scope.old) ≡ Some (Err e)) }
        ensures same { global.new ≡ global.old }
        ensures caches { caches.new ≡ caches.old }
        ensures table { T.state table.new ≡ T.state table.old }
    {
        if is_behind_path(expr) {
            let value = value_behind(&self.session(alloc), global, expr)?;
            return Ok(Target {
                at: scope.spare_mut(),
                part: Part::Temporary(value),
            });
        }
        self.search_scope_only(alloc, global, caches, table, scope, this, expr)
    }

    /// Finds the module at the root of a path. Where the path has an offset and variables are not searched
    /// for, it is that of the import there, whatever its name; and else that of the newest import of the
    /// name, or the engine's module of that name. It takes no memory. Ports upstream's `search_imports`;
    /// asked for a path that is not empty, whose offset is at most the number of imports.
    pub fn search_imports<'m>(
        &'m self,
        global: &'m GlobalRuntimeState<H>,
        namespace: &Namespace,
    ) -> Option<&'m Module<H>>
        requires fits { Fits (in_use global.now.always_search_scope namespace.now.index)
            (length global.now.imports) }
        ensures { option_copied result ≡ root_searched
            (in_use global.now.always_search_scope namespace.now.index) namespace.now.path global.now.imports
            self.now.global_sub_modules }
    {
        let index = global.offset_in_use(namespace.index);
        root_of(
            global.imports.as_slice(),
            &self.global_sub_modules,
            index,
            namespace.path.as_slice(),
        )
    }

    /// Evaluates an expression, charged first at its position. Ports upstream's `eval_expr`.
    ///
    /// The expression is a part of a checked tree, above the variables that the scope has there.
    /// `this` is taken out of its place meanwhile, and put back on every way out.
    pub fn eval_expr<T: NativeTable<H>>(
        &self,
        alloc: Global,
        global: &mut GlobalRuntimeState<H>,
        caches: &mut Caches<H>,
        table: &mut T,
        scope: &mut Scope<H>,
        this: Option<&mut Dynamic<H>>,
        expr: &Expr,
    ) -> Result<Dynamic<H>, EvalAltResult<H>>
        requires fit { CachesFit (lists_of global.old) caches.old }
        requires resolves { AgreesAt global.old scope.old (resolves_expr expr.now) }
        ensures ends { EndsAs (under H.name_of self.now T.natives) (Eval expr.now)
            (state_of (T.state table.old) global.old scope.old (holding (lent_value this.entry))) result
            (state_of (T.state table.new) global.new scope.new (holding (left_by this.exit))) }
        ensures kept { Kept (under H.name_of self.now T.natives)
            (state_of (T.state table.old) global.old scope.old (holding (lent_value this.entry)))
            (state_of (T.state table.new) global.new scope.new (holding (left_by this.exit))) }
        ensures names { names_in scope.new ≡ names_in scope.old }
        ensures caches { CachesLeft (lists_of global.new) caches.old caches.new }
        ensures search { global.new.always_search_scope ≡ global.old.always_search_scope }
    {
        let evaluator = self.evaluator(alloc);
        match this {
            Some(place) => {
                let mut run = take_with_this(alloc, global, caches, scope, place);
                let done = evaluator.run_expr(&mut run, table, expr);
                let result = finish(done, &mut run.value, &mut run.error);
                give_back_with_this(run, global, caches, scope, place);
                result
            }
            None => {
                let mut run = take(alloc, global, caches, scope);
                let done = evaluator.run_expr(&mut run, table, expr);
                let result = finish(done, &mut run.value, &mut run.error);
                give_back(run, global, caches, scope);
                result
            }
        }
    }
}
