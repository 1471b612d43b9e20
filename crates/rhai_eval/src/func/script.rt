//! Functions of scripts, as a host calls them and asks for them. Ports upstream's `func/script.rs` as far as
//! it is public; the contracts speak of the machine's runs and of the search of `rhai_functions`.

ghost use Rattle.std.specs.Prelude.{◌≡◌, ◌<◌, ◌≤◌, ◌+◌, ◌++◌, IsTrue, OnOk, drop, false, is_some, length, take};
ghost use Rattle.std.specs.Prelude.{true};
ghost use Rattle.std.specs.Option.{option_copied};
ghost use Rattle.rhai_tree.specs.Names.{Begins};
ghost use Rattle.rhai_functions.specs.Functions.{found_in};
ghost use Rattle.rhai_functions.specs.Keys.{function_key_of};
ghost use Rattle.rhai_machine.specs.language.Activations.{OwnThis};
ghost use Rattle.rhai_machine.specs.language.Frames.{EnterFunction};
ghost use Rattle.rhai_machine.specs.language.Runs.{Runs};
ghost use Rattle.rhai_machine.specs.language.State.{HasMemory};
ghost use Rattle.rhai_errors.specs.Native.{left_by, lent_value};
ghost use Rattle.rhai_state.specs.Scope.{entries_of, names_in};
ghost use Rattle.rhai_steps.specs.Callers.{state_of};
ghost use Rattle.rhai_steps.specs.States.{holding};
ghost use Rattle.rhai_functions.specs.Entering.{TakesSome};
ghost use Rattle.rhai_lookups.specs.Levels.{CachesFit, CachesLeft};
ghost use Rattle.rhai_lookups.specs.Runs.{lists_of};
ghost use Rattle.rhai_eval_steps.specs.Bodies.{args_left, entered, is_entered};
ghost use Rattle.rhai_eval_steps.specs.States.{state_in};
ghost use Rattle.rhai_laws.specs.Kept.{Kept};
ghost use Rattle.rhai_eval.specs.Ends.{AgreesAbove, EndsAs};
ghost use Rattle.rhai_eval.specs.States.{limits_of, under};

use crate::engine::Engine;
use crate::this::{give_back_with_this, take_with_this};
use rhai_context::ends::finish;
use rhai_context::{Context, give_back, take};
use rhai_errors::error::EvalAltResult;
use rhai_errors::table::NativeTable;
use rhai_functions::key::FnKey;
use rhai_lookups::caches::Caches;
use rhai_lookups::lists::has_function;
use rhai_state::scope::Scope;
use rhai_state::session::Offered;
use rhai_state::state::GlobalRuntimeState;
use rhai_tree::checked::CheckedFn;
use rhai_tree::position::Position;
use rhai_values::base::value::{Dynamic, EncapsulatedEnviron, Host};
use std::alloc::Global;

/// Takes a function's variables out of a scope that had so many before: all of them, or its parameters alone.
fn leave_variables<H: Host>(scope: &mut Scope<H>, before: usize, parameters: usize, rewinds: bool)
    ensures all { rewinds ≡ true → entries_of scope.new ≡ take before (entries_of scope.old) }
    ensures parameters { rewinds ≡ false → entries_of scope.new
        ≡ take before (entries_of scope.old) ++ drop (before + parameters) (entries_of scope.old) }
{
    if rewinds {
        scope.rewind(before);
    } else {
        scope.remove_range(before, parameters);
    }
}

impl<H: Host> Engine<H> {
    /// Runs a function on the variables and with the `this` that the run has, at the level as it stands.
    fn call_in_run<T: NativeTable<H>>(
        &self,
        alloc: Global,
        run: &mut Context<H>,
        table: &mut T,
        env: Option<&EncapsulatedEnviron<H>>,
        def: &CheckedFn,
        args: &mut [Dynamic<H>],
        rewind_scope: bool,
        pos: Position,
    ) -> Result<Dynamic<H>, EvalAltResult<H>>
        ensures charges { OnOk result (run.old.global.num_operations < run.new.global.num_operations) }
        ensures args { HasMemory result → args.new ≡ args_left (is_entered (limits_of self.now)
            run.old.global.num_operations run.old.global.level (length (entries_of run.old.scope)) def.now)
            (length def.now.params) args.old }
        ensures taken { TakesSome args.old args.new }
        ensures runs { Runs (under H.name_of self.now T.natives)
            (EnterFunction (entered def.now (option_copied env.entry) OwnThis false rewind_scope args.old
            run.old.global.level pos))
            (state_in (T.state table.old) run.old) result (state_in (T.state table.new) run.new) }
    {
        let before = run.scope.len();
        let parameters = def.def().params.len();
        let level = run.global.level;
        let evaluator = self.evaluator(alloc);
        let done = evaluator.run_body(run, table, def, env, args, rewind_scope, level, pos);
        let result = finish(done, &mut run.value, &mut run.error);
        leave_variables(&mut run.scope, before, parameters, rewind_scope);
        result
    }

    /// Calls a function of a script, at the level as it stands and on the caller's variables. The call is
    /// charged first. The parameters are pushed as variables that may be written, each with its argument, of
    /// which `()` is left; an empty body answers `()` and takes no argument. An environment brings its
    /// libraries and imports and its table of constants, which go again on every way out. With `rewind_scope`
    /// so do all variables that the body added; otherwise only the parameters leave the scope, and the body's
    /// list does not restore. `this` is taken out of its place meanwhile, and put back on every way out.
    /// Ports upstream's `call_script_fn`.
    ///
    /// # Errors
    /// At the call: `ErrorTooManyOperations` where the count has reached the limit; `ErrorStackOverflow`
    /// where the level is above its limit; `ErrorTooManyVariables` where the scope has no room for the
    /// parameters. Of the body's errors a `return` is a value, an exit and those of the system stand at the
    /// call, and any other is in an `ErrorInFunctionCall` there.
    pub fn call_script_fn<T: NativeTable<H>>(
        &self,
        alloc: Global,
        global: &mut GlobalRuntimeState<H>,
        caches: &mut Caches<H>,
        table: &mut T,
        scope: &mut Scope<H>,
        this: Option<&mut Dynamic<H>>,
        env: Option<&EncapsulatedEnviron<H>>,
        def: &CheckedFn,
        args: &mut [Dynamic<H>],
        rewind_scope: bool,
        pos: Position,
    ) -> Result<Dynamic<H>, EvalAltResult<H>>
        requires fit { CachesFit (lists_of global.old) caches.old }
        ensures ends { EndsAs (under H.name_of self.now T.natives)
            (EnterFunction (entered def.now (option_copied env.entry) OwnThis false rewind_scope args.old
            global.old.level pos))
            (state_of (T.state table.old) global.old scope.old (holding (lent_value this.entry))) result
            (state_of (T.state table.new) global.new scope.new (holding (left_by this.exit))) }
        ensures kept { Kept (under H.name_of self.now T.natives)
            (state_of (T.state table.old) global.old scope.old (holding (lent_value this.entry)))
            (state_of (T.state table.new) global.new scope.new (holding (left_by this.exit))) }
        ensures charges { OnOk result (global.old.num_operations < global.new.num_operations) }
        ensures two_limits { AgreesAbove (under H.name_of self.now T.natives)
            (EnterFunction (entered def.now (option_copied env.entry) OwnThis false rewind_scope args.old
            global.old.level pos))
            (state_of (T.state table.old) global.old scope.old (holding (lent_value this.entry))) result
            (state_of (T.state table.new) global.new scope.new (holding (left_by this.exit))) }
        ensures args { HasMemory result → args.new ≡ args_left (is_entered (limits_of self.now)
            global.old.num_operations global.old.level (length (entries_of scope.old)) def.now)
            (length def.now.params) args.old }
        ensures taken { TakesSome args.old args.new }
        ensures lib { global.new.lib ≡ global.old.lib }
        ensures imports { global.new.imports ≡ global.old.imports }
        ensures constants { global.new.constants ≡ global.old.constants }
        ensures level { global.new.level ≡ global.old.level }
        ensures scope_level { global.new.scope_level ≡ global.old.scope_level }
        ensures this { is_some (left_by this.exit) ≡ is_some (lent_value this.entry) }
        ensures begins { Begins (names_in scope.old) (names_in scope.new) }
        ensures restores { IsTrue rewind_scope → names_in scope.new ≡ names_in scope.old }
        ensures variables { length (names_in scope.old) ≤ self.now.max_variables →
            length (names_in scope.new) ≤ self.now.max_variables }
        ensures caches { CachesLeft (lists_of global.new) caches.old caches.new }
        ensures search { global.new.always_search_scope ≡ global.old.always_search_scope }
    {
        match this {
            Some(place) => {
                let mut run = take_with_this(alloc, global, caches, scope, place);
                let result = self.call_in_run(
                    alloc,
                    &mut run,
                    table,
                    env,
                    def,
                    args,
                    rewind_scope,
                    pos,
                );
                give_back_with_this(run, global, caches, scope, place);
                result
            }
            None => {
                let mut run = take(alloc, global, caches, scope);
                let result = self.call_in_run(
                    alloc,
                    &mut run,
                    table,
                    env,
                    def,
                    args,
                    rewind_scope,
                    pos,
                );
                give_back(run, global, caches, scope);
                result
            }
        }
    }

    /// Tells whether a function of a script has a key. It is looked for in the libraries of the state, in the
    /// engine's global modules, in the imports, and in the engine's global modules under names, where what is
    /// shown alone is found. The newest of the caches is asked first and keeps what is found, where there is memory
    /// for it. Ports upstream's `has_script_fn`.
    pub fn has_script_fn(
        &self,
        state: &GlobalRuntimeState<H>,
        caches: &mut Caches<H>,
        key: FnKey<'_>,
    ) -> bool
        requires fit { CachesFit (lists_of state.now) caches.old }
        ensures found { result ≡ is_some (found_in (function_key_of key.entry) state.now.lib self.now.global_modules
            state.now.imports self.now.global_sub_modules.1) }
        ensures caches { CachesLeft (lists_of state.now) caches.old caches.new }
    {
        let offered = Offered {
            global_modules: self.global_modules.as_slice(),
            global_sub_modules: &self.global_sub_modules,
        };
        has_function(&key, &offered, &state.lib, &state.imports, caches)
    }
}
