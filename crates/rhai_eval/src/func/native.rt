//! Calls of natives whose arguments are there, on a value that the caller has in a place of its own. Ports
//! what upstream's `func/call.rs` does of them; the contracts cite specs/Places.antt and specs/Ends.antt.

ghost use Rattle.std.specs.Prelude.{◌≡◌};
ghost use Rattle.std.specs.Option.{option_copied};
ghost use Rattle.rhai_errors.specs.Native.{left_by, lent_value};
ghost use Rattle.rhai_machine.specs.language.Frames.{Ask, core};
ghost use Rattle.rhai_steps.specs.Callers.{state_of};
ghost use Rattle.rhai_laws.specs.Kept.{Kept};
ghost use Rattle.rhai_eval.specs.Ends.{EndsChanged};
ghost use Rattle.rhai_eval.specs.Places.{on_place, with_place};
ghost use Rattle.rhai_eval.specs.States.{under};

use crate::engine::Engine;
use rhai_calls::native::{Passing, pass_native, pass_native_alone};
use rhai_context::{lend_state, return_state};
use rhai_errors::error::EvalAltResult;
use rhai_errors::table::NativeTable;
use rhai_lookups::caches::Caches;
use rhai_state::state::GlobalRuntimeState;
use rhai_steps::operation::Operation;
use rhai_tree::position::Position;
use rhai_tree::token::Token;
use rhai_values::base::value::{Dynamic, Host};
use std::alloc::Global;

impl<H: Host> Engine<H> {
    /// Charges a call at its position, and calls the native of its name. Where there is none, the built-in of
    /// the operator has the answer. With the value comes whether a native gave it that is not pure, and so
    /// may have changed the first argument. Ports upstream's `exec_native_fn_call`.
    ///
    /// The first argument is a place of the caller where `is_ref_mut` says so, and a constant there is kept
    /// from a native that is not pure. What a native leaves of it stands there on every way out. Where there
    /// is no first argument the call has none.
    ///
    /// # Errors
    /// At the call: `ErrorTooManyOperations` where the count has reached the limit; `ErrorDataRace` for a
    /// first argument that is the handle of a cell which is held; `ErrorNonPureMethodCallOnConstant`;
    /// `ErrorDotExpr`, `ErrorIndexingType` or `ErrorFunctionNotFound` where there is no such native; its own
    /// fault where that says no position; `ErrorDataTooLarge` for an answer above a limit.
    pub fn exec_native_fn_call<T: NativeTable<H>>(
        &self,
        alloc: Global,
        global: &mut GlobalRuntimeState<H>,
        _caches: &mut Caches<H>,
        table: &mut T,
        name: &str,
        op_token: Option<&Token>,
        first: Option<&mut Dynamic<H>>,
        rest: &mut [Dynamic<H>],
        is_ref_mut: bool,
        position: Position,
    ) -> Result<(Dynamic<H>, bool), EvalAltResult<H>>
        ensures ends { (scope : _) (this : _) → EndsChanged (under H.name_of self.now T.natives)
            (λ k l. core (Ask (on_place
            (record { name = name.now; token = option_copied op_token.entry; at = position })
            is_ref_mut (lent_value first.entry) rest.old)) k l)
            (state_of (T.state table.old) global.old scope (with_place this (lent_value first.entry))) result
            (state_of (T.state table.new) global.new scope (with_place this (left_by first.exit))) }
        ensures kept { (scope : _) (this : _) → Kept (under H.name_of self.now T.natives)
            (state_of (T.state table.old) global.old scope (with_place this (lent_value first.entry)))
            (state_of (T.state table.new) global.new scope (with_place this (left_by first.exit))) }
        ensures rest { rest.new ≡ rest.old }
        ensures caches { _caches.new ≡ _caches.old }
        ensures search { global.new.always_search_scope ≡ global.old.always_search_scope }
    {
        let session = self.session(alloc);
        let token = op_token.copied();
        let mut run = lend_state(alloc, global);
        match first {
            Some(first) => {
                let passing = Passing {
                    guarded: is_ref_mut,
                    marks: true,
                };
                let result = pass_native(
                    &session,
                    &mut run,
                    table,
                    &Operation {
                        name,
                        token,
                        at: position,
                    },
                    first,
                    rest,
                    passing,
                );
                return_state(alloc, run, global);
                result
            }
            None => {
                let result = pass_native_alone(
                    &session,
                    &mut run,
                    table,
                    &Operation {
                        name,
                        token,
                        at: position,
                    },
                    true,
                );
                return_state(alloc, run, global);
                result
            }
        }
    }
}
