//! Calls of pointers, whose arguments are there: of a function that one is linked to, and of a native by its
//! number. Ports what upstream's `func/call.rs` does with a pointer; the contracts cite specs/Pointers.antt.

ghost use Rattle.std.specs.Prelude.{◌≡◌, ◌≤◌, ◌+◌, IfOk, length, true};
ghost use Rattle.rhai_values.specs.declared.base.value.FnPtr.{out-FnPtr};
ghost use Rattle.rhai_machine.specs.language.Arguments.{linked_to, arguments_there};
ghost use Rattle.rhai_machine.specs.language.Runs.{Goes};
ghost use Rattle.rhai_steps.specs.Agreement.{KeepsSight};
ghost use Rattle.rhai_steps.specs.Sessions.{under};
ghost use Rattle.rhai_steps.specs.States.{holding, state_of};
ghost use Rattle.rhai_calls.specs.Called.{with_args, came_out};
ghost use Rattle.rhai_callees.specs.Pointers.{purpose_of};

use crate::{call_function, call_number};
use rhai_call_forms::linked::function_linked;
use rhai_call_forms::pointers::with_curried;
use rhai_calls::dispatch::Called;
use rhai_context::Context;
use rhai_errors::table::NativeTable;
use rhai_few::Few;
use rhai_functions::function::Function;
use rhai_state::session::Session;
use rhai_steps::operation::Operation;
use rhai_tree::Items;
use rhai_tree::expr::Expr;
use rhai_tree::literal::NativeId;
use rhai_tree::position::Position;
use rhai_values::base::value::{Dynamic, FnPtr, Host};
use std::alloc::AllocError;

/// What a pointer's arguments are for.
#[derive(Drop)]
pub enum PointerUse<H> {
    /// It gets them behind the values that it has already.
    Curry(FnPtr<H>),
    /// They go to a function that it is linked to, behind the values that it has.
    Linked(Function<H>, Items<Dynamic<H>>),
    /// They go to a native by its number, behind these values.
    Number(NativeId, Items<Dynamic<H>>),
}

/// Finds the function that a pointer is linked to, where it is called with these arguments. It is the
/// pointer's own, or that of the run's libraries. None for a pointer by its name alone and for a native's.
pub fn linked_function<H: Host>(
    run: &mut Context<H>,
    pointer: &FnPtr<H>,
    args: &[Expr],
) -> Result<Option<Function<H>>, AllocError>
    ensures found { IfOk result (λ found. found ≡ linked_to pointer.now
        (length (out-FnPtr H pointer.now).curry + length args.now) run.old.global.lists.0) }
    ensures same { run.new ≡ run.old }
{
    function_linked(pointer, args.len(), &mut run.global.lists)
}

/// Uses a pointer whose arguments are there: it keeps them, or is called with them.
pub fn use_pointer<H: Host, T: NativeTable<H>>(
    session: &Session<'_, H>,
    run: &mut Context<H>,
    table: &mut T,
    pointer: PointerUse<H>,
    values: &mut Few<Dynamic<H>>,
    pos: Position,
) -> Called<Dynamic<H>, Function<H>, H>
    ensures counts { run.old.global.num_operations ≤ run.new.global.num_operations }
    ensures sight { KeepsSight run.old.global run.new.global }
    ensures scope { run.new.scope ≡ run.old.scope }
    ensures runs { let rules = under H.name_of session.now T.natives in
        Goes rules (arguments_there rules.setting (purpose_of pointer pos) values.old)
        (state_of (T.state table.old) run.old.global run.old.scope (holding run.old.this))
        (came_out true pos (with_args result values.new))
        (state_of (T.state table.new) run.new.global run.new.scope (holding run.new.this)) }
{
    match pointer {
        PointerUse::Curry(pointer) => {
            Called::Ended(with_curried(session.alloc, pointer, values, pos))
        }
        PointerUse::Linked(function, curried) => {
            let cells = &run.global.cells;
            call_function(session.alloc, cells, function, curried, values, pos)
        }
        PointerUse::Number(id, curried) => {
            let global = &mut run.global;
            Called::Ended(call_number(
                session,
                global,
                table,
                id,
                &Operation {
                    name: "call",
                    token: None,
                    at: pos,
                },
                curried,
                values,
            ))
        }
    }
}
