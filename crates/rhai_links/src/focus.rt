//! A function of a script that runs on the focus: how that is lent as its `this`, and gets back what is left.

ghost use Rattle.std.specs.Prelude.{◌≡◌, [], Some, is_some, true};
ghost use Rattle.rhai_state.specs.Scope.{entries_of};

use rhai_context::{Aside, Context, put_aside, take_up};
use rhai_steps::values::{let_go, unit_value};
use rhai_values::base::value::{Dynamic, Host};
use std::alloc::Global;
use std::mem::replace;

/// Lends the focus to a function as its `this`, and leaves `()` there meanwhile. The function has no
/// variables yet.
pub fn lend_focus<H: Host>(alloc: Global, run: &mut Context<H>, focus: &mut Dynamic<H>) -> Aside<H>
    ensures aside { result ≡ record { scope = run.old.scope; this = run.old.this } }
    ensures this { run.new.this ≡ Some focus.old }
    ensures scope { entries_of run.new.scope ≡ [] }
    ensures rest { run.new ≡ record run.old { scope = run.new.scope; this = run.new.this } }
{
    let this = replace(focus, unit_value());
    put_aside(alloc, run, Some(this))
}

/// Puts the `this` that a function leaves back into the place that lent it.
pub fn put_this<H: Host>(place: &mut Dynamic<H>, left: Option<Dynamic<H>>)
    ensures { is_some left ≡ true → left ≡ Some place.new }
{
    match left {
        Some(value) => let_go(replace(place, value)),
        None => {}
    }
}

/// Leaves the focus. The `this` that its function leaves goes back there, and the run has its caller's
/// variables and `this` again.
pub fn leave_focus<H: Host>(run: &mut Context<H>, focus: &mut Dynamic<H>, aside: Aside<H>)
    ensures leaves { is_some run.old.this ≡ true → run.old.this ≡ Some focus.new }
    ensures run { run.new ≡ record run.old { scope = aside.scope; this = aside.this } }
{
    put_this(focus, take_up(run, aside));
}
