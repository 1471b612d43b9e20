//! The variables that a function starts with.

ghost use Rattle.std.specs.Prelude.{◌≡◌, ◌++◌, suc, drop, length, slice_get, slice_set, take, OnErr, OnOk};
ghost use Rattle.std.specs.Option.{unwrap_or};
ghost use Rattle.rhai_state.specs.Scope.{entries_of};
ghost use Rattle.rhai_functions.specs.Entering.{left_of, parameters, unit, TakesSome};

use rhai_state::scope::Scope;
use rhai_tree::{Shared, Text};
use rhai_values::base::value::{AccessMode, Dynamic, Host, Union};
use std::alloc::AllocError;
use std::mem::replace;

/// Takes an argument, and leaves `()` there; where there is no argument it takes `()`.
fn take_argument<H: Host>(args: &mut [Dynamic<H>], at: usize) -> Dynamic<H>
    ensures taken { result ≡ unwrap_or (slice_get args.old at) unit }
    ensures others { drop (suc at) args.new ≡ drop (suc at) args.old }
    ensures length { length args.new ≡ length args.old }
    ensures left { args.new ≡ slice_set args.old at unit }
{
    if at < args.len() {
        replace(&mut args[at], Dynamic::new(Union::Unit))
    } else {
        Dynamic::new(Union::Unit)
    }
}

/// Pushes the parameters of a function as variables that may be written, each with its argument. The
/// argument is taken: `()` is left of it. A parameter without an argument is `()`. Where there is no
/// memory some of them may be there.
pub fn push_parameters<H: Host>(
    scope: &mut Scope<H>,
    params: &[Shared<Text>],
    args: &mut [Dynamic<H>],
) -> Result<(), AllocError>
    ensures ok { OnOk result (entries_of scope.new
        ≡ entries_of scope.old ++ parameters params.now args.old) }
    ensures left { OnOk result (args.new ≡ left_of (length params.now) args.old) }
    ensures taken { TakesSome args.old args.new }
    ensures err { OnErr result (take (length (entries_of scope.old)) (entries_of scope.new)
        ≡ entries_of scope.old) }
{
    let mut at = 0;
    'params: while at < params.len() {
        let value = take_argument(args, at);
        scope.push_shared(params[at].share()?, AccessMode::ReadWrite, value)?;
        at += 1;
    }
    Ok(())
}
