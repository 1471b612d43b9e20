//! What becomes of the errors of limits, that every run keeps to the limits of variables and of call levels, and
//! what charges. It stands beside the machine, of which these are laws; nothing here is run.
#![tactic(auto)]

pub mod charging;

ghost use Rattle.rhai_machine.specs.language.Setting.{Setting, over};
ghost use Rattle.rhai_limits.specs.Limits.{LimitsOnlyUnwind};
ghost use Rattle.rhai_limits.specs.Met.{MetLimitsFail};
ghost use Rattle.rhai_limits.specs.OtherLimits.{LimitsOnlyFail};
ghost use Rattle.rhai_limits.specs.ScopesAndLevels.{ScopesKeepToTheLimit, LevelsKeepToTheLimit, TooDeepFails};

use rhai_errors::table::NativeTable;
use rhai_values::base::value::Host;
use std::marker::PhantomData;

/// Shows that nothing catches, swallows or wraps the error of any of the five limits. The run ends with it,
/// moved to a call perhaps, and on its way nothing is charged and no native is called.
pub fn limits_are_never_caught<H: Host, T: NativeTable<H>>(of: PhantomData<(H, T)>)
    ensures { (setting : Setting H) → LimitsOnlyUnwind (over setting T.natives) }
{}

/// Shows that no rule drops the error of a limit: each step in which a limit is met makes the control its error.
/// So it is at every test that a rule makes, of levels, variables, modules and sizes, and where a charge is
/// refused.
pub fn met_limits_fail<H: Host>(of: PhantomData<H>)
    ensures { (setting : Setting H) → MetLimitsFail setting }
{}

/// Shows that limits show in a step as errors alone. Under other limits each step is the same, or under one of the
/// two it fails with the error of a limit: where a limit is met, no rule goes on in another way.
pub fn limits_only_fail<H: Host>(of: PhantomData<H>)
    ensures { (setting : Setting H) → LimitsOnlyFail setting }
{}

/// Shows that no scope grows past the limit of variables. At every point of a run, on errors and where memory
/// runs out too, each scope in hand has at most as many as the limit allows, the current one and each that
/// the end of a function's call keeps for its caller. A scope at the bottom that had more at the start has no
/// more than it did then.
pub fn scopes_keep_to_the_limit<H: Host, T: NativeTable<H>>(of: PhantomData<(H, T)>)
    ensures { (setting : Setting H) → ScopesKeepToTheLimit (over setting T.natives) }
{}

/// Shows that no body of a function is entered at a level above the limit. At every point of a run each
/// function on the stack runs at a level that the limit allows, and one that is called above it fails at its
/// call.
pub fn bodies_are_not_too_deep<H: Host, T: NativeTable<H>>(of: PhantomData<(H, T)>)
    ensures levels { (setting : Setting H) → LevelsKeepToTheLimit (over setting T.natives) }
    ensures refused { (setting : Setting H) → TooDeepFails (over setting T.natives) }
{}
