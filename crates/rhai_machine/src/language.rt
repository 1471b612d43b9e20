//! The laws of the language, under every setting and over every table of natives. Nothing here is
//! run: each function stands for the law that is its contract.

ghost use Rattle.rhai_machine.specs.machine.Laws.{OneEnd};
ghost use Rattle.rhai_machine.specs.language.Setting.{Setting, over};
ghost use Rattle.rhai_machine.specs.language.Language.{machine};
ghost use Rattle.rhai_machine.specs.language.Laws.{IsNeverCaught, CutFollows, CutOrSame, CutEnds};
ghost use Rattle.rhai_machine.specs.language.Laws.{HigherLimit, HigherLimitOfSteps};
ghost use Rattle.rhai_machine.specs.language.Descents.{DescentLaws};

use rhai_errors::table::NativeTable;
use rhai_values::base::value::Host;
use std::marker::PhantomData;

/// Shows that a run of a script has one end.
pub fn script_has_one_end<H: Host, T: NativeTable<H>>(of: PhantomData<(H, T)>)
    ensures { (setting : Setting H) → OneEnd (machine (over setting T.natives)) }
{}

/// Shows that the error of a refused charge is caught by nothing. The script ends with it, and on
/// its way nothing is charged and no native is called.
pub fn script_limit_is_never_caught<H: Host, T: NativeTable<H>>(of: PhantomData<(H, T)>)
    ensures { (setting : Setting H) → IsNeverCaught (over setting T.natives) }
{}

/// Shows that a script's cut run follows the run without a limit up to the first refused charge. It
/// is that run, or it follows it step by step up to the first charge at which the count has reached
/// the limit.
pub fn script_cut_follows<H: Host, T: NativeTable<H>>(of: PhantomData<(H, T)>)
    ensures { (setting : Setting H) → CutFollows (over setting T.natives) }
{}

/// Shows that a script's cut run ends where the run without a limit does, or refused a charge. Both
/// runs have to end. Where a charge was refused, the calls of the cut run begin the other's.
pub fn script_cut_or_same<H: Host, T: NativeTable<H>>(of: PhantomData<(H, T)>)
    ensures { (setting : Setting H) → CutOrSame (over setting T.natives) }
{}

/// Shows that the cut run of a script always ends.
pub fn script_cut_ends<H: Host, T: NativeTable<H>>(of: PhantomData<(H, T)>)
    ensures { (setting : Setting H) → CutEnds (over setting T.natives) }
{}

/// Shows that a higher limit changes a script's end only where the lower one refused a charge.
/// Under each higher limit the script ends too, and at the same end, or the lower limit refused a
/// charge and its calls begin the other's.
pub fn script_higher_limit<H: Host, T: NativeTable<H>>(of: PhantomData<(H, T)>)
    ensures { (setting : Setting H) → HigherLimit (over setting T.natives) }
{}

/// Shows what `script_higher_limit` says for what an evaluator tells of a run. That is steps from a
/// control with nothing below it to how it ended.
pub fn script_higher_limit_of_steps<H: Host, T: NativeTable<H>>(of: PhantomData<(H, T)>)
    ensures { (setting : Setting H) → HigherLimitOfSteps (over setting T.natives) }
{}

/// Shows that what a chain writes back step by step is one write at its path. So it is as the chain
/// leaves the frames of the path with a value, a change or an error; and the walk down pushes these
/// frames.
pub fn chain_writes_at_once<H: Host, T: NativeTable<H>>(of: PhantomData<(H, T)>)
    ensures { (setting : Setting H) → DescentLaws (over setting T.natives) }
{}
