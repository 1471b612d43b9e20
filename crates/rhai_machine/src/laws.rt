//! The laws of every machine, whatever its language and its table of natives. Nothing here is run:
//! each function stands for the law that is its contract.

ghost use Rattle.rhai_machine.specs.machine.Machine.{Machine};
ghost use Rattle.rhai_machine.specs.machine.Laws.{OneEnd, HasLog, CallsAreAdded, ChargesAreAdded};
ghost use Rattle.rhai_machine.specs.machine.Laws.{StaysWithin, IsEnough, OnlyUnwinds, Follows, WithoutLimit};
ghost use Rattle.rhai_machine.specs.machine.Laws.{AlwaysEnds, TwoLimits, TwoLimitsOfSteps, SizeSettles};

use std::marker::PhantomData;

/// A language over a table of natives, as a machine.
pub trait Language<H> {
    /// The states of the table.
    ghost State: { Type 0 };

    /// All that the language works on.
    ghost Core: { Type 0 };

    /// The cores in which the error of a refused charge is on its way down.
    ghost Refused: { Core → Type 0 };

    ghost machine: { Machine State H Core };
}

/// Shows that a run has one end. From a configuration there is at most one next one, so its outcome
/// is one.
pub fn one_end<H, L: Language<H>>(of: PhantomData<(H, L)>)
    ensures { OneEnd L.machine }
{}

/// Shows that steps told without the list of calls are a run with it, whatever calls were made
/// before.
pub fn has_log<H, L: Language<H>>(of: PhantomData<(H, L)>)
    ensures { HasLog L.machine }
{}

/// Shows that the calls of natives that were made before a run stay the first ones.
pub fn calls_are_added<H, L: Language<H>>(of: PhantomData<(H, L)>)
    ensures { CallsAreAdded L.machine }
{}

/// Shows that the count never falls.
pub fn charges_are_added<H, L: Language<H>>(of: PhantomData<(H, L)>)
    ensures { ChargesAreAdded L.machine }
{}

/// Shows that a count within the limit as a cut run starts is within it as the run ends.
pub fn stays_within<H, L: Language<H>>(of: PhantomData<(H, L)>)
    ensures { StaysWithin L.machine }
{}

/// Shows that a run without a limit whose count ends within a limit is the run cut at it.
pub fn is_enough<H, L: Language<H>>(of: PhantomData<(H, L)>)
    ensures { IsEnough L.machine }
{}

/// Shows that once a charge is refused the run only unwinds. Table, count and calls stay as they
/// were.
pub fn only_unwinds<H, L: Language<H>>(of: PhantomData<(H, L)>)
    ensures { OnlyUnwinds L.machine L.Refused }
{}

/// Shows that the cut run follows the run without a limit up to the first refused charge. It is
/// that run, or it follows it step by step up to the first charge at which the count has reached
/// the limit. That charge is not counted, and the cut run unwinds from there.
pub fn follows<H, L: Language<H>>(of: PhantomData<(H, L)>)
    ensures { Follows L.machine L.Refused }
{}

/// Shows that the cut run ends where the run without a limit does, or refused a charge. Both runs
/// have to end. Where a charge was refused, the calls of the cut run begin the other's.
pub fn without_limit<H, L: Language<H>>(of: PhantomData<(H, L)>)
    ensures { WithoutLimit L.machine L.Refused }
{}

/// Shows that the cut run always ends, in a language where no run goes on for ever without a
/// charge.
pub fn always_ends<H, L: Language<H>>(of: PhantomData<(H, L)>)
    ensures { AlwaysEnds L.machine L.Refused }
{}

/// Shows that a higher limit changes the end of a run only where the lower one refused a charge.
/// Under each higher limit the run ends too, and at the same end, or the lower limit refused a
/// charge and its calls begin the other's. A limit is any whole number.
pub fn two_limits<H, L: Language<H>>(of: PhantomData<(H, L)>)
    ensures { TwoLimits L.machine L.Refused }
{}

/// Shows what `two_limits` says for steps that are told without the list of calls.
pub fn two_limits_of_steps<H, L: Language<H>>(of: PhantomData<(H, L)>)
    ensures { TwoLimitsOfSteps L.machine L.Refused }
{}

/// Shows that no run goes on for ever without a charge, where a size falls at each other move.
pub fn size_settles<H, L: Language<H>>(of: PhantomData<(H, L)>)
    ensures { SizeSettles L.machine }
{}
