//! The laws of steps on which memory may run out, of every machine. Nothing here is run: each
//! function stands for the law that is its contract.

ghost use Rattle.rhai_machine.specs.machine.Machine.{Machine};
ghost use Rattle.rhai_laws.specs.Memory.{IsStraight, IsUpTo, LeavesAll, Counts, CountsWithin, IsKept};

use std::marker::PhantomData;

/// A language over a table of natives, as a machine that may run out of memory.
pub trait MayRunOut<H> {
    /// The states of the table.
    ghost State: { Type 0 };

    /// All that the language works on.
    ghost Core: { Type 0 };

    /// The cores in which the out-of-memory error is on its way down.
    ghost HasRunOut: { Core → Type 0 };

    /// What may hold between two cores.
    ghost Relation: { Core → Core → Type 0 };

    ghost machine: { Machine State H Core };
}

/// Shows that steps that do not end out of memory are the machine's own.
pub fn steps_are_straight<H, L: MayRunOut<H>>(of: PhantomData<(H, L)>)
    ensures { IsStraight L.machine L.HasRunOut }
{}

/// Shows that the machine takes the steps by itself, or up to where memory runs out.
pub fn steps_up_to_memory<H, L: MayRunOut<H>>(of: PhantomData<(H, L)>)
    ensures { IsUpTo L.machine L.HasRunOut }
{}

/// Shows that the count and the table's state stay once memory has run out. They are what they were at the
/// point where it did.
pub fn out_of_memory_leaves_all<H, L: MayRunOut<H>>(of: PhantomData<(H, L)>)
    ensures { LeavesAll L.machine L.HasRunOut }
{}

/// Shows that the count never falls.
pub fn steps_count<H, L: MayRunOut<H>>(of: PhantomData<(H, L)>)
    ensures { Counts L.machine }
{}

/// Shows that a count within the limit stays within it.
pub fn steps_stay_within<H, L: MayRunOut<H>>(of: PhantomData<(H, L)>)
    ensures { CountsWithin L.machine }
{}

/// Shows that what each move, each refusal and each step that finds no memory keeps is kept, whatever the
/// end.
pub fn steps_keep<H, L: MayRunOut<H>>(of: PhantomData<(H, L)>)
    ensures { IsKept L.machine L.Relation }
{}
