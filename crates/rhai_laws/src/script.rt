//! The laws of the language, under every setting and over every table of natives. Nothing here is
//! run: each function stands for the law that is its contract.

ghost use Rattle.rhai_machine.specs.language.Setting.{Setting, over};
ghost use Rattle.rhai_laws.specs.Laws.{GoesWithMemory, GoesUpToMemory, OutOfMemoryStays};
ghost use Rattle.rhai_laws.specs.Laws.{StepsGrow, StepsKeep, NamesStay, NamesBegin, VariablesStay};
ghost use Rattle.rhai_laws.specs.Assigned.{AssignsAtPath, AssignsFromRoot};

use rhai_errors::table::NativeTable;
use rhai_values::base::value::Host;
use std::marker::PhantomData;

/// Shows that the machine takes by itself the steps of a run that does not end out of memory.
pub fn script_goes_with_memory<H: Host, T: NativeTable<H>>(of: PhantomData<(H, T)>)
    ensures { (setting : Setting H) → GoesWithMemory (over setting T.natives) }
{}

/// Shows that the machine takes the steps of any run by itself, or up to where memory runs out. From there
/// the run only unwinds.
pub fn script_goes_up_to_memory<H: Host, T: NativeTable<H>>(of: PhantomData<(H, T)>)
    ensures { (setting : Setting H) → GoesUpToMemory (over setting T.natives) }
{}

/// Shows that the count and the table's state stay once memory has run out. They are those of the point to
/// which the machine came by itself, or what the native left there that found no memory.
pub fn script_stays_out_of_memory<H: Host, T: NativeTable<H>>(of: PhantomData<(H, T)>)
    ensures { (setting : Setting H) → OutOfMemoryStays (over setting T.natives) }
{}

/// Shows that a run adds charges up to the limit, cells that are free, imports and loaded modules. Whatever
/// else is around stays but for the values of cells and for constants, and `this` stays bound or unbound.
pub fn script_grows<H: Host, T: NativeTable<H>>(of: PhantomData<(H, T)>)
    ensures { (setting : Setting H) → StepsGrow (over setting T.natives) }
{}

/// Shows that the imports stay too, but for those of a statement and of a list that does not restore.
pub fn script_keeps<H: Host, T: NativeTable<H>>(of: PhantomData<(H, T)>)
    ensures { (setting : Setting H) → StepsKeep (over setting T.natives) }
{}

/// Shows that an expression, and a list of statements that restores, leave the names of the variables as they
/// were.
pub fn script_names_stay<H: Host, T: NativeTable<H>>(of: PhantomData<(H, T)>)
    ensures { (setting : Setting H) → NamesStay (over setting T.natives) }
{}

/// Shows that a statement, and a list that does not restore, only add variables.
pub fn script_names_begin<H: Host, T: NativeTable<H>>(of: PhantomData<(H, T)>)
    ensures { (setting : Setting H) → NamesBegin (over setting T.natives) }
{}

/// Shows that there are never more variables than the limit allows, if there are not at the start.
pub fn script_variables_stay<H: Host, T: NativeTable<H>>(of: PhantomData<(H, T)>)
    ensures { (setting : Setting H) → VariablesStay (over setting T.natives) }
{}

/// Shows that an assignment without an operator through indexes and properties has written where they lead.
/// It starts at a variable without a path, goes down through arrays and maps, and comes to a value. What was
/// assigned is read there, read-write, and all that is off this way reads as it did when the variable was
/// read.
pub fn chain_assigns_at_path<H: Host, T: NativeTable<H>>(of: PhantomData<(H, T)>)
    ensures { (setting : Setting H) → AssignsAtPath (over setting T.natives) }
{}

/// Shows what `chain_assigns_at_path` shows, from the root of the chain on. The root is such a variable or
/// `this`, and the values that the links ask for are all there.
pub fn chain_assigns_from_root<H: Host, T: NativeTable<H>>(of: PhantomData<(H, T)>)
    ensures { (setting : Setting H) → AssignsFromRoot (over setting T.natives) }
{}
