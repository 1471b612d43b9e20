//! Runs of small scripts, with the ends that they are to have. They are tests of the definitions of
//! the language. Nothing here is run: that a function builds means that its scripts end so.
#![tactic(auto)]

ghost use Rattle.std.specs.Prelude.{ℕ, List};
ghost use Rattle.std.specs.declared.num.NonZeroUsize.{NonZeroUsize};
ghost use Rattle.rhai_values.specs.declared.base.value.Import.{Import};
ghost use Rattle.rhai_values.specs.declared.base.value.Module.{Module};
ghost use Rattle.rhai_machine.specs.machine.Machine.{Config, Run, below};
ghost use Rattle.rhai_machine.specs.language.Setting.{over};
ghost use Rattle.rhai_machine.specs.language.Frames.{Core};
ghost use Rattle.rhai_machine.specs.language.Language.{machine};
ghost use Rattle.rhai_machine.specs.language.Limits.{IsRefused};
ghost use Rattle.rhai_machine_samples.specs.Runs.{Table, usual};
ghost use Rattle.rhai_machine_samples.specs.Operators.{Sums, Operands};
ghost use Rattle.rhai_machine_samples.specs.Variables.{Blocks, Variables};
ghost use Rattle.rhai_machine_samples.specs.Limits.{Limits};
ghost use Rattle.rhai_machine_samples.specs.Called.{Called};
ghost use Rattle.rhai_machine_samples.specs.Handles.{Handles};
ghost use Rattle.rhai_machine_samples.specs.Loops.{Loops, WaysOut};
ghost use Rattle.rhai_machine_samples.specs.Choices.{Choices};
ghost use Rattle.rhai_machine_samples.specs.Assignments.{Assignments, Updates};
ghost use Rattle.rhai_machine_samples.specs.Data.{Arrays, Maps, Texts};
ghost use Rattle.rhai_machine_samples.specs.Calls.{Calls, Keywords, Pointers};
ghost use Rattle.rhai_machine_samples.specs.Methods.{Methods};
ghost use Rattle.rhai_machine_samples.specs.Functions.{ThisSamples, Constants};
ghost use Rattle.rhai_machine_samples.specs.Items.{Items, SharedItems};
ghost use Rattle.rhai_machine_samples.specs.Entries.{Entries};
ghost use Rattle.rhai_machine_samples.specs.Members.{Members, SetBack, Guards, Indexers};
ghost use Rattle.rhai_machine_samples.specs.Parts.{MethodChains, Parts};
ghost use Rattle.rhai_machine_samples.specs.Switches.{Switches, SwitchErrors};
ghost use Rattle.rhai_machine_samples.specs.Walks.{Walks, WalkEnds};
ghost use Rattle.rhai_machine_samples.specs.Tries.{Throws, Tries, TryEnds};
ghost use Rattle.rhai_machine_samples.specs.Shares.{Shares};
ghost use Rattle.rhai_machine_samples.specs.Exports.{Exports};
ghost use Rattle.rhai_machine_samples.specs.Imports.{Imports};
ghost use Rattle.rhai_machine_samples.specs.Paths.{Paths, PathCalls, GlobalConstants};
ghost use Rattle.rhai_machine_samples.specs.Overwrites.{Overwrites};

use rhai_errors::table::NativeTable;
use rhai_machine::laws::{Language, always_ends};
use rhai_values::base::value::Host;
use std::marker::PhantomData;

/// The language in the setting of the samples, over a host's natives.
pub struct UsualScript<T>(PhantomData<T>);

impl<H: Host, T: NativeTable<H>> Language<H> for UsualScript<T> {
    ghost State = { T.State };

    ghost Core = { Core H };

    ghost Refused = { IsRefused };

    ghost machine = { machine (over (usual H.name_of) T.natives) };
}

/// Shows that each script that is cut at a limit ends, in the setting of the samples. It is the law
/// of all machines (`always_ends`).
pub fn usual_script_ends<H: Host, T: NativeTable<H>>(of: PhantomData<(H, T)>)
    ensures { (limit : ℕ) (c : Config T.State H (Core H)) → (a : Config T.State H (Core H))
        × Run (machine (over (usual H.name_of) T.natives)) (below limit) c a }
{
    always_ends::<H, UsualScript<T>>(PhantomData);
}

/// Shows how `40 + 2` ends under each limit up to four, and which charge is refused.
pub fn sample_sums<H, S>(of: PhantomData<(H, S)>)
    ensures { (table : Table S H) (host : H → List ℕ) → Sums table host }
{}

/// Shows what operators on one operand and on two give, and where their errors stand.
pub fn sample_operands<H, S>(of: PhantomData<(H, S)>)
    ensures { (table : Table S H) (host : H → List ℕ) → Operands table host }
{}

/// Shows what a block takes back, and which list an `if` goes on with.
pub fn sample_blocks<H, S>(of: PhantomData<(H, S)>)
    ensures { (table : Table S H) (host : H → List ℕ) → Blocks table host }
{}

/// Shows how variables and constants are declared, and what refuses a new one.
pub fn sample_variables<H, S>(of: PhantomData<(H, S)>)
    ensures { (table : Table S H) (host : H → List ℕ) → Variables table host }
{}

/// Shows how a script ends by the count and the limit that it starts with.
pub fn sample_limits<H, S>(of: PhantomData<(H, S)>)
    ensures { (table : Table S H) (host : H → List ℕ) → Limits table host }
{}

/// Shows what an operator that is a native's gives, over tables that reply in each way.
pub fn sample_natives<H, S>(of: PhantomData<(H, S)>)
    ensures { (table : Table S H) (host : H → List ℕ) → Called table host }
{}

/// Shows how a variable is read that is the handle of a cell, free or held.
pub fn sample_handles<H, S>(of: PhantomData<(H, S)>)
    ensures { (table : Table S H) (host : H → List ℕ) → Handles table host }
{}

/// Shows the turns of a `while` and of a `do`, and loops that never end.
pub fn sample_loops<H, S>(of: PhantomData<(H, S)>)
    ensures { (table : Table S H) (host : H → List ℕ) → Loops table host }
{}

/// Shows how `break` and `return` end a loop and a script.
pub fn sample_ways_out<H, S>(of: PhantomData<(H, S)>)
    ensures { (table : Table S H) (host : H → List ℕ) → WaysOut table host }
{}

/// Shows where the operators `&&`, `||` and `??` stop early.
pub fn sample_choices<H, S>(of: PhantomData<(H, S)>)
    ensures { (table : Table S H) (host : H → List ℕ) → Choices table host }
{}

/// Shows what an assignment writes, and what refuses one.
pub fn sample_assignments<H, S>(of: PhantomData<(H, S)>)
    ensures { (table : Table S H) (host : H → List ℕ) → Assignments table host }
{}

/// Shows what an assignment by a native's operator writes, over tables that reply in each way.
pub fn sample_updates<H, S>(of: PhantomData<(H, S)>)
    ensures { (table : Table S H) (host : H → List ℕ) → Updates table host }
{}

/// Shows what an array of literals is, and one with a name that is unknown.
pub fn sample_arrays<H, S>(of: PhantomData<(H, S)>)
    ensures { (table : Table S H) (host : H → List ℕ) → Arrays table host }
{}

/// Shows the order of a map's keys, which are written in another order than they stand in.
pub fn sample_maps<H, S>(of: PhantomData<(H, S)>)
    ensures { (table : Table S H) (host : H → List ℕ) → Maps table host }
{}

/// Shows how texts are joined, and printed by tables that reply in each way.
pub fn sample_texts<H, S>(of: PhantomData<(H, S)>)
    ensures { (table : Table S H) (host : H → List ℕ) → Texts table host }
{}

/// Shows what a call by name lends and what a native leaves of it, and the errors of a call.
pub fn sample_calls<H, S>(of: PhantomData<(H, S)>)
    ensures { (table : Table S H) (host : H → List ℕ) → Calls table host }
{}

/// Shows what the names mean that are no function's.
pub fn sample_keywords<H, S>(of: PhantomData<(H, S)>)
    ensures { (table : Table S H) (host : H → List ℕ) → Keywords table host }
{}

/// Shows how pointers are made and called.
pub fn sample_pointers<H, S>(of: PhantomData<(H, S)>)
    ensures { (table : Table S H) (host : H → List ℕ) → Pointers table host }
{}

/// Shows what a native leaves of the focus of a method, and the words that are no function's.
pub fn sample_methods<H, S>(of: PhantomData<(H, S)>)
    ensures { (table : Table S H) (host : H → List ℕ) → Methods table host }
{}

/// Shows how `this` is read and assigned to, where it is bound and where it is not.
pub fn sample_this<H, S>(of: PhantomData<(H, S)>)
    ensures { (table : Table S H) (host : H → List ℕ) → ThisSamples table host }
{}

/// Shows when a constant at the top of a script is entered into the table of constants.
pub fn sample_constants<H, S>(of: PhantomData<(H, S)>)
    ensures { (table : Table S H) (host : H → List ℕ) → Constants table host }
{}

/// Shows how items of arrays are read and assigned to.
pub fn sample_items<H, S>(of: PhantomData<(H, S)>)
    ensures { (table : Table S H) (host : H → List ℕ) → Items table host }
{}

/// Shows how entries of maps are read and assigned to, and where a chain stops.
pub fn sample_entries<H, S>(of: PhantomData<(H, S)>)
    ensures { (table : Table S H) (host : H → List ℕ) → Entries table host }
{}

/// Shows how items and roots that are handles are read and assigned to.
pub fn sample_shared_items<H, S>(of: PhantomData<(H, S)>)
    ensures { (table : Table S H) (host : H → List ℕ) → SharedItems table host }
{}

/// Shows how natives get and set properties.
pub fn sample_members<H, S>(of: PhantomData<(H, S)>)
    ensures { (table : Table S H) (host : H → List ℕ) → Members table host }
{}

/// Shows when the setter gets what a chain changed of a property's value.
pub fn sample_set_back<H, S>(of: PhantomData<(H, S)>)
    ensures { (table : Table S H) (host : H → List ℕ) → SetBack table host }
{}

/// Shows what natives are kept from, and what goes back of what they left.
pub fn sample_guards<H, S>(of: PhantomData<(H, S)>)
    ensures { (table : Table S H) (host : H → List ℕ) → Guards table host }
{}

/// Shows how natives get and set items.
pub fn sample_indexers<H, S>(of: PhantomData<(H, S)>)
    ensures { (table : Table S H) (host : H → List ℕ) → Indexers table host }
{}

/// Shows what methods do at the end of a chain, and on its way.
pub fn sample_method_chains<H, S>(of: PhantomData<(H, S)>)
    ensures { (table : Table S H) (host : H → List ℕ) → MethodChains table host }
{}

/// Shows how characters and bits are read and put back.
pub fn sample_parts<H, S>(of: PhantomData<(H, S)>)
    ensures { (table : Table S H) (host : H → List ℕ) → Parts table host }
{}

/// Shows which values a `switch` leads to a case, to a range or to its default.
pub fn sample_switches<H, S>(of: PhantomData<(H, S)>)
    ensures { (table : Table S H) (host : H → List ℕ) → Switches table host }
{}

/// Shows what fails or is refused in a `switch`.
pub fn sample_switch_errors<H, S>(of: PhantomData<(H, S)>)
    ensures { (table : Table S H) (host : H → List ℕ) → SwitchErrors table host }
{}

/// Shows what a `for` walks, and the variables that it writes.
pub fn sample_walks<H, S>(of: PhantomData<(H, S)>)
    ensures { (table : Table S H) (host : H → List ℕ) → Walks table host }
{}

/// Shows the ways out of a `for`, and a turn that can not be made.
pub fn sample_walk_ends<H, S>(of: PhantomData<(H, S)>)
    ensures { (table : Table S H) (host : H → List ℕ) → WalkEnds table host }
{}

/// Shows what `throw` raises, with a value and without.
pub fn sample_throws<H, S>(of: PhantomData<(H, S)>)
    ensures { (table : Table S H) (host : H → List ℕ) → Throws table host }
{}

/// Shows what a `try` catches, and what its branch finds.
pub fn sample_tries<H, S>(of: PhantomData<(H, S)>)
    ensures { (table : Table S H) (host : H → List ℕ) → Tries table host }
{}

/// Shows what passes through a `try`.
pub fn sample_try_ends<H, S>(of: PhantomData<(H, S)>)
    ensures { (table : Table S H) (host : H → List ℕ) → TryEnds table host }
{}

/// Shows what becomes of variables that closures share.
pub fn sample_shares<H, S>(of: PhantomData<(H, S)>)
    ensures { (table : Table S H) (host : H → List ℕ) → Shares table host }
{}

/// Shows which variables a script exports, and under which names.
pub fn sample_exports<H, S>(of: PhantomData<(H, S)>)
    ensures { (table : Table S H) (host : H → List ℕ) → Exports table host }
{}

/// Shows which modules a script imports, whatever they are, and how many are loaded then.
pub fn sample_imports<H, S>(of: PhantomData<(H, S)>)
    ensures { (table : Table S H) (host : H → List ℕ) (m other : Module H) (older : Import H) →
        Imports table host m other older }
{}

/// Shows what constants behind a path mean.
pub fn sample_paths<H, S>(of: PhantomData<(H, S)>)
    ensures { (table : Table S H) (host : H → List ℕ) → Paths table host }
{}

/// Shows which functions are entered by calls behind a path.
pub fn sample_path_calls<H, S>(of: PhantomData<(H, S)>)
    ensures { (table : Table S H) (host : H → List ℕ) → PathCalls table host }
{}

/// Shows how constants of an engine's global modules are read, and that they are not assigned to.
pub fn sample_global_constants<H, S>(of: PhantomData<(H, S)>)
    ensures { (table : Table S H) (host : H → List ℕ) → GlobalConstants table host }
{}

/// Shows which variables a `let` overwrites, whatever its index is.
pub fn sample_overwrites<H, S>(of: PhantomData<(H, S)>)
    ensures { (table : Table S H) (host : H → List ℕ) (index : NonZeroUsize) → Overwrites table host index }
{}
