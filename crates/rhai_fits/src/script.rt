//! The laws of what a run has, under every setting and over every table of natives. Nothing here is run: each
//! function stands for the law that is its contract.

ghost use Rattle.rhai_machine.specs.language.Setting.{Setting, over};
ghost use Rattle.rhai_fits.specs.Laws.{RunsKeep, StepsKeep, RunsFit};

use rhai_errors::table::NativeTable;
use rhai_values::base::value::Host;
use std::marker::PhantomData;

/// Shows that a run has nothing after any number of steps but what it had before and cells added since. That
/// is told of cells, script functions and tables of constants, and no cell of the store has a bare handle.
/// What is around the run counts, and the modules of its engine do.
pub fn script_adds_only_cells<H: Host, T: NativeTable<H>>(of: PhantomData<(H, T)>)
    ensures { (setting : Setting H) → RunsKeep (over setting T.natives) }
{}

/// Shows what `script_adds_only_cells` shows of steps from a control that assigns no handle. They start in a
/// state whose cells have no bare handles.
pub fn script_steps_add_only_cells<H: Host, T: NativeTable<H>>(of: PhantomData<(H, T)>)
    ensures { (setting : Setting H) → StepsKeep (over setting T.natives) }
{}

/// Shows that a run that has cells of the store alone has no others from then on.
pub fn script_fits<H: Host, T: NativeTable<H>>(of: PhantomData<(H, T)>)
    ensures { (setting : Setting H) → RunsFit (over setting T.natives) }
{}
