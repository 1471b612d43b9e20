//! The laws of constants, under all limits, for every engine and over every table of natives.
//! Nothing here is run: each function stands for the law that is its contract.

ghost use Rattle.rhai_machine.specs.language.Setting.{Offer, rules_of};
ghost use Rattle.rhai_constants.specs.Laws.{ConstIsConstant, ConstantIsReadOnly, ConstantsStay};
ghost use Rattle.rhai_constants.specs.Laws.{ReadOnlyIsConstant};

use rhai_errors::table::NativeTable;
use rhai_state::limits::Limits;
use rhai_values::base::value::Host;
use std::marker::PhantomData;

/// Shows that what a `const` declares is read-only throughout.
pub fn const_is_constant<H: Host>(of: PhantomData<H>)
    ensures { ConstIsConstant H }
{}

/// Shows that what is read-only throughout is so itself, and each value in it is read-only throughout.
pub fn constant_is_read_only<H: Host>(of: PhantomData<H>)
    ensures { ConstantIsReadOnly H }
{}

/// Shows that what is read-only itself, with each value in it read-only throughout, is read-only throughout.
/// So `script_constants_stay` speaks of it, also where a host made it so part by part.
pub fn read_only_is_constant<H: Host>(of: PhantomData<H>)
    ensures { ReadOnlyIsConstant H }
{}

/// Shows that a variable that is read-only throughout when a run starts has the same value when it ends.
/// Excepted is a run of which a step that the machine took by itself shared the entry, or wrote it by a `let`
/// with an index.
pub fn script_constants_stay<H: Host, T: NativeTable<H>>(of: PhantomData<(H, T)>)
    ensures { (limits : Limits) (offer : Offer H) →
        ConstantsStay (rules_of limits H.name_of offer T.natives) }
{}
