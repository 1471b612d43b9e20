//! Constants stay, told of how calls end, with a `this`, a first argument and a scope or without. Nothing here is
//! run: each function stands for the law that is its contract. A caller has from the call that it makes how the
//! call ended (`ends`, `lent`, `by_value` or `up_to`), and from here that its constants stay.

ghost use Rattle.rhai_machine.specs.language.Setting.{Offer, rules_of};
ghost use Rattle.rhai_constants_eval.specs.Laws.{CallsStay, LentCallsStay, PartsStay, ScriptsStay, ValueCallsStay};

use rhai_errors::table::NativeTable;
use rhai_state::limits::Limits;
use rhai_values::base::value::Host;
use std::marker::PhantomData;

/// Shows that constants stay, unless the run replaces them, of a part of a tree, and of a function of a script.
pub fn parts_stay<H: Host, T: NativeTable<H>>(of: PhantomData<(H, T)>)
    ensures { (limits : Limits) (offer : Offer H) → PartsStay (rules_of limits H.name_of offer T.natives) }
{}

/// Shows that constants stay, unless the run replaces them, of a whole script.
pub fn scripts_stay<H: Host, T: NativeTable<H>>(of: PhantomData<(H, T)>)
    ensures { (limits : Limits) (offer : Offer H) → ScriptsStay (rules_of limits H.name_of offer T.natives) }
{}

/// Shows that constants stay, unless the run replaces them, of a call whose arguments are told.
pub fn calls_stay<H: Host, T: NativeTable<H>>(of: PhantomData<(H, T)>)
    ensures { (limits : Limits) (offer : Offer H) → CallsStay (rules_of limits H.name_of offer T.natives) }
{}

/// Shows that constants stay, unless the run replaces them, of a call by name on a first argument that is lent,
/// or without one.
pub fn lent_calls_stay<H: Host, T: NativeTable<H>>(of: PhantomData<(H, T)>)
    ensures { (limits : Limits) (offer : Offer H) →
        LentCallsStay (rules_of limits H.name_of offer T.natives) }
{}

/// Shows that constants stay, unless the run replaces them, of a call by name on a first argument by value, or
/// without one.
pub fn value_calls_stay<H: Host, T: NativeTable<H>>(of: PhantomData<(H, T)>)
    ensures { (limits : Limits) (offer : Offer H) →
        ValueCallsStay (rules_of limits H.name_of offer T.natives) }
{}
