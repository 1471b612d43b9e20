//! What calls keep, told of how they end, with a `this`, a first argument and a scope or without. Nothing here is
//! run: each function stands for the law that is its contract. A caller has from the call that it makes how the
//! call ended (`ends`, `lent`, `by_value` or `up_to`) and what is around it (`kept`), and from here what it keeps.

ghost use Rattle.rhai_machine.specs.language.Setting.{Offer, rules_of};
ghost use Rattle.rhai_fits_eval.specs.Laws.{ArgumentsFit, CallsFit, LentCallsFit, NativesFit, PartsFit, ScriptsFit};
ghost use Rattle.rhai_fits_eval.specs.Laws.{ValueCallsFit};
ghost use Rattle.rhai_fits_eval.specs.Together.{FitsIsSealed, FitsTogetherAgain};

use rhai_errors::table::NativeTable;
use rhai_state::limits::Limits;
use rhai_values::base::value::Host;
use std::marker::PhantomData;

/// Shows that where a state and a scope fit together no cell has a bare handle, as the laws of calls ask.
pub fn fits_is_sealed<H: Host>(of: PhantomData<H>)
    ensures { FitsIsSealed H }
{}

/// Shows that a state and a scope that fit together do so again behind a call that keeps what is in hand, where
/// what `GlobalRuntimeState::fits` does not look at was there too.
pub fn fits_together_again<H: Host, T: NativeTable<H>>(of: PhantomData<(H, T)>)
    ensures { (limits : Limits) (offer : Offer H) →
        FitsTogetherAgain (rules_of limits H.name_of offer T.natives) }
{}

/// Shows that a part of a tree, and a function of a script, adds nothing but cells to what is in hand.
pub fn parts_fit<H: Host, T: NativeTable<H>>(of: PhantomData<(H, T)>)
    ensures { (limits : Limits) (offer : Offer H) → PartsFit (rules_of limits H.name_of offer T.natives) }
{}

/// Shows what `parts_fit` shows of a function of a script, with what is left of its arguments.
pub fn arguments_fit<H: Host, T: NativeTable<H>>(of: PhantomData<(H, T)>)
    ensures { (limits : Limits) (offer : Offer H) → ArgumentsFit (rules_of limits H.name_of offer T.natives) }
{}

/// Shows that a whole script adds nothing but cells of the store to what is in hand.
pub fn scripts_fit<H: Host, T: NativeTable<H>>(of: PhantomData<(H, T)>)
    ensures { (limits : Limits) (offer : Offer H) → ScriptsFit (rules_of limits H.name_of offer T.natives) }
{}

/// Shows that a call whose arguments are told adds nothing but cells of the store to what is in hand.
pub fn calls_fit<H: Host, T: NativeTable<H>>(of: PhantomData<(H, T)>)
    ensures { (limits : Limits) (offer : Offer H) → CallsFit (rules_of limits H.name_of offer T.natives) }
{}

/// Shows that a call of a native, on a first argument or without one, adds nothing but cells.
pub fn natives_fit<H: Host, T: NativeTable<H>>(of: PhantomData<(H, T)>)
    ensures { (limits : Limits) (offer : Offer H) → NativesFit (rules_of limits H.name_of offer T.natives) }
{}

/// Shows that a call by name adds nothing but cells, on a first argument that is lent or without one.
pub fn lent_calls_fit<H: Host, T: NativeTable<H>>(of: PhantomData<(H, T)>)
    ensures { (limits : Limits) (offer : Offer H) → LentCallsFit (rules_of limits H.name_of offer T.natives) }
{}

/// Shows that a call by name adds nothing but cells, on a first argument by value or without one.
pub fn value_calls_fit<H: Host, T: NativeTable<H>>(of: PhantomData<(H, T)>)
    ensures { (limits : Limits) (offer : Offer H) →
        ValueCallsFit (rules_of limits H.name_of offer T.natives) }
{}
