//! Targets.

ghost use Rattle.std.specs.Prelude.{◌≡◌, false};
ghost use Rattle.rhai_spots.specs.Targets.{is_place};
ghost use Rattle.rhai_twins.specs.Ends.{memory_ran_out, SameAnswer, SameTarget, EndsOnce};

use rhai_errors::error::EvalAltResult;
use rhai_places::indexing::get_indexed_mut;
use rhai_places::target;
use rhai_places::target::Target;
use rhai_spots::part::Part;
use rhai_spots::spot::Access;
use rhai_tree::position::Position;
use rhai_values::base::value::{Dynamic, Host};
use rhai_values::cells::CellStore;
use std::alloc::Global;
use std::marker::PhantomData;

/// Shows that two calls of `Target::as_ref` on equal targets lend equal values.
pub fn as_ref<'a, 't, H>(
    one: &'a Target<'t, H>,
    other: &'a Target<'t, H>,
) -> (&'a Dynamic<H>, &'a Dynamic<H>)
    requires { one.now ≡ other.now }
    ensures { result.0.now ≡ result.1.now }
{
    (one.as_ref(), other.as_ref())
}

/// Shows that two calls of `Target::is_ref` on equal targets answer equally.
pub fn is_ref<'t, H>(one: &Target<'t, H>, other: &Target<'t, H>) -> (bool, bool)
    requires { one.now ≡ other.now }
    ensures { result.0 ≡ result.1 }
{
    (one.is_ref(), other.is_ref())
}

/// Shows that two calls of `Target::is_temp_value` on equal targets answer equally.
pub fn is_temp_value<'t, H>(one: &Target<'t, H>, other: &Target<'t, H>) -> (bool, bool)
    requires { one.now ≡ other.now }
    ensures { result.0 ≡ result.1 }
{
    (one.is_temp_value(), other.is_temp_value())
}

/// Shows that two calls of `Target::is_shared` on equal targets answer equally.
pub fn is_shared<'t, H>(one: &Target<'t, H>, other: &Target<'t, H>) -> (bool, bool)
    requires { one.now ≡ other.now }
    ensures { result.0 ≡ result.1 }
{
    (one.is_shared(), other.is_shared())
}

/// Shows that two calls of `Target::take_or_clone` on equal targets answer equally, unless memory runs out.
pub fn take_or_clone<'t, H: Host>(
    alloc: Global,
    one: Target<'t, H>,
    other: Target<'t, H>,
) -> (
    Result<Dynamic<H>, EvalAltResult<H>>,
    Result<Dynamic<H>, EvalAltResult<H>>,
)
    requires place { one.at.now ≡ other.at.now }
    requires part { one.part ≡ other.part }
    ensures { SameAnswer result.0 result.1 }
{
    (one.take_or_clone(alloc), other.take_or_clone(alloc))
}

/// Shows that two calls of `target::take_shown` on equal places answer equally, unless memory runs out. The
/// places that they leave are equal.
pub fn take_shown<H: Host>(
    alloc: Global,
    one: &mut Dynamic<H>,
    other: &mut Dynamic<H>,
    part: Part<H>,
    also_part: Part<H>,
) -> (
    Result<Dynamic<H>, EvalAltResult<H>>,
    Result<Dynamic<H>, EvalAltResult<H>>,
)
    requires place { one.old ≡ other.old }
    requires part { part ≡ also_part }
    ensures result { SameAnswer result.0 result.1 }
    ensures place { one.new ≡ other.new }
{
    (
        target::take_shown(one, part, alloc),
        target::take_shown(other, also_part, alloc),
    )
}

/// Shows that two calls of `Part::value_mut` on equal parts leave equal parts, whatever is written.
pub fn value_lent<H: Drop>(
    one: &mut Part<H>,
    other: &mut Part<H>,
    value: Dynamic<H>,
    also_value: Dynamic<H>,
)
    requires part { one.old ≡ other.old }
    requires value { value ≡ also_value }
    requires shown { is_place one.old ≡ false }
    ensures { one.new ≡ other.new }
{
    *one.value_mut() = value;
    *other.value_mut() = also_value;
}

/// Shows that two calls of `Target::propagate_changed_value` on equal targets answer equally and leave equal
/// targets, unless memory runs out.
pub fn put_back<'t, 's, H: Host>(
    alloc: Global,
    one: &mut Target<'t, H>,
    other: &mut Target<'s, H>,
    position: Position,
) -> (Result<(), EvalAltResult<H>>, Result<(), EvalAltResult<H>>)
    requires place { one.old.at.now ≡ other.old.at.now }
    requires part { one.old.part ≡ other.old.part }
    ensures answer { SameAnswer result.0 result.1 }
    ensures part { one.new.part ≡ other.new.part }
    ensures place { memory_ran_out result.0 ≡ memory_ran_out result.1 → one.new.at.now ≡ other.new.at.now }
{
    (
        one.propagate_changed_value(alloc, position),
        other.propagate_changed_value(alloc, position),
    )
}

/// Shows that two calls of `indexing::get_indexed_mut` on equal values find equal targets, unless memory runs
/// out. Of a target that is what it shows and of which part it is; where there is none, the errors are equal.
pub fn indexed<'t, 's, H: Host>(
    one: &'t mut Dynamic<H>,
    other: &'s mut Dynamic<H>,
    alloc: Global,
    cells: &CellStore<H>,
    index: &Dynamic<H>,
    how: Access,
) -> (
    Result<Target<'t, H>, EvalAltResult<H>>,
    Result<Target<'s, H>, EvalAltResult<H>>,
)
    requires { one.old ≡ other.old }
    ensures { SameTarget result.0 result.1 }
{
    (
        get_indexed_mut(one, alloc, cells, index, how),
        get_indexed_mut(other, alloc, cells, index, how),
    )
}

/// Shows that what stands at the place when the borrow ends settles what the value is then. This is of the
/// clause `writes_back` of `indexing::get_indexed_mut`.
pub fn indexed_end<H: Host>(of: PhantomData<H>)
    ensures { EndsOnce H }
{}
