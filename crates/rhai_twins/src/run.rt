//! The state of a run.

ghost use Rattle.std.specs.Prelude.{◌≡◌};
ghost use Rattle.rhai_lookups.specs.Levels.{CachesFit, below_of, is_on};

use rhai_lookups::caches::Caches;
use rhai_lookups::run::{RunState, take_state};
use rhai_state::state::GlobalRuntimeState;
use std::alloc::Global;
use std::num::NonZeroUsize;

/// Shows that two calls of `run::take_state` take equal states, whatever the caches keep. They leave equal
/// caches, from equal ones, and states whose variables are both searched for or both not.
pub fn taken<H: Drop>(
    alloc: Global,
    one: &mut GlobalRuntimeState<H>,
    other: &mut GlobalRuntimeState<H>,
    one_caches: &mut Caches<H>,
    other_caches: &mut Caches<H>,
) -> (RunState<H>, RunState<H>)
    requires global { one.old ≡ other.old }
    requires one { CachesFit (one.old.lib, one.old.imports) one_caches.old }
    requires other { CachesFit (other.old.lib, other.old.imports) other_caches.old }
    ensures run { result.0 ≡ result.1 }
    ensures search { one.new.always_search_scope ≡ other.new.always_search_scope }
    ensures caches { one_caches.old ≡ other_caches.old → one_caches.new ≡ other_caches.new }
{
    (
        take_state(alloc, one, one_caches),
        take_state(alloc, other, other_caches),
    )
}

/// Shows that `RunState::give_state` leaves equal states, and caches that are equal below the newest, and both
/// on or both off.
pub fn given<H: Drop>(
    runs: (RunState<H>, RunState<H>),
    one: &mut GlobalRuntimeState<H>,
    other: &mut GlobalRuntimeState<H>,
    one_caches: &mut Caches<H>,
    other_caches: &mut Caches<H>,
)
    requires runs { runs.0 ≡ runs.1 }
    requires global { one.old ≡ other.old }
    requires caches { one_caches.old ≡ other_caches.old }
    ensures global { one.new ≡ other.new }
    ensures below { below_of one_caches.new ≡ below_of other_caches.new }
    ensures on { is_on one_caches.new ≡ is_on other_caches.new }
{
    runs.0.give_state(one, one_caches);
    runs.1.give_state(other, other_caches);
}

/// Shows that `RunState::offset_in_use` answers equal offsets for equal states.
pub fn offset_in_use<H>(
    one: &RunState<H>,
    other: &RunState<H>,
    offset: Option<NonZeroUsize>,
) -> (Option<NonZeroUsize>, Option<NonZeroUsize>)
    requires { one.now ≡ other.now }
    ensures { result.0 ≡ result.1 }
{
    (one.offset_in_use(offset), other.offset_in_use(offset))
}
