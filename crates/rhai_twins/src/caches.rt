//! Caches.

ghost use Rattle.std.specs.Prelude.{◌≡◌, is_ok};
ghost use Rattle.rhai_lookups.specs.Levels.{caches_of, is_on};

use rhai_lookups::caches::Caches;
use std::alloc::{AllocError, Global};

/// Shows that two calls of `Caches::new` create no cache, both on or both off.
pub fn new<H: Drop>(alloc: Global) -> (Caches<H>, Caches<H>)
    ensures caches { caches_of result.0 ≡ caches_of result.1 }
    ensures on { is_on result.0 ≡ is_on result.1 }
{
    (Caches::new(alloc), Caches::new(alloc))
}

/// Shows that two calls of `Caches::with_most_entries` create no cache, both on or both off.
pub fn with_most_entries<H: Drop>(alloc: Global, most_entries: usize) -> (Caches<H>, Caches<H>)
    ensures caches { caches_of result.0 ≡ caches_of result.1 }
    ensures on { is_on result.0 ≡ is_on result.1 }
{
    (
        Caches::with_most_entries(alloc, most_entries),
        Caches::with_most_entries(alloc, most_entries),
    )
}

/// Shows that two calls of `Caches::off` create no cache, both on or both off.
pub fn off<H: Drop>(alloc: Global) -> (Caches<H>, Caches<H>)
    ensures caches { caches_of result.0 ≡ caches_of result.1 }
    ensures on { is_on result.0 ≡ is_on result.1 }
{
    (Caches::off(alloc), Caches::off(alloc))
}

/// Shows that two calls of `Caches::len` count alike.
pub fn len<H: Drop>(caches: &Caches<H>) -> (usize, usize)
    ensures { result.0 ≡ result.1 }
{
    (caches.len(), caches.len())
}

/// Shows that two calls of `Caches::entries` count alike.
pub fn entries<H: Drop>(caches: &Caches<H>) -> (usize, usize)
    ensures { result.0 ≡ result.1 }
{
    (caches.entries(), caches.entries())
}

/// Shows that two calls of `Caches::is_on` answer alike.
pub fn on<H: Drop>(caches: &Caches<H>) -> (bool, bool)
    ensures { result.0 ≡ result.1 }
{
    (caches.is_on(), caches.is_on())
}

/// Shows that `Caches::push` leaves equal caches, from equal ones.
pub fn push<H: Drop>(
    one: &mut Caches<H>,
    other: &mut Caches<H>,
) -> (Result<(), AllocError>, Result<(), AllocError>)
    requires { one.old ≡ other.old }
    ensures caches { is_ok result.0 ≡ is_ok result.1 → caches_of one.new ≡ caches_of other.new }
    ensures on { is_on one.new ≡ is_on other.new }
{
    (one.push(), other.push())
}

/// Shows that `Caches::rewind` leaves equal caches, from equal ones.
pub fn rewind<H: Drop>(one: &mut Caches<H>, other: &mut Caches<H>, len: usize)
    requires { one.old ≡ other.old }
    ensures caches { caches_of one.new ≡ caches_of other.new }
    ensures on { is_on one.new ≡ is_on other.new }
{
    one.rewind(len);
    other.rewind(len);
}

/// Shows that `Caches::clear` leaves equal caches, from equal ones.
pub fn clear<H: Drop>(one: &mut Caches<H>, other: &mut Caches<H>)
    requires { one.old ≡ other.old }
    ensures caches { caches_of one.new ≡ caches_of other.new }
    ensures on { is_on one.new ≡ is_on other.new }
{
    one.clear();
    other.clear();
}
