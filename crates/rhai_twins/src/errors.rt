//! Errors.

ghost use Rattle.std.specs.Prelude.{◌≡◌};

use rhai_errors::error::{EvalAltResult, WayOut};
use rhai_tree::position::Position;

/// Shows that `EvalAltResult::way_out` makes equal ways out of equal errors.
pub fn way_out<H>(one: EvalAltResult<H>, other: EvalAltResult<H>) -> (WayOut<H>, WayOut<H>)
    requires { one ≡ other }
    ensures { result.0 ≡ result.1 }
{
    (one.way_out(), other.way_out())
}

/// Shows that `EvalAltResult::position` reads equal positions from equal errors.
pub fn position<H>(one: &EvalAltResult<H>, other: &EvalAltResult<H>) -> (Position, Position)
    requires { one.now ≡ other.now }
    ensures { result.0 ≡ result.1 }
{
    (one.position(), other.position())
}

/// Shows that `EvalAltResult::set_position` leaves equal errors equal.
pub fn set_position<H>(one: &mut EvalAltResult<H>, other: &mut EvalAltResult<H>, position: Position)
    requires { one.old ≡ other.old }
    ensures { one.new ≡ other.new }
{
    one.set_position(position);
    other.set_position(position);
}

/// Shows that `EvalAltResult::name` names equal errors alike.
pub fn name<H>(one: &EvalAltResult<H>, other: &EvalAltResult<H>) -> (&'static str, &'static str)
    requires { one.now ≡ other.now }
    ensures { result.0.now ≡ result.1.now }
{
    (one.name(), other.name())
}

/// Shows that `EvalAltResult::is_catchable` answers alike for equal errors.
pub fn is_catchable<H>(one: &EvalAltResult<H>, other: &EvalAltResult<H>) -> (bool, bool)
    requires { one.now ≡ other.now }
    ensures { result.0 ≡ result.1 }
{
    (one.is_catchable(), other.is_catchable())
}

/// Shows that `EvalAltResult::is_pseudo_error` answers alike for equal errors.
pub fn is_pseudo_error<H>(one: &EvalAltResult<H>, other: &EvalAltResult<H>) -> (bool, bool)
    requires { one.now ≡ other.now }
    ensures { result.0 ≡ result.1 }
{
    (one.is_pseudo_error(), other.is_pseudo_error())
}

/// Shows that `EvalAltResult::is_system_exception` answers alike for equal errors.
pub fn is_system_exception<H>(one: &EvalAltResult<H>, other: &EvalAltResult<H>) -> (bool, bool)
    requires { one.now ≡ other.now }
    ensures { result.0 ≡ result.1 }
{
    (one.is_system_exception(), other.is_system_exception())
}
