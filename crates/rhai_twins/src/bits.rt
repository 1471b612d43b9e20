//! Bits and bit fields.

ghost use Rattle.std.specs.Prelude.{◌≡◌, ◌<◌, ◌≤◌};

use rhai_places::bits::{bit, field, with_bit, with_field};

/// Shows that two calls of `bits::bit` answer equally.
pub fn bit_of(number: i64, at: usize) -> (bool, bool)
    requires { at < 64 }
    ensures { result.0 ≡ result.1 }
{
    (bit(number, at), bit(number, at))
}

/// Shows that two calls of `bits::with_bit` answer equally.
pub fn bit_written(number: i64, at: usize, on: bool) -> (i64, i64)
    requires { at < 64 }
    ensures { result.0 ≡ result.1 }
{
    (with_bit(number, at, on), with_bit(number, at, on))
}

/// Shows that two calls of `bits::field` answer equally.
pub fn field_of(number: i64, start: usize, end: usize) -> (i64, i64)
    requires within { end ≤ 64 }
    requires ordered { start ≤ end }
    ensures { result.0 ≡ result.1 }
{
    (field(number, start, end), field(number, start, end))
}

/// Shows that two calls of `bits::with_field` answer equally.
pub fn field_written(number: i64, start: usize, end: usize, value: i64) -> (i64, i64)
    requires within { end ≤ 64 }
    requires ordered { start ≤ end }
    ensures { result.0 ≡ result.1 }
{
    (
        with_field(number, start, end, value),
        with_field(number, start, end, value),
    )
}
