//! The bits of integers: one, or those from one up to another, read and written. The contracts
//! cite specs/Bits.antt.

ghost use Rattle.std.specs.Prelude.{◌≡◌, ◌<◌, ◌≤◌, ◌-◌, ◌^◌};
ghost use Rattle.rhai_spots.specs.Bits as spec;

/// Reads a bit of an integer, counted from the lowest.
pub fn bit(number: i64, at: usize) -> bool
    requires { at < 64 }
    ensures { result ≡ spec.bit number at }
{
    (number.cast_unsigned() >> at) & 1 == 1
}

/// Returns an integer with another bit at a position.
pub fn with_bit(number: i64, at: usize, on: bool) -> i64
    requires { at < 64 }
    ensures { result ≡ spec.with_bit number at on }
{
    let bits = number.cast_unsigned();
    let mask = 1 << at;
    if on {
        (bits | mask).cast_signed()
    } else {
        (bits & !mask).cast_signed()
    }
}

/// Reads the bits of an integer from one up to another. They make a number from zero, or the integer itself
/// where they are all.
pub fn field(number: i64, start: usize, end: usize) -> i64
    requires within { end ≤ 64 }
    requires ordered { start ≤ end }
    ensures { result ≡ spec.field number start end }
{
    let width = end - start;
    if width == 0 {
        0
    } else if width == 64 {
        number
    } else {
        ((number.cast_unsigned() >> start) & ones(width)).cast_signed()
    }
}

/// Replaces the bits of an integer from one up to another by the low bits of a second one.
pub fn with_field(number: i64, start: usize, end: usize, value: i64) -> i64
    requires within { end ≤ 64 }
    requires ordered { start ≤ end }
    ensures { result ≡ spec.with_field number start end value }
{
    if start == end {
        return number;
    }
    let mask = ones(end) - ones(start);
    let new = (value.cast_unsigned() << start) & mask;
    ((number.cast_unsigned() & !mask) | new).cast_signed()
}

/// Builds so many ones, from the lowest bit on.
fn ones(width: usize) -> u64
    requires { width ≤ 64 }
    ensures { result ≡ 2 ^ width - 1 }
{
    if width == 0 {
        0
    } else {
        u64::MAX >> (64 - width)
    }
}
