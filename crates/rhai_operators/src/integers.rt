//! Arithmetic of integers. Ports the integer operators of upstream's `arithmetic` package; the
//! contracts cite specs/Integers.antt.

ghost use Rattle.std.specs.Prelude.{◌≡◌};
ghost use Rattle.rhai_operators.specs.Integers as exact;

/// Why an operator on integers gives no value.
#[derive(Clone, Copy, Debug, PartialEq, Eq)]
pub enum ArithmeticFault {
    Overflow,
    DivisionByZero,
    BadShift,
    BadExponent,
}

/// Adds two integers.
pub(crate) fn sum(x: i64, y: i64) -> Result<i64, ArithmeticFault>
    ensures { result ≡ exact.sum x y }
{
    x.checked_add(y).ok_or(ArithmeticFault::Overflow)
}

/// Subtracts the second integer from the first.
pub(crate) fn difference(x: i64, y: i64) -> Result<i64, ArithmeticFault>
    ensures { result ≡ exact.difference x y }
{
    x.checked_sub(y).ok_or(ArithmeticFault::Overflow)
}

/// Multiplies two integers.
pub(crate) fn product(x: i64, y: i64) -> Result<i64, ArithmeticFault>
    ensures { result ≡ exact.product x y }
{
    x.checked_mul(y).ok_or(ArithmeticFault::Overflow)
}

/// Divides the first integer by the second, rounded towards zero.
pub(crate) fn quotient(x: i64, y: i64) -> Result<i64, ArithmeticFault>
    ensures { result ≡ exact.quotient x y }
{
    if y == 0 {
        return Err(ArithmeticFault::DivisionByZero);
    }
    x.checked_div(y).ok_or(ArithmeticFault::Overflow)
}

/// Computes what the quotient leaves.
pub(crate) fn remainder(x: i64, y: i64) -> Result<i64, ArithmeticFault>
    ensures { result ≡ exact.remainder x y }
{
    if y == 0 {
        return Err(ArithmeticFault::DivisionByZero);
    }
    x.checked_rem(y).ok_or(ArithmeticFault::Overflow)
}

/// Negates an integer.
pub(crate) fn opposite(x: i64) -> Result<i64, ArithmeticFault>
    ensures { result ≡ exact.opposite x }
{
    x.checked_neg().ok_or(ArithmeticFault::Overflow)
}

/// Raises the first integer to the power of the second.
pub(crate) fn power(x: i64, y: i64) -> Result<i64, ArithmeticFault>
    ensures { result ≡ exact.power x y }
{
    match u32::try_from(y) {
        Ok(exponent) => x.checked_pow(exponent).ok_or(ArithmeticFault::Overflow),
        Err(_) => Err(ArithmeticFault::BadExponent),
    }
}

/// Moves the bits of an integer towards the top.
pub(crate) fn shifted_left(x: i64, y: i64) -> Result<i64, ArithmeticFault>
    ensures { result ≡ exact.shifted_left x y }
{
    if (0..64).contains(&y) {
        Ok(x << y)
    } else {
        Err(ArithmeticFault::BadShift)
    }
}

/// Moves the bits of an integer towards the bottom.
pub(crate) fn shifted_right(x: i64, y: i64) -> Result<i64, ArithmeticFault>
    ensures { result ≡ exact.shifted_right x y }
{
    if (0..64).contains(&y) {
        Ok(x >> y)
    } else {
        Err(ArithmeticFault::BadShift)
    }
}
