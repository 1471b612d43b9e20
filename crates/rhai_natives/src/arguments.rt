//! The arguments of a call, as a listed native is given them.

ghost use Rattle.std.specs.Prelude.{◌≡◌};
ghost use Rattle.std.specs.Option.{option_map};
ghost use Rattle.rhai_natives.specs.Arguments as given;

use rhai_values::base::value::{Dynamic, Union};

/// The arguments of a call.
#[derive(Drop)]
pub enum Arguments<'a, H> {
    Zero,
    One(&'a Union<H>),
    Two(&'a Union<H>, &'a Union<H>),
    More(&'a Union<H>, &'a Union<H>, &'a Union<H>, &'a [Dynamic<H>]),
}

impl<'a, H> Arguments<'a, H> {
    /// Collects the arguments of a call.
    pub fn new(first: Option<&'a Dynamic<H>>, rest: &'a [Dynamic<H>]) -> Arguments<'a, H>
        ensures { given.values_of result ≡ given.values_in (option_map given.now_of first.entry) rest.now }
    {
        match (first, rest) {
            (None, []) => Arguments::Zero,
            (None, [a]) => Arguments::One(&a.value),
            (None, [a, b]) => Arguments::Two(&a.value, &b.value),
            (None, [a, b, c, more @ ..]) => Arguments::More(&a.value, &b.value, &c.value, more),
            (Some(a), []) => Arguments::One(&a.value),
            (Some(a), [b]) => Arguments::Two(&a.value, &b.value),
            (Some(a), [b, c, more @ ..]) => Arguments::More(&a.value, &b.value, &c.value, more),
        }
    }

    /// Checks that there is no argument.
    pub fn none(&self) -> Option<()>
        ensures { result ≡ given.none_in (given.values_of self.now) }
    {
        match self {
            Arguments::Zero => Some(()),
            _ => None,
        }
    }

    /// Reads the only argument, an integer.
    pub fn int(&self) -> Option<i64>
        ensures { result ≡ given.int_in (given.values_of self.now) }
    {
        match self {
            Arguments::One(a) => int_of(a),
            _ => None,
        }
    }

    /// Reads two arguments, both integers.
    pub fn ints(&self) -> Option<(i64, i64)>
        ensures { result ≡ given.ints_in (given.values_of self.now) }
    {
        match self {
            Arguments::Two(a, b) => Some((int_of(a)?, int_of(b)?)),
            _ => None,
        }
    }

    /// Reads the only argument, a value of the host's own type.
    pub fn host(&self) -> Option<&'a H>
        ensures { option_map (λ h. h.now) result ≡ given.host_in (given.values_of self.now) }
    {
        match self {
            Arguments::One(a) => host_of(a),
            _ => None,
        }
    }

    /// Reads two arguments, both values of the host's own type.
    pub fn hosts(&self) -> Option<(&'a H, &'a H)>
        ensures { option_map (λ pair. (pair.0.now, pair.1.now)) result
            ≡ given.hosts_in (given.values_of self.now) }
    {
        match self {
            Arguments::Two(a, b) => Some((host_of(a)?, host_of(b)?)),
            _ => None,
        }
    }

    /// Reads two arguments, a value of the host's own type and an integer.
    pub fn host_and_int(&self) -> Option<(&'a H, i64)>
        ensures { option_map (λ found. (found.0.now, found.1)) result
            ≡ given.host_and_int_in (given.values_of self.now) }
    {
        match self {
            Arguments::Two(a, b) => Some((host_of(a)?, int_of(b)?)),
            _ => None,
        }
    }

    /// Reads three arguments, a value of the host's own type and two integers.
    pub fn host_and_ints(&self) -> Option<(&'a H, i64, i64)>
        ensures { option_map (λ found. (found.0.now, found.1, found.2)) result
            ≡ given.host_and_ints_in (given.values_of self.now) }
    {
        match self {
            Arguments::More(a, b, c, []) => Some((host_of(a)?, int_of(b)?, int_of(c)?)),
            _ => None,
        }
    }

    /// Reads two arguments, a value of the host's own type and an array. Of the array it answers the
    /// items.
    pub fn host_and_array(&self) -> Option<(&'a H, &'a [Dynamic<H>])>
        ensures { option_map (λ found. (found.0.now, found.1.now)) result
            ≡ given.host_and_array_in (given.values_of self.now) }
    {
        match self {
            Arguments::Two(a, b) => Some((host_of(a)?, array_of(b)?)),
            _ => None,
        }
    }
}

fn int_of<H>(value: &Union<H>) -> Option<i64>
    ensures { result ≡ given.int_of value.now }
{
    match value {
        Union::Int(number) => Some(*number),
        _ => None,
    }
}

fn host_of<H>(value: &Union<H>) -> Option<&H>
    ensures { option_map (λ h. h.now) result ≡ given.host_of value.now }
{
    match value {
        Union::Host(own) => Some(own.get()),
        _ => None,
    }
}

fn array_of<H>(value: &Union<H>) -> Option<&[Dynamic<H>]>
    ensures { option_map (λ items. items.now) result ≡ given.array_of value.now }
{
    match value {
        Union::Array(items) => Some(items.get().as_slice()),
        _ => None,
    }
}
