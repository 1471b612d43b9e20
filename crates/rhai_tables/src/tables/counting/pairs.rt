//! Natives over pairs: one that makes a pair, and those that read and write what is in one.

ghost use Rattle.std.specs.Prelude.{◌≡◌};
ghost use Rattle.rhai_natives.specs.Arguments.{int_of, values_of};
ghost use Rattle.rhai_natives.specs.Responses.{AreAnswered, IsAnswered};
ghost use Rattle.rhai_tables.specs.Counting as counting;

use crate::host::Pair;
use crate::tables::counting::overflow;
use rhai_natives::{Arguments, Datum, Fault, Response};
use rhai_values::base::value::{Dynamic, Union};
use std::alloc::Global;

/// A native over pairs.
#[derive(Clone, Copy, Debug, PartialEq, Eq)]
pub enum PairNative {
    New,
    X,
    Y,
    Sum,
    List,
    SetX,
    SetY,
    SetList,
    At,
    SetAt,
}

/// Calls a native. None says that there is no such native for these arguments.
pub(crate) fn call_pair(
    alloc: Global,
    native: PairNative,
    arguments: &Arguments<'_, Pair>,
) -> Option<Response<Pair>>
    ensures { AreAnswered result (counting.answering_pair native (values_of arguments.now)) }
{
    match native {
        PairNative::New => {
            let (x, y) = arguments.ints()?;
            Some(new(alloc, x, y))
        }
        PairNative::X => Some(x(*arguments.host()?)),
        PairNative::Y => Some(y(*arguments.host()?)),
        PairNative::Sum => Some(sum(alloc, *arguments.host()?)),
        PairNative::List => Some(list(alloc, *arguments.host()?)),
        PairNative::SetX => {
            let (pair, number) = arguments.host_and_int()?;
            Some(set_x(alloc, *pair, number))
        }
        PairNative::SetY => {
            let (pair, number) = arguments.host_and_int()?;
            Some(set_y(alloc, *pair, number))
        }
        PairNative::SetList => {
            let (_, items) = arguments.host_and_array()?;
            set_list(alloc, items)
        }
        PairNative::At => {
            let (pair, index) = arguments.host_and_int()?;
            at(*pair, index)
        }
        PairNative::SetAt => {
            let (pair, index, number) = arguments.host_and_ints()?;
            set_at(alloc, *pair, index, number)
        }
    }
}

fn new(alloc: Global, x: i64, y: i64) -> Response<Pair>
    ensures { IsAnswered result (counting.made x y) }
{
    Response::host(alloc, Pair(x, y))
}

fn x(pair: Pair) -> Response<Pair>
    ensures { result ≡ counting.x_of pair }
{
    Response::Gives(Datum::Int(pair.0))
}

fn y(pair: Pair) -> Response<Pair>
    ensures { result ≡ counting.y_of pair }
{
    Response::Gives(Datum::Int(pair.1))
}

fn sum(alloc: Global, pair: Pair) -> Response<Pair>
    ensures { IsAnswered result (counting.sum_of pair) }
{
    match pair.0.checked_add(pair.1) {
        Some(number) => Response::Gives(Datum::Int(number)),
        None => overflow(alloc),
    }
}

fn list(alloc: Global, pair: Pair) -> Response<Pair>
    ensures { IsAnswered result (counting.list_of pair) }
{
    Response::integers(alloc, &[pair.0, pair.1])
}

fn set_x(alloc: Global, pair: Pair, number: i64) -> Response<Pair>
    ensures { IsAnswered result (counting.with_x pair number) }
{
    Response::changing_host(alloc, Pair(number, pair.1))
}

fn set_y(alloc: Global, pair: Pair, number: i64) -> Response<Pair>
    ensures { IsAnswered result (counting.with_y pair number) }
{
    Response::changing_host(alloc, Pair(pair.0, number))
}

fn set_list(alloc: Global, items: &[Dynamic<Pair>]) -> Option<Response<Pair>>
    ensures { AreAnswered result (counting.with_list items.now) }
{
    match items {
        [x, y] => {
            let pair = Pair(int_in(x)?, int_in(y)?);
            Some(Response::changing_host(alloc, pair))
        }
        [] | [_] | [_, _, _, ..] => None,
    }
}

fn int_in(item: &Dynamic<Pair>) -> Option<i64>
    ensures { result ≡ int_of item.now.value }
{
    match &item.value {
        Union::Int(number) => Some(*number),
        _ => None,
    }
}

/// Reads the number at an index. The index 3 is one that the native refuses.
fn at(pair: Pair, index: i64) -> Option<Response<Pair>>
    ensures { result ≡ counting.number_at pair index }
{
    match index {
        0 => Some(x(pair)),
        1 => Some(y(pair)),
        3 => Some(Response::Faults(Fault::Runtime(Datum::Unit))),
        _ => None,
    }
}

/// Sets the number at an index. At the index 2, which cannot be read, it sets both.
fn set_at(alloc: Global, pair: Pair, index: i64, number: i64) -> Option<Response<Pair>>
    ensures { AreAnswered result (counting.with_number_at pair index number) }
{
    match index {
        0 => Some(set_x(alloc, pair, number)),
        1 => Some(set_y(alloc, pair, number)),
        2 => Some(Response::changing_host(alloc, Pair(number, number))),
        _ => None,
    }
}
