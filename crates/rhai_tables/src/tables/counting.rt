//! Natives over a counter, and over pairs.

ghost use Rattle.std.specs.Prelude.{◌≡◌, pos};
ghost use Rattle.rhai_natives.specs.Responses.{IsAnswered};
ghost use Rattle.rhai_tables.specs.Counting.{counted, doubled, increased, overflow};

mod pairs;

use crate::host::Pair;
use crate::tables::counting::pairs::{PairNative, call_pair};
use rhai_natives::{Arguments, Datum, Listed, ListedNatives, Natives, Response};
use std::alloc::Global;

/// A counter, natives that increase an integer, double one, and count, and those over pairs.
#[derive(Debug, Drop)]
pub struct Counting {
    pub counter: i64,
}

/// A native of the list.
#[derive(Clone, Copy, Debug, PartialEq, Eq)]
pub enum CountingNative {
    Inc,
    Double,
    Next,
    Pairs(PairNative),
}

impl ListedNatives<Pair> for Counting {
    ghost use Rattle.std.specs.Prelude.{ℤ};
    ghost use Rattle.rhai_tables.specs.Counting.{answering, listing};

    type Native = CountingNative;

    ghost State = { ℤ };

    ghost state = { λ c. c.counter };

    ghost list = { listing };

    ghost does = { answering };

    fn listed(&self) -> &[Listed<CountingNative>] {
        &[
            Listed::Impure("inc", CountingNative::Inc),
            Listed::Pure("double", CountingNative::Double),
            Listed::Impure("next", CountingNative::Next),
            Listed::Pure("pair", CountingNative::Pairs(PairNative::New)),
            Listed::Pure("get$x", CountingNative::Pairs(PairNative::X)),
            Listed::Pure("get$y", CountingNative::Pairs(PairNative::Y)),
            Listed::Pure("get$sum", CountingNative::Pairs(PairNative::Sum)),
            Listed::Pure("get$list", CountingNative::Pairs(PairNative::List)),
            Listed::Pure("get$view", CountingNative::Pairs(PairNative::List)),
            Listed::Impure("set$x", CountingNative::Pairs(PairNative::SetX)),
            Listed::Impure("set$y", CountingNative::Pairs(PairNative::SetY)),
            Listed::Impure("set$list", CountingNative::Pairs(PairNative::SetList)),
            Listed::Pure("index$get$", CountingNative::Pairs(PairNative::At)),
            Listed::Impure("index$set$", CountingNative::Pairs(PairNative::SetAt)),
        ]
    }

    fn call(
        &mut self,
        alloc: Global,
        native: CountingNative,
        arguments: &Arguments<'_, Pair>,
    ) -> Option<Response<Pair>> {
        match native {
            CountingNative::Inc => Some(inc(alloc, arguments.int()?)),
            CountingNative::Double => Some(double(alloc, arguments.int()?)),
            CountingNative::Next => {
                arguments.none()?;
                Some(self.next(alloc))
            }
            CountingNative::Pairs(native) => call_pair(alloc, native, arguments),
        }
    }
}

impl Counting {
    /// Creates the table of these natives, with the counter at nought.
    pub fn table(alloc: Global) -> Natives<Counting>
        ensures { result.natives.counter ≡ pos 0 }
    {
        Natives::new(alloc, Counting { counter: 0 })
    }

    fn next(&mut self, alloc: Global) -> Response<Pair>
        ensures response { IsAnswered result (counted self.old.counter).response }
        ensures state { self.new.counter ≡ (counted self.old.counter).state }
    {
        let count = self.counter;
        match count.checked_add(1) {
            Some(counter) => {
                self.counter = counter;
                Response::Gives(Datum::Int(count))
            }
            None => overflow(alloc),
        }
    }
}

fn inc(alloc: Global, number: i64) -> Response<Pair>
    ensures { IsAnswered result (increased number) }
{
    match number.checked_add(1) {
        Some(number) => Response::changing(Datum::Int(number)),
        None => overflow(alloc),
    }
}

fn double(alloc: Global, number: i64) -> Response<Pair>
    ensures { IsAnswered result (doubled number) }
{
    match number.checked_mul(2) {
        Some(number) => Response::Gives(Datum::Int(number)),
        None => overflow(alloc),
    }
}

fn overflow(alloc: Global) -> Response<Pair>
    ensures { IsAnswered result overflow }
{
    Response::arithmetic(alloc, "integer overflow")
}
