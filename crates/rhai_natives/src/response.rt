//! What a listed native answers: only values with no cell, script function or constant in them.

ghost use Rattle.std.specs.Prelude.{◌≡◌, IfOk};
ghost use Rattle.rhai_natives.specs.Responses.{IsAnswered, union_of};
ghost use Rattle.rhai_natives.specs.declared.response.Datum.TheVariants as datum;
ghost use Rattle.rhai_natives.specs.declared.response.Fault.TheVariants as fault;
ghost use Rattle.rhai_natives.specs.declared.response.Response.TheVariants as response;

use crate::integers::Integers;
use rhai_tree::{Boxed, Shared, Text};
use rhai_values::base::value::Union;
use std::alloc::{AllocError, Global};

/// A value with no cell, script function or constant in it.
#[derive(Drop)]
pub enum Datum<H> {
    Unit,
    Bool(bool),
    Int(i64),
    Char(char),
    Text(Shared<Text>),
    Integers(Integers<H>),
    Host(Boxed<H>),
}

impl<H> Datum<H> {
    /// Turns the datum into a value.
    pub fn into_union(self) -> Union<H>
        ensures { result ≡ union_of self }
    {
        match self {
            Datum::Unit => Union::Unit,
            Datum::Bool(truth) => Union::Bool(truth),
            Datum::Int(number) => Union::Int(number),
            Datum::Char(letter) => Union::Char(letter),
            Datum::Text(text) => Union::Str(text),
            Datum::Integers(array) => array.into_union(),
            Datum::Host(value) => Union::Host(value),
        }
    }
}

/// A fault that a listed native may answer. It stands nowhere, so that the evaluator gives it the
/// position of the call.
#[derive(Drop)]
pub enum Fault<H> {
    Arithmetic(Shared<Text>),
    IndexingType(Shared<Text>),
    PropertyNotFound(Shared<Text>),
    Runtime(Datum<H>),
}

/// What a listed native answers.
#[derive(Drop)]
pub enum Response<H> {
    /// A value. The first argument stays.
    Gives(Datum<H>),
    /// A value, and the first argument as it is from now on. That of a native which is listed as pure
    /// stays all the same.
    Changes { value: Datum<H>, first: Datum<H> },
    Faults(Fault<H>),
    NoMemory,
}

impl<H> Response<H> {
    /// Answers `()`, and the first argument as it is from now on.
    pub fn changing(first: Datum<H>) -> Response<H>
        ensures { result ≡ response.Changes datum.Unit first }
    {
        Response::Changes {
            value: Datum::Unit,
            first,
        }
    }

    /// Answers a text.
    pub fn text(alloc: Global, text: &str) -> Response<H>
        ensures { IsAnswered result (response.Gives (datum.Text text.now)) }
    {
        match shared(alloc, text) {
            Ok(text) => Response::Gives(Datum::Text(text)),
            Err(_) => Response::NoMemory,
        }
    }

    /// Answers an `ErrorArithmetic` with a text.
    pub fn arithmetic(alloc: Global, text: &str) -> Response<H>
        ensures { IsAnswered result (response.Faults (fault.Arithmetic text.now)) }
    {
        match shared(alloc, text) {
            Ok(text) => Response::Faults(Fault::Arithmetic(text)),
            Err(_) => Response::NoMemory,
        }
    }
}

impl<H: Drop> Response<H> {
    /// Answers an array of these integers.
    pub fn integers(alloc: Global, numbers: &[i64]) -> Response<H>
        ensures { IsAnswered result (response.Gives (datum.Integers numbers.now)) }
    {
        match Integers::new(alloc, numbers) {
            Ok(array) => Response::Gives(Datum::Integers(array)),
            Err(_) => Response::NoMemory,
        }
    }

    /// Answers a value of the host's own.
    pub fn host(alloc: Global, value: H) -> Response<H>
        ensures { IsAnswered result (response.Gives (datum.Host value)) }
    {
        match Boxed::new(alloc, value) {
            Ok(value) => Response::Gives(Datum::Host(value)),
            Err(_) => Response::NoMemory,
        }
    }

    /// Answers `()`, and a value of the host's own as the first argument from now on.
    pub fn changing_host(alloc: Global, first: H) -> Response<H>
        ensures { IsAnswered result (response.Changes datum.Unit (datum.Host first)) }
    {
        match Boxed::new(alloc, first) {
            Ok(first) => Response::changing(Datum::Host(first)),
            Err(_) => Response::NoMemory,
        }
    }
}

fn shared(alloc: Global, text: &str) -> Result<Shared<Text>, AllocError>
    ensures { IfOk result (λ t. t ≡ text.now) }
{
    Shared::new(alloc, Text::from_str(alloc, text)?)
}
