//! The table of natives of a list.

ghost use Rattle.std.specs.Prelude.{◌≡◌, Some, None};
ghost use Rattle.rhai_errors.specs.Native.{Obeys, reply_of};
ghost use Rattle.rhai_natives.specs.declared.response.Response.TheVariants as response;
ghost use Rattle.rhai_natives.specs.Table.{IsLeft, IsReplied, change_in, changed, effect_of};
ghost use Rattle.rhai_natives.specs.Found.{is_pure as purity_of};

use crate::arguments::Arguments;
use crate::listed::{Found, ListedNatives, find_named, find_numbered};
use crate::response::{Datum, Fault, Response};
use rhai_errors::error::EvalAltResult;
use rhai_errors::table::{Answer, NativeTable};
use rhai_tree::Boxed;
use rhai_tree::literal::NativeId;
use rhai_tree::position::Position;
use rhai_values::base::value::{Dynamic, Host};
use rhai_values::cells::CellStore;
use std::alloc::Global;

/// A host's natives as a table, whose law is proved whatever they do.
#[derive(Drop)]
pub struct Natives<N> {
    alloc: Global,
    pub natives: N,
}

impl<N> Natives<N> {
    /// Creates the table of these natives.
    pub fn new(alloc: Global, natives: N) -> Natives<N>
        ensures { result.natives ≡ natives }
    {
        Natives { alloc, natives }
    }
}

impl<H: Host, N: ListedNatives<H>> NativeTable<H> for Natives<N> {
    ghost use Rattle.rhai_natives.specs.Table.{natives_in};
    ghost use Rattle.rhai_natives.specs.Law.{lawful_list};

    ghost State = { N.State };

    ghost state = { λ t. N.state t.natives };

    ghost natives = { natives_in N.list N.does };

    fn call(
        &mut self,
        _cells: &CellStore<H>,
        name: &str,
        first: Option<&mut Dynamic<H>>,
        rest: &[Dynamic<H>],
        _position: Position,
    ) -> Answer<H> {
        let found = find_named(self.natives.listed(), name);
        match first {
            Some(first) => call_with(self.alloc, &mut self.natives, found, first, rest),
            None => call_without(self.alloc, &mut self.natives, found, rest),
        }
    }

    fn call_numbered(
        &mut self,
        _cells: &CellStore<H>,
        id: NativeId,
        first: Option<&mut Dynamic<H>>,
        rest: &[Dynamic<H>],
        _position: Position,
    ) -> Answer<H> {
        let found = find_numbered(self.natives.listed(), id);
        match first {
            Some(first) => call_with(self.alloc, &mut self.natives, found, first, rest),
            None => call_without(self.alloc, &mut self.natives, found, rest),
        }
    }

    fn is_pure(&self, name: &str, _first_type: &str, _count: usize) -> bool {
        is_pure(find_named(self.natives.listed(), name))
    }

    fn is_pure_numbered(&self, id: NativeId) -> bool {
        is_pure(find_numbered(self.natives.listed(), id))
    }

    ghost lawful = { lawful_list N.list N.does H.name_of };
}

/// Tells whether a native is pure. What is not there is.
fn is_pure<K: Copy>(found: Option<Found<K>>) -> bool
    ensures { result ≡ purity_of found }
{
    match found {
        Some(found) => found.is_pure,
        None => true,
    }
}

/// Calls the native that was found, if one was, with a first argument.
#[inline(always)]
fn call_with<H: Host, N: ListedNatives<H>>(
    alloc: Global,
    natives: &mut N,
    found: Option<Found<N::Native>>,
    first: &mut Dynamic<H>,
    rest: &[Dynamic<H>],
) -> Answer<H>
    ensures obeys { Obeys (effect_of N.does (N.state natives.old) found (Some first.old) rest.now)
        (reply_of result) (Some first.new) (N.state natives.new) }
    ensures left { IsLeft (purity_of found) first.old first.new }
{
    let Some(found) = found else {
        return Answer::Missing;
    };
    let arguments = Arguments::new(Some(first), rest);
    let Some(response) = natives.call(alloc, found.native, &arguments) else {
        return Answer::Missing;
    };
    let (answer, change) = answer_of_response(alloc, response);
    apply(found.is_pure, change, first);
    answer
}

/// Calls the native that was found, if one was, without a first argument.
fn call_without<H: Host, N: ListedNatives<H>>(
    alloc: Global,
    natives: &mut N,
    found: Option<Found<N::Native>>,
    rest: &[Dynamic<H>],
) -> Answer<H>
    ensures { Obeys (effect_of N.does (N.state natives.old) found None rest.now)
        (reply_of result) None (N.state natives.new) }
{
    let Some(found) = found else {
        return Answer::Missing;
    };
    let arguments = Arguments::new(None, rest);
    let Some(response) = natives.call(alloc, found.native, &arguments) else {
        return Answer::Missing;
    };
    let (answer, _) = answer_of_response(alloc, response);
    answer
}

/// Turns a response into what a table answers, and into what becomes of the first argument.
#[inline(always)]
fn answer_of_response<H: Drop>(
    alloc: Global,
    response: Response<H>,
) -> (Answer<H>, Option<Datum<H>>)
    ensures reply { IsReplied response (reply_of result.0) }
    ensures change { result.1 ≡ change_in response }
{
    match response {
        Response::Gives(value) => (Answer::Value(Dynamic::new(value.into_union())), None),
        Response::Changes { value, first } => (
            Answer::Value(Dynamic::new(value.into_union())),
            Some(first),
        ),
        Response::Faults(fault) => (answer_of_fault(alloc, fault), None),
        Response::NoMemory => (Answer::NoMemory, None),
    }
}

/// Turns a fault into what a table answers.
fn answer_of_fault<H: Drop>(alloc: Global, fault: Fault<H>) -> Answer<H>
    ensures { IsReplied (response.Faults fault) (reply_of result) }
{
    let at = Position::NONE;
    let error = match fault {
        Fault::Arithmetic(text) => EvalAltResult::ErrorArithmetic(text, at),
        Fault::IndexingType(text) => EvalAltResult::ErrorIndexingType(text, at),
        Fault::PropertyNotFound(text) => EvalAltResult::ErrorPropertyNotFound(text, at),
        Fault::Runtime(value) => {
            match Boxed::new(alloc, Dynamic::new(value.into_union())) {
                Ok(value) => EvalAltResult::ErrorRuntime(value, at),
                Err(_) => return Answer::NoMemory,
            }
        }
    };
    Answer::Fault(error)
}

/// Changes a first argument. That of a pure native stays.
#[inline(always)]
fn apply<H: Drop>(is_pure: bool, change: Option<Datum<H>>, first: &mut Dynamic<H>)
    ensures { first.new ≡ changed is_pure change first.old }
{
    if let (false, Some(value)) = (is_pure, change) {
        first.value = value.into_union();
    }
}
