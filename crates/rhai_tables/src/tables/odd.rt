//! Natives that a list cannot say: one that fails behind a change of its argument, one that ends the script, a sum
//! that is none, and two that keep a pointer between calls. The table is one by hand, with its law.

ghost use Rattle.std.specs.Prelude.{◌≡◌, None, Some, IfOk};
ghost use Rattle.rhai_errors.specs.Native.{reply_of};
ghost use Rattle.rhai_natives.specs.Arguments.{int_of as int_in};
ghost use Rattle.rhai_tables.specs.Odd as odd;

use crate::host::Pair;
use crate::tables::answer_no_native;
use rhai_errors::error::EvalAltResult;
use rhai_errors::table::{Answer, NativeTable};
use rhai_tree::Boxed;
use rhai_tree::literal::NativeId;
use rhai_tree::position::Position;
use rhai_values::base::value::{Dynamic, Union};
use rhai_values::cells::CellStore;
use std::alloc::Global;

/// The natives, with the pointer that they keep.
pub struct Odd {
    alloc: Global,
    pub kept: Option<Dynamic<Pair>>,
}

// Written by hand, so that what lets go of it calls this, and need not go through its parts.
impl Drop for Odd {
    fn drop(self) {
        let Odd { alloc: _, kept: _ } = self;
    }
}

/// A native of the table.
#[derive(Clone, Copy, Debug, PartialEq, Eq)]
enum OddNative {
    /// Adds one to an integer, and fails.
    Fail,
    /// Ends the script with its argument.
    Leave,
    /// Answers 0 for two integers.
    Sum,
    /// Keeps a pointer.
    Keep,
    /// Answers the pointer that is kept.
    Give,
}

impl NativeTable<Pair> for Odd {
    ghost use Rattle.rhai_tables.specs.Odd.{Kept, kept_of, natives};
    ghost use Rattle.rhai_tables.specs.OddLaw.{odd_lawful};

    ghost State = { Kept };

    ghost state = { λ t. kept_of t.kept };

    ghost natives = { natives };

    fn call(
        &mut self,
        _cells: &CellStore<Pair>,
        name: &str,
        first: Option<&mut Dynamic<Pair>>,
        rest: &[Dynamic<Pair>],
        _position: Position,
    ) -> Answer<Pair> {
        let native = native_named(name);
        match first {
            Some(first) => self.call_on(native, first, rest),
            None => self.call_alone(native, rest),
        }
    }

    fn call_numbered(
        &mut self,
        _cells: &CellStore<Pair>,
        _id: NativeId,
        first: Option<&mut Dynamic<Pair>>,
        _rest: &[Dynamic<Pair>],
        _position: Position,
    ) -> Answer<Pair> {
        match first {
            Some(first) => answer_no_native(first),
            None => Answer::Missing,
        }
    }

    fn is_pure(&self, name: &str, _first_type: &str, _count: usize) -> bool {
        is_pure(native_named(name))
    }

    fn is_pure_numbered(&self, _id: NativeId) -> bool {
        true
    }

    ghost lawful = { odd_lawful _ };
}

/// Finds the native of a name.
fn native_named(name: &str) -> Option<OddNative>
    ensures { result ≡ odd.named name.now }
{
    if name == "fail" {
        return Some(OddNative::Fail);
    }
    if name == "leave" {
        return Some(OddNative::Leave);
    }
    if name == "+" {
        return Some(OddNative::Sum);
    }
    if name == "keep" {
        return Some(OddNative::Keep);
    }
    if name == "give" {
        return Some(OddNative::Give);
    }
    None
}

/// Tells whether a native changes nothing. What is not there does not.
fn is_pure(native: Option<OddNative>) -> bool
    ensures { result ≡ odd.is_pure native }
{
    match native {
        Some(OddNative::Sum) | None => true,
        Some(OddNative::Fail | OddNative::Leave | OddNative::Keep | OddNative::Give) => false,
    }
}

impl Odd {
    /// Creates the table, with no pointer kept.
    pub fn new(alloc: Global) -> Odd
        ensures { result.kept ≡ None }
    {
        Odd { alloc, kept: None }
    }

    /// Tells whether a pointer is kept.
    pub fn has_kept(&self) -> bool {
        self.kept.is_some()
    }

    /// Calls a native, if there is one, on a first argument.
    fn call_on(
        &mut self,
        native: Option<OddNative>,
        first: &mut Dynamic<Pair>,
        rest: &[Dynamic<Pair>],
    ) -> Answer<Pair>
        ensures { odd.Does (odd.on_first native (odd.kept_of self.old.kept) first.old rest.now)
            (Some first.old) (odd.kept_of self.old.kept) (reply_of result) (Some first.new)
            (odd.kept_of self.new.kept) }
    {
        match (native, rest) {
            (Some(OddNative::Fail), []) => self.fail(first),
            (Some(OddNative::Leave), []) => self.leave(first),
            (Some(OddNative::Keep), []) => self.keep(first),
            (Some(OddNative::Sum), [other]) => self.sum(first, other),
            _ => answer_no_native(first),
        }
    }

    /// Calls a native, if there is one, without a first argument.
    fn call_alone(&mut self, native: Option<OddNative>, rest: &[Dynamic<Pair>]) -> Answer<Pair>
        ensures { odd.Does (odd.alone native (odd.kept_of self.old.kept) rest.now) None
            (odd.kept_of self.old.kept) (reply_of result) None (odd.kept_of self.new.kept) }
    {
        match (native, rest) {
            (Some(OddNative::Give), []) => self.give(),
            _ => Answer::Missing,
        }
    }

    /// Adds one to an integer, of which the greatest stays, and fails.
    fn fail(&self, first: &mut Dynamic<Pair>) -> Answer<Pair>
        ensures { odd.Does
            (odd.failed first.old (odd.kept_of self.now.kept) (int_in first.old.value))
            (Some first.old) (odd.kept_of self.now.kept) (reply_of result) (Some first.new)
            (odd.kept_of self.now.kept) }
    {
        let Some(number) = int_of(first) else {
            return Answer::Missing;
        };
        match Boxed::new(self.alloc, Dynamic::new(Union::Unit)) {
            Ok(value) => {
                first.value = Union::Int(one_more(number));
                Answer::Fault(EvalAltResult::ErrorRuntime(value, Position::NONE))
            }
            Err(_) => Answer::NoMemory,
        }
    }

    /// Ends the script with a copy of a value.
    fn leave(&self, first: &mut Dynamic<Pair>) -> Answer<Pair>
        ensures { odd.Does (odd.left first.old (odd.kept_of self.now.kept)) (Some first.old)
            (odd.kept_of self.now.kept) (reply_of result) (Some first.new) (odd.kept_of self.now.kept) }
    {
        let Ok(value) = first.try_clone(self.alloc) else {
            return Answer::NoMemory;
        };
        match Boxed::new(self.alloc, value) {
            Ok(value) => Answer::Fault(EvalAltResult::Exit(value, Position::NONE)),
            Err(_) => Answer::NoMemory,
        }
    }

    /// Answers 0 for two integers.
    fn sum(&self, first: &mut Dynamic<Pair>, other: &Dynamic<Pair>) -> Answer<Pair>
        ensures { odd.Does
            (odd.on_two_integers first.old (odd.kept_of self.now.kept) (int_in first.old.value)
            (int_in other.now.value))
            (Some first.old) (odd.kept_of self.now.kept) (reply_of result) (Some first.new)
            (odd.kept_of self.now.kept) }
    {
        match (int_of(first), int_of(other)) {
            (Some(_), Some(_)) => Answer::Value(Dynamic::new(Union::Int(0))),
            _ => Answer::Missing,
        }
    }

    /// Keeps a copy of a pointer. What was kept stays where there is no memory for one.
    fn keep(&mut self, first: &mut Dynamic<Pair>) -> Answer<Pair>
        ensures { odd.Does
            (odd.kept_by first.old (odd.kept_of self.old.kept) (odd.pointer_of first.old.value))
            (Some first.old) (odd.kept_of self.old.kept) (reply_of result) (Some first.new)
            (odd.kept_of self.new.kept) }
    {
        if !is_pointer(first) {
            return Answer::Missing;
        }
        match first.try_clone(self.alloc) {
            Ok(pointer) => {
                self.kept = Some(pointer);
                Answer::Value(Dynamic::new(Union::Unit))
            }
            Err(_) => Answer::NoMemory,
        }
    }

    /// Answers a copy of the pointer that is kept.
    fn give(&self) -> Answer<Pair>
        ensures { odd.Does (odd.given (odd.kept_of self.now.kept)) None (odd.kept_of self.now.kept)
            (reply_of result) None (odd.kept_of self.now.kept) }
    {
        match &self.kept {
            Some(pointer) if is_pointer(pointer) => match pointer.try_clone(self.alloc) {
                Ok(pointer) => Answer::Value(pointer),
                Err(_) => Answer::NoMemory,
            },
            _ => Answer::Missing,
        }
    }
}

fn is_pointer(value: &Dynamic<Pair>) -> bool
    ensures { result ≡ odd.is_pointer value.now.value }
{
    matches!(&value.value, Union::FnPtr(_))
}

fn int_of(value: &Dynamic<Pair>) -> Option<i64>
    ensures { result ≡ int_in value.now.value }
{
    match &value.value {
        Union::Int(number) => Some(*number),
        _ => None,
    }
}

fn one_more(number: i64) -> i64
    ensures { result ≡ odd.one_more number }
{
    match number.checked_add(1) {
        Some(more) => more,
        None => number,
    }
}
