//! `a[0][1] = 5` over `[[1, 2], [3, 4]]`, by the public call of a chain: a chain copies nothing that it goes through, so
//! the call asks for no memory, and wherever it is reached it assigns.

use rhai_build::functions::TreeParts;
use rhai_eval_base::base::{CellId, Dynamic, Scope, Union};
use rhai_rows::attempt::Attempt;
use rhai_rows::entry::Entry;
use rhai_rows::outcome::{Ending, Outcome};
use rhai_rows::refuser;
use rhai_rows::refuser::Refusal;
use rhai_rows::runner::Runner;
use rhai_rows::sample::Script;
use rhai_rows::settings::{Settings, Way};
use rhai_samples::parts::Part::{Assign, Index, IndexOn, Int, Let, Ones, Share, Variable};
use rhai_samples::parts::{Part, tree_of};
use rhai_tables::host::Pair;
use std::alloc::{AllocError, Global};

/// What the chain goes through.
#[derive(Clone, Copy, Debug, PartialEq, Eq)]
pub enum Root {
    /// `[[1, 2], [3, 4]]`
    Short,
    /// The same with a thousand ones for the first two.
    Long,
    /// The short one in a cell, of which the variable is a handle.
    InCell,
}

impl Root {
    pub const ALL: [Root; 3] = [Root::Short, Root::Long, Root::InCell];

    /// `let a = .. ; a[0][1] = 5;`
    fn parts(self) -> &'static [Part<'static>] {
        match self {
            Root::Short => SHORT,
            Root::Long => LONG,
            Root::InCell => IN_CELL,
        }
    }
}

/// `let a = [[1, 2], [3, 4]]; a[0][1] = 5;`
const SHORT: &[Part<'_>] = &[
    Int(1, 11),
    Int(2, 14),
    Part::Array(2, 10),
    Int(3, 19),
    Int(4, 22),
    Part::Array(2, 18),
    Part::Array(2, 9),
    Let("a", 5, 1),
    Variable("a", 1, 27),
    Int(0, 29),
    Int(1, 32),
    Index(31),
    IndexOn(28),
    Int(5, 37),
    Assign(35),
];

/// The same with a thousand ones for the first two.
const LONG: &[Part<'_>] = &[
    Ones(1000, 11, 10),
    Int(3, 19),
    Int(4, 22),
    Part::Array(2, 18),
    Part::Array(2, 9),
    Let("a", 5, 1),
    Variable("a", 1, 27),
    Int(0, 29),
    Int(1, 32),
    Index(31),
    IndexOn(28),
    Int(5, 37),
    Assign(35),
];

/// The short one, where `a` is shared before.
const IN_CELL: &[Part<'_>] = &[
    Int(1, 11),
    Int(2, 14),
    Part::Array(2, 10),
    Int(3, 19),
    Int(4, 22),
    Part::Array(2, 18),
    Part::Array(2, 9),
    Let("a", 5, 1),
    Share(&[("a", 1, 25)]),
    Variable("a", 1, 27),
    Int(0, 29),
    Int(1, 32),
    Index(31),
    IndexOn(28),
    Int(5, 37),
    Assign(35),
];

/// Tells whether the assignment is done, and None where its call is not reached. What the call does not ask for is
/// granted from its end on.
pub fn is_assigned<R: Runner>(alloc: Global, root: Root, way: Way) -> Option<bool> {
    let mut attempt = Attempt::GRANTED;
    let is_done = run::<R>(alloc, root, way, &mut attempt);
    if attempt.is_reached {
        Some(is_done)
    } else {
        None
    }
}

/// Counts the requests of the call, in the way in which they are most.
pub fn requests<R: Runner>(alloc: Global, root: Root) -> usize {
    let mut most = 0;
    for way in Way::ALL {
        let number = requests_in::<R>(alloc, root, way);
        if number > most {
            most = number;
        }
    }
    most
}

/// Counts the requests of the call in a way.
fn requests_in<R: Runner>(alloc: Global, root: Root, way: Way) -> usize {
    for number in 1..=refuser::GREATEST {
        let mut attempt = Attempt::refusing(Refusal::Alone, number);
        run::<R>(alloc, root, way, &mut attempt);
        if !attempt.was_refused {
            return number.saturating_sub(1);
        }
    }
    refuser::GREATEST
}

/// Runs the script, its last statement by the call, and tells whether that gave `()` and the array is what it is to be.
fn run<R: Runner>(alloc: Global, root: Root, way: Way, attempt: &mut Attempt) -> bool {
    let Ok(script) = script(alloc, root) else {
        return false;
    };
    match R::enter(alloc, Entry::Chain, script, way, Scope::new(alloc), attempt) {
        Ok(outcome) => {
            let is_done = is_unit(&outcome.ending) && is_left(&outcome, root);
            drop(outcome);
            is_done
        }
        Err(AllocError) => false,
    }
}

fn script(alloc: Global, root: Root) -> Result<Script, AllocError> {
    let TreeParts {
        statements,
        functions,
    } = tree_of(alloc, root.parts())?;
    Ok(Script {
        statements,
        functions,
        settings: Settings::USUAL,
    })
}

fn is_unit(ending: &Ending) -> bool {
    match ending {
        Ending::Value(value) => matches!(&value.value, Union::Unit),
        _ => false,
    }
}

/// Tells whether the variable is as it is to be, or its cell.
fn is_left(outcome: &Outcome, root: Root) -> bool {
    match root {
        Root::InCell => match outcome.cells.get(CellId { number: 0 }) {
            Some(value) => is_changed(value),
            None => false,
        },
        Root::Short | Root::Long => match outcome.scope.get(0) {
            Some((_, value, _)) => is_changed(value),
            None => false,
        },
    }
}

/// Tells whether a value is `[[1, 5], [3, 4]]`, or has more in its first array.
fn is_changed(value: &Dynamic<Pair>) -> bool {
    match items_of(value) {
        Some([first, second]) => begins(first, 1, 5) && begins(second, 3, 4),
        _ => false,
    }
}

fn items_of(value: &Dynamic<Pair>) -> Option<&[Dynamic<Pair>]> {
    match &value.value {
        Union::Array(items) => Some(items.get().as_slice()),
        _ => None,
    }
}

/// Tells whether a value is an array that begins with these two integers.
fn begins(value: &Dynamic<Pair>, first: i64, second: i64) -> bool {
    match items_of(value) {
        Some([one, other, ..]) => is_integer(one, first) && is_integer(other, second),
        _ => false,
    }
}

fn is_integer(value: &Dynamic<Pair>, number: i64) -> bool {
    matches!(&value.value, Union::Int(n) if *n == number)
}
