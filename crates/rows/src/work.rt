//! The works that are timed. Each prints how each of its scripts ended and how many operations it charged, and on standard
//! error how many of them a second had:
//!
//! - `loop`: a loop of so many decrements
//! - `array`: an array of so many literals, and one of twice as many
//! - `native`: so many calls of a native of one argument, in a loop that counts down
//! - `natives`: the same, and so many calls of one of two arguments
//! - `item`: so many additions to the last item of an array of a thousand items, and of a hundred thousand
//! - `increase`, `increase-twice`: so many turns with an addition of a variable to the first item of an array, or two
//! - `fib`: a function that calls itself twice, with that number
//! - `range`: a `for` over a range of so many integers
//! - `walk`: so many turns of a `for` over an array of a thousand items, and of a hundred thousand
//! - `switch`: so many turns with a `switch` of ten cases
//! - `throw`: so many turns with a value that is thrown and caught

use rhai_bench::timing::time_run;
use rhai_rows::sample::MadeStatements::{
    ArraySummed, ChoicesInTurn, Decrements, Doublings, FirstItemIncreased, Increments, ManyItems,
    Pairings, RangeSummed, ThrowsInTurn,
};
use rhai_rows::sample::MadeTree::Fibonacci;
use rhai_rows::sample::Tree::{Statements, WithFunctions};
use rhai_rows::sample::{MadeStatements, Sample, Tree};
use rhai_rows::settings::Setting::Usual;
use rhai_rows::settings::Way;
use std::io;

/// What scripts do that are timed.
#[derive(Clone, Copy)]
pub enum Work {
    Loop,
    Array,
    Native,
    Natives,
    Item,
    Increase,
    IncreaseTwice,
    Fib,
    Range,
    Walk,
    Switch,
    Throw,
}

impl Work {
    /// Finds the work of a word.
    pub fn named(word: &str) -> Option<Work> {
        match word {
            "loop" => Some(Work::Loop),
            "array" => Some(Work::Array),
            "native" => Some(Work::Native),
            "natives" => Some(Work::Natives),
            "item" => Some(Work::Item),
            "increase" => Some(Work::Increase),
            "increase-twice" => Some(Work::IncreaseTwice),
            "fib" => Some(Work::Fib),
            "range" => Some(Work::Range),
            "walk" => Some(Work::Walk),
            "switch" => Some(Work::Switch),
            "throw" => Some(Work::Throw),
            _ => None,
        }
    }

    /// Tells how long the work is where no argument says it.
    pub fn usual_length(self) -> u32 {
        match self {
            Work::Loop | Work::Native | Work::Natives | Work::Item => 1_000_000,
            Work::Increase | Work::IncreaseTwice => 1_000_000,
            Work::Range | Work::Walk | Work::Switch | Work::Throw => 1_000_000,
            Work::Array => 100_000,
            Work::Fib => 28,
        }
    }

    /// Runs the scripts of the work, and prints how each went.
    pub fn run(self, rt: &HostRuntime, number: u32) -> io::Result<()> {
        let turns = i64::from(number);
        match self {
            Work::Loop => time_statements(rt, "the loop", Decrements(turns)),
            Work::Array => time_arrays(rt, number),
            Work::Native => time_native(rt, turns),
            Work::Natives => time_natives(rt, turns),
            Work::Item => time_items(rt, turns),
            Work::Increase => time_increases(rt, turns, false),
            Work::IncreaseTwice => time_increases(rt, turns, true),
            Work::Fib => time(rt, "the function", WithFunctions(Fibonacci(turns))),
            Work::Range => time_statements(rt, "the range", RangeSummed(turns)),
            Work::Walk => time_walks(rt, turns),
            Work::Switch => time_statements(rt, "the choices", ChoicesInTurn(turns)),
            Work::Throw => time_statements(rt, "the throws", ThrowsInTurn(turns)),
        }
    }
}

fn time_arrays(rt: &HostRuntime, length: u32) -> io::Result<()> {
    time_statements(rt, "the array", ManyItems(length))?;
    let twice = ManyItems(length.saturating_mul(2));
    time_statements(rt, "one of twice the length", twice)
}

fn time_native(rt: &HostRuntime, calls: i64) -> io::Result<()> {
    time_statements(rt, "one argument", Doublings(calls))
}

fn time_natives(rt: &HostRuntime, calls: i64) -> io::Result<()> {
    time_native(rt, calls)?;
    time_statements(rt, "two arguments", Pairings(calls))
}

fn time_items(rt: &HostRuntime, turns: i64) -> io::Result<()> {
    time_statements(rt, "a thousand items", Increments(1_000, turns))?;
    let items = Increments(100_000, turns);
    time_statements(rt, "a hundred thousand items", items)
}

fn time_increases(rt: &HostRuntime, turns: i64, is_twice: bool) -> io::Result<()> {
    time_statements(rt, "the increases", FirstItemIncreased(turns, is_twice))
}

fn time_walks(rt: &HostRuntime, turns: i64) -> io::Result<()> {
    time_statements(rt, "a thousand items", ArraySummed(1_000, turns / 1_000))?;
    let items = ArraySummed(100_000, turns / 100_000);
    time_statements(rt, "a hundred thousand items", items)
}

fn time_statements(rt: &HostRuntime, what: &str, made: MadeStatements) -> io::Result<()> {
    time(rt, what, Statements(made))
}

/// Times the script of a tree.
fn time(rt: &HostRuntime, what: &str, tree: Tree) -> io::Result<()> {
    let script = Sample(tree, Usual).script(rt.alloc())?;
    time_run(rt, what, script, Way::USUAL)
}
