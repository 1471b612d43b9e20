//! Functions of scripts: how they are called, and what a call leaves.

use crate::rows::{Row, scripts_in};
use crate::sample::MadeTree::{
    CallsWithinCalls, Fibonacci, FunctionsForTypes, VariableOfTheCallerIncreased,
};
use crate::sample::Sample;
use crate::sample::Tree::{Parts, WithFunctions};
use crate::settings::Setting::{MaxCallLevels, Usual};
use rhai_samples::functions::{EMPTY_FUNCTION, METHOD_THAT_CHANGES_AN_ITEM, PARAMETER_ASSIGNED};

/// The scripts of this file, by the numbers of their rows.
const ROWS: &[Row] = &[
    Row("3", CALLED_BY_ITSELF),
    Row("35", CHANGES),
    Row("36", FOUND_AND_TOO_DEEP),
];

/// A function that calls itself twice, with 28.
const CALLED_BY_ITSELF: &[Sample] = &[Sample(WithFunctions(Fibonacci(28)), Usual)];

/// What a method changes of an item, a function of its argument, and one on its caller's variables of them;
/// and a body without statements.
const CHANGES: &[Sample] = &[
    Sample(Parts(METHOD_THAT_CHANGES_AN_ITEM), Usual),
    Sample(Parts(PARAMETER_ASSIGNED), Usual),
    Sample(WithFunctions(VariableOfTheCallerIncreased), Usual),
    Sample(Parts(EMPTY_FUNCTION), Usual),
];

/// Calls three deep, and four where three are allowed; and functions that are for the type of their `this`.
const FOUND_AND_TOO_DEEP: &[Sample] = &[
    Sample(WithFunctions(CallsWithinCalls(2)), MaxCallLevels(3)),
    Sample(WithFunctions(CallsWithinCalls(3)), MaxCallLevels(3)),
    Sample(WithFunctions(FunctionsForTypes), Usual),
];

/// Finds the scripts of a row of this file, None where it has no such row.
pub(super) fn scripts_of(row: &str) -> Option<&'static [Sample]> {
    scripts_in(ROWS, row)
}
