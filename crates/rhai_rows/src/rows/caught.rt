//! What is thrown, and what is caught.

use crate::rows::{Row, scripts_in};
use crate::sample::MadeStatements::ThrownValueCaught;
use crate::sample::MadeTree::MethodThatThrows;
use crate::sample::Sample;
use crate::sample::Tree::{Parts, Statements, WithFunctions};
use crate::settings::Setting::{FailingOnMissingKeys, MaxOperations, Usual};
use rhai_samples::caught::{
    BREAK_IN_A_TRY, ENDLESS_LOOP_TRIED, ENTRY_INCREASED_IN_A_TRY, MESSAGE_OF_WHAT_WAS_CAUGHT,
    POSITION_OF_WHAT_WAS_CAUGHT, THROWN_AGAIN, UNKNOWN_FUNCTION_TRIED_TWICE,
};
use rhai_samples::loops::EMPTY_LOOP;

/// The scripts of this file, by the numbers of their rows.
const ROWS: &[Row] = &[
    Row("2", ENDLESS),
    Row("8", KEY_INSERTED),
    Row("9", OBJECT_CHANGED),
    Row("10", THROWN_VALUES),
    Row("15", FOUND_BY_A_POINTER),
    Row("37", BREAKS_AND_CAUGHT_ERRORS),
];

/// A loop without an end, which the limit of operations ends, within a `try` too.
const ENDLESS: &[Sample] = &[
    Sample(Parts(EMPTY_LOOP), MaxOperations(10)),
    Sample(Parts(ENDLESS_LOOP_TRIED), MaxOperations(10)),
];

/// A key that was inserted before an operator failed.
const KEY_INSERTED: &[Sample] = &[Sample(Parts(ENTRY_INCREASED_IN_A_TRY), FailingOnMissingKeys)];

/// An item that a method has changed before it throws.
const OBJECT_CHANGED: &[Sample] = &[Sample(WithFunctions(MethodThatThrows), Usual)];

/// A value that is caught, and one that is thrown again.
const THROWN_VALUES: &[Sample] = &[
    Sample(Statements(ThrownValueCaught), Usual),
    Sample(Parts(THROWN_AGAIN), Usual),
];

/// A function that only a pointer's own library has, once it was not found.
const FOUND_BY_A_POINTER: &[Sample] = &[Sample(Parts(UNKNOWN_FUNCTION_TRIED_TWICE), Usual)];

/// A `break` out of a `try`, and what is told of an error that was caught.
const BREAKS_AND_CAUGHT_ERRORS: &[Sample] = &[
    Sample(Parts(BREAK_IN_A_TRY), Usual),
    Sample(Parts(POSITION_OF_WHAT_WAS_CAUGHT), Usual),
    Sample(Parts(MESSAGE_OF_WHAT_WAS_CAUGHT), Usual),
];

/// Finds the scripts of a row of this file, None where it has no such row.
pub(super) fn scripts_of(row: &str) -> Option<&'static [Sample]> {
    scripts_in(ROWS, row)
}
