//! Loops, and what ends them early.

use crate::rows::{Row, scripts_in};
use crate::sample::MadeStatements::{
    ContinuedUntil, IntegerAndTrue, ReturnAtTheTop, TrueOrInteger, ValueOfALoop,
};
use crate::sample::Sample;
use crate::sample::Tree::{Parts, Statements};
use crate::settings::Setting::{MaxOperations, Usual};
use rhai_samples::loops::THREE_TURNS;

/// The scripts of this file, by the numbers of their rows.
const ROWS: &[Row] = &[
    Row("11", CONTINUED),
    Row("28", TURNS_UNDER_LIMITS),
    Row("29", LEFT_EARLY),
];

/// A `continue` that starts the next turn without a test of the condition.
const CONTINUED: &[Sample] = &[Sample(Statements(ContinuedUntil), Usual)];

/// Three turns: twenty-five operations are one too few.
const TURNS_UNDER_LIMITS: &[Sample] = &[
    Sample(Parts(THREE_TURNS), Usual),
    Sample(Parts(THREE_TURNS), MaxOperations(25)),
];

/// A loop's value, a `return` at the top, and operands that are not reached or of a wrong type.
const LEFT_EARLY: &[Sample] = &[
    Sample(Statements(ValueOfALoop), Usual),
    Sample(Statements(ReturnAtTheTop), Usual),
    Sample(Statements(TrueOrInteger), Usual),
    Sample(Statements(IntegerAndTrue), Usual),
];

/// Finds the scripts of a row of this file, None where it has no such row.
pub(super) fn scripts_of(row: &str) -> Option<&'static [Sample]> {
    scripts_in(ROWS, row)
}
