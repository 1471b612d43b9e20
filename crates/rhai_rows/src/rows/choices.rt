//! `switch`.

use crate::rows::{Row, scripts_in};
use crate::sample::MadeStatements::TruthChosen;
use crate::sample::MadeTree::{IntegerChosen, TextChosen};
use crate::sample::Sample;
use crate::sample::Tree::{Parts, Statements, WithFunctions};
use crate::settings::Setting::Usual;
use rhai_samples::choices::CHARACTER_CHOSEN;

/// The scripts of this file, by the number of their row.
const ROWS: &[Row] = &[Row("12", CASES)];

/// Cases and ranges of integers, and cases of other types.
const CASES: &[Sample] = &[
    Sample(WithFunctions(IntegerChosen(1)), Usual),
    Sample(WithFunctions(IntegerChosen(5)), Usual),
    Sample(WithFunctions(IntegerChosen(7)), Usual),
    Sample(WithFunctions(IntegerChosen(8)), Usual),
    Sample(WithFunctions(IntegerChosen(10)), Usual),
    Sample(WithFunctions(IntegerChosen(11)), Usual),
    Sample(WithFunctions(TextChosen("hello")), Usual),
    Sample(WithFunctions(TextChosen("other")), Usual),
    Sample(Parts(CHARACTER_CHOSEN), Usual),
    Sample(Statements(TruthChosen), Usual),
];

/// Finds the scripts of a row of this file, None where it has no such row.
pub(super) fn scripts_of(row: &str) -> Option<&'static [Sample]> {
    scripts_in(ROWS, row)
}
