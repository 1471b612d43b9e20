//! `for`, over ranges, arrays and texts.

use crate::rows::{Row, scripts_in};
use crate::sample::MadeStatements::{IntegerWalked, ItemsAndCounterSummed, RangeAfterACase};
use crate::sample::Sample;
use crate::sample::Tree::{Parts, Statements};
use crate::settings::Setting::Usual;
use rhai_samples::walks::{ARRAY_EMPTIED_IN_ITS_WALK, EMPTY_RANGE_WALKED, TEXT_REVERSED};

/// The scripts of this file, by the numbers of their rows.
const ROWS: &[Row] = &[Row("19", ITEMS), Row("38", ENDS_OF_WALKS)];

/// Items with their counter, and an array that is emptied while it is gone over.
const ITEMS: &[Sample] = &[
    Sample(Statements(ItemsAndCounterSummed), Usual),
    Sample(Parts(ARRAY_EMPTIED_IN_ITS_WALK), Usual),
];

/// A text, a range without items, and what has none; and a range that is chosen after a case was not.
const ENDS_OF_WALKS: &[Sample] = &[
    Sample(Parts(TEXT_REVERSED), Usual),
    Sample(Parts(EMPTY_RANGE_WALKED), Usual),
    Sample(Statements(IntegerWalked), Usual),
    Sample(Statements(RangeAfterACase), Usual),
];

/// Finds the scripts of a row of this file, None where it has no such row.
pub(super) fn scripts_of(row: &str) -> Option<&'static [Sample]> {
    scripts_in(ROWS, row)
}
