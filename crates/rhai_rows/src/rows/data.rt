//! Data that is made of the values of expressions.

use crate::rows::{Row, scripts_in};
use crate::sample::MadeStatements::{ItemsOfThreeTypes, JoinedParts};
use crate::sample::Sample;
use crate::sample::Tree::{Parts, Statements};
use crate::settings::Setting::{MaxArraySize, Usual};
use rhai_samples::data::{GREATEST_AND_ONE, THREE_ITEMS};

/// The scripts of this file, by the numbers of their rows.
const ROWS: &[Row] = &[Row("22", TOO_LARGE), Row("30", JOINED_AND_GATHERED)];

/// An array and a number that are larger than they may be.
const TOO_LARGE: &[Sample] = &[
    Sample(Parts(THREE_ITEMS), MaxArraySize(2)),
    Sample(Parts(GREATEST_AND_ONE), Usual),
];

/// A text that is joined of parts, and an array of an integer, a text and a map.
const JOINED_AND_GATHERED: &[Sample] = &[
    Sample(Statements(JoinedParts), Usual),
    Sample(Statements(ItemsOfThreeTypes), Usual),
];

/// Finds the scripts of a row of this file, None where it has no such row.
pub(super) fn scripts_of(row: &str) -> Option<&'static [Sample]> {
    scripts_in(ROWS, row)
}
