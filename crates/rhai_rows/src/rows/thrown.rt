//! What is thrown, and not caught.

use crate::rows::{Row, scripts_in};
use crate::sample::Sample;
use crate::sample::Tree::Parts;
use crate::settings::Setting::Usual;
use rhai_samples::caught::{THROWN_AT_THE_TOP, THROWN_IN_A_WALK};
use rhai_samples::thrown::THROWN_OUT_OF_A_FUNCTION;

/// The scripts of this file, by the number of their row.
const ROWS: &[Row] = &[Row("21", THROWN_OUT)];

/// What is thrown out of a function, at the top, and out of a `for`.
const THROWN_OUT: &[Sample] = &[
    Sample(Parts(THROWN_OUT_OF_A_FUNCTION), Usual),
    Sample(Parts(THROWN_AT_THE_TOP), Usual),
    Sample(Parts(THROWN_IN_A_WALK), Usual),
];

/// Finds the scripts of a row of this file, None where it has no such row.
pub(super) fn scripts_of(row: &str) -> Option<&'static [Sample]> {
    scripts_in(ROWS, row)
}
