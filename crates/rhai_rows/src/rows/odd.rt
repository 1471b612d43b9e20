//! Natives that a host may have all the same, over the table `Odd`.

use crate::rows::{Row, scripts_in};
use crate::sample::Sample;
use crate::sample::Tree::Parts;
use crate::settings::Setting::{WithOddNatives, WithOddNativesAndExits, WithOddOperators};
use rhai_samples::odd::{CHANGED_AND_FAILED, KEPT_POINTER_CALLED, LEFT_IN_A_TRY, ONE_AND_TWO};

/// The scripts of this file, by the number of their row.
const ROWS: &[Row] = &[Row("41", ODD_NATIVES)];

/// A native that changes its argument and fails, one that leaves the script, a sum that is a native's where operators
/// are natives first, and a pointer that the table keeps.
const ODD_NATIVES: &[Sample] = &[
    Sample(Parts(CHANGED_AND_FAILED), WithOddNatives),
    Sample(Parts(LEFT_IN_A_TRY), WithOddNatives),
    Sample(Parts(LEFT_IN_A_TRY), WithOddNativesAndExits),
    Sample(Parts(ONE_AND_TWO), WithOddNatives),
    Sample(Parts(ONE_AND_TWO), WithOddOperators),
    Sample(Parts(KEPT_POINTER_CALLED), WithOddNatives),
];

/// Finds the scripts of a row of this file, None where it has no such row.
pub(super) fn scripts_of(row: &str) -> Option<&'static [Sample]> {
    scripts_in(ROWS, row)
}
