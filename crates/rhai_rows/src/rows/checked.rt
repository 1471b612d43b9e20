//! What the checker looks at.

use crate::rows::{Row, scripts_in};
use crate::sample::Sample;
use crate::sample::Tree::Parts;
use crate::settings::Setting::{MaxCallLevels, MaxVariables, Usual};
use rhai_samples::checked::{OFFSET_OF_A_HIDDEN_VARIABLE, OFFSET_OF_NO_VARIABLE};
use rhai_samples::functions::CALLS_WITHOUT_END;
use rhai_samples::imports::UNKNOWN_IMPORTED;
use rhai_samples::walks::WALK_WITH_A_COUNTER;

/// The scripts of this file, by the number of their row.
const ROWS: &[Row] = &[Row("16", OFFSETS_AND_LIMITS)];

/// Offsets that are not the variable's, calls that are too deep, too many variables, and a module that is not
/// there.
const OFFSETS_AND_LIMITS: &[Sample] = &[
    Sample(Parts(OFFSET_OF_NO_VARIABLE), Usual),
    Sample(Parts(OFFSET_OF_A_HIDDEN_VARIABLE), Usual),
    Sample(Parts(CALLS_WITHOUT_END), MaxCallLevels(3)),
    Sample(Parts(WALK_WITH_A_COUNTER), MaxVariables(0)),
    Sample(Parts(UNKNOWN_IMPORTED), Usual),
];

/// Finds the scripts of a row of this file, None where it has no such row.
pub(super) fn scripts_of(row: &str) -> Option<&'static [Sample]> {
    scripts_in(ROWS, row)
}
