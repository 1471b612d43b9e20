//! Operators, and what they refuse.

use crate::rows::{Row, scripts_in};
use crate::sample::Sample;
use crate::sample::Tree::Parts;
use crate::settings::Setting::{MaxOperations, Usual};
use rhai_samples::operators::{INTEGER_AS_CONDITION, SUM, SUM_OF_TWO_TYPES, SUM_WITH_UNKNOWN_NAME};

/// The scripts of this file, by the numbers of their rows.
const ROWS: &[Row] = &[Row("1", SUM_UNDER_LIMITS), Row("27", REFUSED_OPERANDS)];

/// The sum of two integers: three operations are too few, four are enough.
const SUM_UNDER_LIMITS: &[Sample] = &[
    Sample(Parts(SUM), MaxOperations(3)),
    Sample(Parts(SUM), MaxOperations(4)),
];

/// Operands and a condition of a wrong type, and a name that means nothing.
const REFUSED_OPERANDS: &[Sample] = &[
    Sample(Parts(SUM_OF_TWO_TYPES), Usual),
    Sample(Parts(SUM_WITH_UNKNOWN_NAME), Usual),
    Sample(Parts(INTEGER_AS_CONDITION), Usual),
];

/// Finds the scripts of a row of this file, None where it has no such row.
pub(super) fn scripts_of(row: &str) -> Option<&'static [Sample]> {
    scripts_in(ROWS, row)
}
