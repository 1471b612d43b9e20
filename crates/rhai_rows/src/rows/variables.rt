//! Variables and blocks.

use crate::rows::{Row, scripts_in};
use crate::sample::MadeStatements::AssignmentToConstant;
use crate::sample::Sample;
use crate::sample::Tree::{Parts, Statements};
use crate::settings::Setting::{MaxOperations, Usual};
use rhai_samples::variables::{BLOCK_AND_BRANCH, HIDDEN_IN_A_BLOCK};

/// The scripts of this file, by the numbers of their rows.
const ROWS: &[Row] = &[
    Row("20", HIDDEN_AND_CONSTANT),
    Row("26", BLOCKS_UNDER_LIMITS),
];

/// A variable that a block hides, and a constant that is assigned to.
const HIDDEN_AND_CONSTANT: &[Sample] = &[
    Sample(Parts(HIDDEN_IN_A_BLOCK), Usual),
    Sample(Statements(AssignmentToConstant), Usual),
];

/// A block that hides a variable, and an `if` after it: twelve operations are one too few.
const BLOCKS_UNDER_LIMITS: &[Sample] = &[
    Sample(Parts(BLOCK_AND_BRANCH), Usual),
    Sample(Parts(BLOCK_AND_BRANCH), MaxOperations(12)),
];

/// Finds the scripts of a row of this file, None where it has no such row.
pub(super) fn scripts_of(row: &str) -> Option<&'static [Sample]> {
    scripts_in(ROWS, row)
}
