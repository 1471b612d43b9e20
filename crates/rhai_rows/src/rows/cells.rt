//! Closures, and the cells that they share with variables.

use crate::rows::{Row, scripts_in};
use crate::sample::MadeTree::ClosureOnItsVariable;
use crate::sample::Sample;
use crate::sample::Tree::{Parts, WithFunctions};
use crate::settings::Setting::Usual;
use rhai_samples::cells::{CLOSURE_CALLED_TWICE, ITEM_ASSIGNED_IN_A_CLOSURE};

/// The scripts of this file, by the numbers of their rows.
const ROWS: &[Row] = &[Row("13", CLOSURES), Row("42", RACE_IN_A_CHAIN)];

/// A closure that changes a variable, and one that is called on the variable which it shares.
const CLOSURES: &[Sample] = &[
    Sample(Parts(CLOSURE_CALLED_TWICE), Usual),
    Sample(WithFunctions(ClosureOnItsVariable), Usual),
];

/// A closure that a chain calls on an item of the array which it assigns to.
const RACE_IN_A_CHAIN: &[Sample] = &[Sample(Parts(ITEM_ASSIGNED_IN_A_CLOSURE), Usual)];

/// Finds the scripts of a row of this file, None where it has no such row.
pub(super) fn scripts_of(row: &str) -> Option<&'static [Sample]> {
    scripts_in(ROWS, row)
}
