//! Calls of natives by their names, keywords and pointers.

use crate::rows::{Row, scripts_in};
use crate::sample::Sample;
use crate::sample::Tree::Parts;
use crate::settings::Setting::{Usual, WithoutFastOperators};
use rhai_samples::calls::{
    BREAK_AT_THE_TOP, CALL_OF_EVAL, CONSTANT_PASSED, COUNTED_TWICE, CURRIED_POINTER_CALLED,
    POINTER_CALLED, POINTER_OF_NO_NAME, TYPE_OF_INTEGER, UNKNOWN_FUNCTION, VARIABLE_PASSED,
};
use rhai_samples::operators::SUM;

/// The scripts of this file, by the numbers of their rows.
const ROWS: &[Row] = &[
    Row("24", REFUSED_BY_THE_CHECKER),
    Row("31", NATIVES),
    Row("32", POINTERS_AND_NAMES),
];

/// Statements that the checker refuses.
const REFUSED_BY_THE_CHECKER: &[Sample] = &[
    Sample(Parts(BREAK_AT_THE_TOP), Usual),
    Sample(Parts(CALL_OF_EVAL), Usual),
];

/// Natives that change their first argument, or the table.
const NATIVES: &[Sample] = &[
    Sample(Parts(VARIABLE_PASSED), Usual),
    Sample(Parts(CONSTANT_PASSED), Usual),
    Sample(Parts(COUNTED_TWICE), Usual),
];

/// Pointers that are made and called, what is no function's name, and a sum without fast operators.
const POINTERS_AND_NAMES: &[Sample] = &[
    Sample(Parts(POINTER_CALLED), Usual),
    Sample(Parts(CURRIED_POINTER_CALLED), Usual),
    Sample(Parts(TYPE_OF_INTEGER), Usual),
    Sample(Parts(POINTER_OF_NO_NAME), Usual),
    Sample(Parts(UNKNOWN_FUNCTION), Usual),
    Sample(Parts(SUM), WithoutFastOperators),
];

/// Finds the scripts of a row of this file, None where it has no such row.
pub(super) fn scripts_of(row: &str) -> Option<&'static [Sample]> {
    scripts_in(ROWS, row)
}
