//! Modules that are imported, and the constants of a script behind `global`.

use crate::rows::{Row, scripts_in};
use crate::sample::Sample;
use crate::sample::Tree::Parts;
use crate::settings::Setting::{MaxModules, Usual, WithModules};
use rhai_samples::constants::CONSTANT_OF_THE_SCRIPT;
use rhai_samples::imports::{IMPORTED, TRIED_AFTER_A_BLOCK, TRIED_BEFORE_A_BLOCK, UNMARKED_CALLED};
use rhai_samples::paths::{
    IMPORTED_TWICE, READ_AFTER_A_BLOCK, UNKNOWN_VALUE, VALUE_AND_FUNCTION, VALUE_WITHIN,
};

/// The scripts of this file, by the numbers of their rows.
const ROWS: &[Row] = &[Row("39", MODULES), Row("40", FOUND_IN_A_BLOCK)];

/// A constant and a function of a module, and a constant of a module within it; functions without its path; a
/// name that it does not have; a module after its block; one too many; and a constant of the script.
const MODULES: &[Sample] = &[
    Sample(Parts(VALUE_AND_FUNCTION), WithModules),
    Sample(Parts(VALUE_WITHIN), WithModules),
    Sample(Parts(IMPORTED), WithModules),
    Sample(Parts(UNMARKED_CALLED), WithModules),
    Sample(Parts(UNKNOWN_VALUE), WithModules),
    Sample(Parts(READ_AFTER_A_BLOCK), WithModules),
    Sample(Parts(IMPORTED_TWICE), MaxModules(1)),
    Sample(Parts(CONSTANT_OF_THE_SCRIPT), Usual),
];

/// A function that is found in a block alone, behind its import, and looked for before the block or after it.
const FOUND_IN_A_BLOCK: &[Sample] = &[
    Sample(Parts(TRIED_BEFORE_A_BLOCK), WithModules),
    Sample(Parts(TRIED_AFTER_A_BLOCK), WithModules),
];

/// Finds the scripts of a row of this file, None where it has no such row.
pub(super) fn scripts_of(row: &str) -> Option<&'static [Sample]> {
    scripts_in(ROWS, row)
}
