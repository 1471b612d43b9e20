//! Limits that are just met, and just not.

use crate::rows::{Row, scripts_in};
use crate::sample::Sample;
use crate::sample::Tree::Parts;
use crate::settings::Setting::{
    MaxArraySize, MaxCallLevels, MaxMapSize, MaxModules, MaxOperations, MaxStringSize,
    MaxVariables, Starting,
};
use crate::start::Start;
use rhai_samples::limits::{
    ONE, ONE_CALL, ONE_IMPORT, ONE_ITEM, ONE_VARIABLE, TWO_ENTRIES, TWO_ITEMS, TWO_LETTERS,
    TWO_PARAMETERS, TWO_VARIABLES,
};
use rhai_samples::walks::WALK_WITH_A_COUNTER;

/// The scripts of this file, by the numbers of their rows.
const ROWS: &[Row] = &[
    Row("43", OPERATIONS),
    Row("44", VARIABLES),
    Row("45", MODULES_LEVELS_AND_SIZES),
];

/// One operation, two, and a count that is the greatest before the run.
const OPERATIONS: &[Sample] = &[
    Sample(Parts(ONE), MaxOperations(1)),
    Sample(Parts(ONE), MaxOperations(2)),
    Sample(Parts(ONE), Starting(AT_THE_GREATEST_COUNT)),
];

const AT_THE_GREATEST_COUNT: Start = Start {
    num_operations: u64::MAX,
    ..Start::NOTHING
};

/// Variables of a scope, of a walk and of a function.
const VARIABLES: &[Sample] = &[
    Sample(Parts(ONE_VARIABLE), MaxVariables(0)),
    Sample(Parts(TWO_VARIABLES), MaxVariables(1)),
    Sample(Parts(WALK_WITH_A_COUNTER), MaxVariables(1)),
    Sample(Parts(WALK_WITH_A_COUNTER), MaxVariables(2)),
    Sample(Parts(TWO_PARAMETERS), MaxVariables(1)),
];

/// No module, no call, and data of the size one.
const MODULES_LEVELS_AND_SIZES: &[Sample] = &[
    Sample(Parts(ONE_IMPORT), MaxModules(0)),
    Sample(Parts(ONE_CALL), MaxCallLevels(0)),
    Sample(Parts(ONE_ITEM), MaxArraySize(1)),
    Sample(Parts(TWO_ITEMS), MaxArraySize(1)),
    Sample(Parts(TWO_ENTRIES), MaxMapSize(1)),
    Sample(Parts(TWO_LETTERS), MaxStringSize(1)),
];

/// Finds the scripts of a row of this file, None where it has no such row.
pub(super) fn scripts_of(row: &str) -> Option<&'static [Sample]> {
    scripts_in(ROWS, row)
}
