//! Chains over arrays and maps.

use crate::rows::{Row, scripts_in};
use crate::sample::MadeStatements::{PropertyOfUnit, UnitOrInteger};
use crate::sample::Sample;
use crate::sample::Tree::{Parts, Statements};
use crate::settings::Setting::{MaxOperations, Usual};
use rhai_samples::chains::{
    ENTRY_OF_A_CONSTANT, INDEX_THAT_COUNTS, ITEM_PAST_THE_END, LAST_ITEM, MISSING_ENTRY, ONLY_ITEM,
    PROPERTY_OF_UNIT_ASSIGNED,
};

/// The scripts of this file, by the numbers of their rows.
const ROWS: &[Row] = &[
    Row("4", ITEMS),
    Row("7", VALUE_BEFORE_INDEX),
    Row("14", NEW_KEY_OF_A_CONSTANT),
    Row("17", ITEM_UNDER_A_LIMIT),
    Row("18", ABSENT),
];

/// The last item of an array, and one past its end.
const ITEMS: &[Sample] = &[
    Sample(Parts(LAST_ITEM), Usual),
    Sample(Parts(ITEM_PAST_THE_END), Usual),
];

/// A value that is evaluated before the index at which it is put.
const VALUE_BEFORE_INDEX: &[Sample] = &[Sample(Parts(INDEX_THAT_COUNTS), Usual)];

/// A new key of a constant.
const NEW_KEY_OF_A_CONSTANT: &[Sample] = &[Sample(Parts(ENTRY_OF_A_CONSTANT), Usual)];

/// An array's only item: seven operations are enough.
const ITEM_UNDER_A_LIMIT: &[Sample] = &[Sample(Parts(ONLY_ITEM), MaxOperations(7))];

/// What is not there: properties of `()`, a value that is `()`, and a missing key.
const ABSENT: &[Sample] = &[
    Sample(Statements(PropertyOfUnit), Usual),
    Sample(Parts(PROPERTY_OF_UNIT_ASSIGNED), Usual),
    Sample(Statements(UnitOrInteger), Usual),
    Sample(Parts(MISSING_ENTRY), Usual),
];

/// Finds the scripts of a row of this file, None where it has no such row.
pub(super) fn scripts_of(row: &str) -> Option<&'static [Sample]> {
    scripts_in(ROWS, row)
}
