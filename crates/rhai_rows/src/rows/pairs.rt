//! Pairs, whose properties and items are natives.

use crate::rows::{Row, scripts_in};
use crate::sample::Sample;
use crate::sample::Tree::Parts;
use crate::settings::Setting::Usual;
use rhai_samples::pairs::{
    BOTH_NUMBERS_INCREASED, ITEM_OF_THE_LIST_ASSIGNED, ITEM_OF_THE_VIEW_ASSIGNED,
    METHOD_ON_A_CONSTANT, NUMBER_ASSIGNED, NUMBER_THAT_IS_REFUSED, PAIR_IN_A_MAP_ASSIGNED,
    PROPERTY_INCREASED, PROPERTY_OF_A_CONSTANT, PROPERTY_WITHOUT_A_SETTER,
    UNKNOWN_METHOD_ON_A_CONSTANT,
};

/// The scripts of this file, by the numbers of their rows.
const ROWS: &[Row] = &[Row("33", PAIRS_ASSIGNED), Row("34", REFUSED_BY_NATIVES)];

/// Properties and numbers of a pair that are assigned to.
const PAIRS_ASSIGNED: &[Sample] = &[
    Sample(Parts(PROPERTY_INCREASED), Usual),
    Sample(Parts(NUMBER_ASSIGNED), Usual),
    Sample(Parts(ITEM_OF_THE_LIST_ASSIGNED), Usual),
    Sample(Parts(ITEM_OF_THE_VIEW_ASSIGNED), Usual),
    Sample(Parts(BOTH_NUMBERS_INCREASED), Usual),
    Sample(Parts(PAIR_IN_A_MAP_ASSIGNED), Usual),
];

/// What natives refuse, and what is refused them since a value is constant.
const REFUSED_BY_NATIVES: &[Sample] = &[
    Sample(Parts(PROPERTY_WITHOUT_A_SETTER), Usual),
    Sample(Parts(NUMBER_THAT_IS_REFUSED), Usual),
    Sample(Parts(PROPERTY_OF_A_CONSTANT), Usual),
    Sample(Parts(METHOD_ON_A_CONSTANT), Usual),
    Sample(Parts(UNKNOWN_METHOD_ON_A_CONSTANT), Usual),
];

/// Finds the scripts of a row of this file, None where it has no such row.
pub(super) fn scripts_of(row: &str) -> Option<&'static [Sample]> {
    scripts_in(ROWS, row)
}
