//! Bits of integers, and slices of texts.

use crate::rows::{Row, scripts_in};
use crate::sample::Sample;
use crate::sample::Tree::Parts;
use crate::settings::Setting::Usual;
use rhai_samples::chains::{
    ALL_BITS, BIT, BITS_WITH_THE_LAST, HIGHEST_BITS, LAST_CHARACTER_ASSIGNED, LOWEST_BITS, SLICE,
    SLICE_FROM_BEFORE_THE_START, SLICE_OF_ONE, SLICE_PAST_THE_END,
};

/// The scripts of this file, by the numbers of their rows.
const ROWS: &[Row] = &[
    Row("5", BITS),
    Row("6", SLICES),
    Row("23", SLICES_PAST_THE_ENDS),
];

/// A bit of an integer, and fields of bits.
const BITS: &[Sample] = &[
    Sample(Parts(BIT), Usual),
    Sample(Parts(BITS_WITH_THE_LAST), Usual),
    Sample(Parts(LOWEST_BITS), Usual),
    Sample(Parts(HIGHEST_BITS), Usual),
    Sample(Parts(ALL_BITS), Usual),
];

/// Slices of a text, and its last character, which is assigned to.
const SLICES: &[Sample] = &[
    Sample(Parts(SLICE), Usual),
    Sample(Parts(SLICE_OF_ONE), Usual),
    Sample(Parts(LAST_CHARACTER_ASSIGNED), Usual),
];

/// Slices from before the start of a text, and past its end.
const SLICES_PAST_THE_ENDS: &[Sample] = &[
    Sample(Parts(SLICE_FROM_BEFORE_THE_START), Usual),
    Sample(Parts(SLICE_PAST_THE_END), Usual),
];

/// Finds the scripts of a row of this file, None where it has no such row.
pub(super) fn scripts_of(row: &str) -> Option<&'static [Sample]> {
    scripts_in(ROWS, row)
}
