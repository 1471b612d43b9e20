//! The rows: scripts under a number, run one after the other.

use crate::sample::Sample;

mod calls;
mod caught;
mod cells;
mod chains;
mod checked;
mod choices;
mod data;
mod functions;
mod limits;
mod loops;
mod modules;
mod odd;
mod operators;
mod pairs;
mod slices;
mod thrown;
mod variables;
mod walks;

/// Scripts under a name, which of a row is its number.
#[derive(Clone, Copy)]
pub struct Row(pub &'static str, pub &'static [Sample]);

/// Finds the scripts of a row in their order, None where no row has the number. A number is written in
/// decimal digits, without zeros in front.
pub fn scripts_of(row: &str) -> Option<&'static [Sample]> {
    first_found(&[
        calls::scripts_of(row),
        caught::scripts_of(row),
        cells::scripts_of(row),
        chains::scripts_of(row),
        checked::scripts_of(row),
        choices::scripts_of(row),
        data::scripts_of(row),
        functions::scripts_of(row),
        limits::scripts_of(row),
        loops::scripts_of(row),
        modules::scripts_of(row),
        odd::scripts_of(row),
        operators::scripts_of(row),
        pairs::scripts_of(row),
        slices::scripts_of(row),
        thrown::scripts_of(row),
        variables::scripts_of(row),
        walks::scripts_of(row),
    ])
}

/// Picks the first scripts that were found.
pub fn first_found(found: &[Option<&'static [Sample]>]) -> Option<&'static [Sample]> {
    for scripts in found {
        if scripts.is_some() {
            return *scripts;
        }
    }
    None
}

/// Finds the scripts that stand under a name in a list.
pub fn scripts_in(rows: &'static [Row], name: &str) -> Option<&'static [Sample]> {
    for row in rows {
        if row.0 == name {
            return Some(row.1);
        }
    }
    None
}
