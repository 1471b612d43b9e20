//! Scripts of rows and of lists, and what they come to.

use crate::lists::{Listed, find};
use rhai_eval_base::base::{AccessMode, Dynamic, Scope, Union};
use rhai_rows::attempt::Attempt;
use rhai_rows::entry::Entry;
use rhai_rows::linked_pointer::scope_for;
use rhai_rows::outcomes::write_outcome;
use rhai_rows::rows::scripts_of;
use rhai_rows::runner::Runner;
use rhai_rows::sample::{Sample, Script};
use rhai_rows::settings::Way;
use rhai_tables::host::Pair;
use std::alloc::{AllocError, Global};
use std::io;
use std::io::Write;

/// Where a script comes from.
#[derive(Clone, Copy)]
pub enum Source<'a> {
    Row(Sample),
    /// One of a row, under the greatest limits where it sets none.
    WideRow(Sample),
    List(Listed<'a>),
    /// One of a list, under the greatest limits where it sets none.
    WideList(Listed<'a>),
}

impl<'a> Source<'a> {
    /// Returns the same script under the greatest limits where it sets none.
    pub fn widened(self) -> Source<'a> {
        match self {
            Source::Row(sample) => Source::WideRow(sample),
            Source::List(listed) => Source::WideList(listed),
            Source::WideRow(_) | Source::WideList(_) => self,
        }
    }

    /// Tells whether it is the script of a row with the row's own limits.
    fn is_of_row(self) -> bool {
        matches!(self, Source::Row(_))
    }

    /// Makes the script, or says that memory ran out.
    pub fn script(self, alloc: Global) -> Result<Script, AllocError> {
        match self {
            Source::Row(sample) => sample.script(alloc),
            Source::List(listed) => listed.script(alloc),
            Source::WideRow(sample) => Ok(widened(sample.script(alloc)?)),
            Source::WideList(listed) => Ok(widened(listed.script(alloc)?)),
        }
    }
}

/// Returns a script under the greatest limits where it sets none.
fn widened(script: Script) -> Script {
    let mut script = script;
    script.settings = script.settings.widened();
    script
}

/// Finds the script with a number in a row or a list, counted from 1.
pub fn script_named<'a>(lists: &[Listed<'a>], list: &str, number: &str) -> Option<Source<'a>> {
    let number: usize = number.parse().unwrap_or(0);
    match scripts_of(list) {
        Some(row) => row
            .get(number.checked_sub(1)?)
            .map(|sample| Source::Row(*sample)),
        None => find(lists, list, number).map(|listed| Source::List(listed)),
    }
}

/// Counts the scripts of a row or a list, None where none has the name.
pub fn count_of(lists: &[Listed<'_>], list: &str) -> Option<usize> {
    match scripts_of(list) {
        Some(row) => Some(row.len()),
        None => {
            let scripts = lists.iter().filter(|script| script.list == list);
            match scripts.count() {
                0 => None,
                count => Some(count),
            }
        }
    }
}

/// Writes what a script of a list comes to in every way of running, above so many other variables, and one of a row
/// under the greatest limits too. Where two of them differ both are written.
pub fn write_ways<R: Runner>(
    alloc: Global,
    others: usize,
    form: &str,
    list: &str,
    source: Source<'_>,
    out: &mut Vec<u8>,
) -> io::Result<()> {
    write_way::<R>(alloc, others, form, list, source, Way::USUAL, out)?;
    for way in Way::ALL {
        write_other::<R>(alloc, others, form, list, source, way, out)?;
        if source.is_of_row() {
            write_other::<R>(alloc, others, form, list, source.widened(), way, out)?;
        }
    }
    Ok(())
}

/// Writes what a script comes to in one of the ways, where that is not what is written already.
fn write_other<R: Runner>(
    alloc: Global,
    others: usize,
    form: &str,
    list: &str,
    source: Source<'_>,
    way: Way,
    out: &mut Vec<u8>,
) -> io::Result<()> {
    let mut other = Vec::new(alloc);
    write_way::<R>(alloc, others, form, list, source, way, &mut other)?;
    if other.as_slice() != out.as_slice() {
        write!(out, " or ")?;
        out.write_all(other.as_slice())?;
    }
    Ok(())
}

/// Writes what a script of a list comes to in one of the ways.
fn write_way<R: Runner>(
    alloc: Global,
    others: usize,
    form: &str,
    list: &str,
    source: Source<'_>,
    way: Way,
    out: &mut Vec<u8>,
) -> io::Result<()> {
    let script = source.script(alloc)?;
    let scope = scope_of(alloc, others, list)?;
    let (outcome, form) = match Entry::named(form) {
        Some(entry) => (
            R::enter(alloc, entry, script, way, scope, &mut Attempt::GRANTED)?,
            "all",
        ),
        None => (R::run_above(alloc, script, way, scope)?, form),
    };
    let wrote = write_outcome(alloc, others, form, &outcome, out);
    drop(outcome);
    wrote
}

/// Makes the variables of a list, and so many others, `x0` and so on, each with its number.
fn scope_of(alloc: Global, others: usize, list: &str) -> Result<Scope<Pair>, AllocError> {
    let mut scope = scope_for(alloc, list)?;
    for number in 0..others {
        push_numbered(alloc, &mut scope, number)?;
    }
    Ok(scope)
}

fn push_numbered(alloc: Global, scope: &mut Scope<Pair>, number: usize) -> Result<(), AllocError> {
    let name = format!(in alloc; "x{number}")?;
    let value = Dynamic::new(Union::Int(i64::try_from(number).unwrap_or(i64::MAX)));
    scope.push_entry(name, AccessMode::ReadWrite, value)
}
