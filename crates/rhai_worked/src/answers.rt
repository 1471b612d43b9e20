//! What the calls of worked lines answer about scripts.

use crate::keeps::write_kept;
use crate::lists::{Listed, read};
use crate::scripts::{count_of, script_named, write_ways};
use rhai_rows::runner::Runner;
use std::alloc::Global;
use std::io;
use std::io::Write;

/// Writes the answer of a call about a script of a row or of a list:
///
/// - `scripts LIST`: how many scripts a list has
/// - `ends LIST N`, `charges LIST N`, `counts LIST N`, `leaves LIST N`, `says LIST N`: the line of a script of a list,
///   counted from 1, its operations, what natives counted, its variables, and what its error says beside its position
/// - `fixes LIST N`, `shares LIST N`, `exports LIST N`, `reads LIST N`: the names of its constants, the
///   values of its cells, its variables with their aliases, and its error as a user reads it
/// - `loads LIST N`, `imports LIST N`: how many modules it loads, and the names of the imports that it leaves
/// - `eval_expr LIST N` and so on: what that public call comes to, entered with the script's last statement
///   behind the others (`rhai_rows::entry`), with its operations, and the variables and the `this` that it leaves
/// - `above ends LIST N` and so on: what is answered above a scope of 300 other variables
/// - `wide ends LIST N` and so on: what is answered under the greatest limits where the script sets none
/// - `keeps LIST N` and so on: what is left in the caches (`crate::keeps`)
pub fn write_answer<R: Runner>(
    alloc: Global,
    lists: &[Listed<'_>],
    call: &str,
    out: &mut Vec<u8>,
) -> io::Result<()> {
    let (form, rest) = call.split_once(' ').unwrap_or((call, ""));
    match form {
        "scripts" => write_number(count_of(lists, rest), out),
        "keeps" | "behind" | "within" | "stacked" | "by" => write_kept::<R>(
            alloc, lists, call, out,
        ),
        "above" => {
            let (form, rest) = rest.split_once(' ').unwrap_or((rest, ""));
            write_one::<R>(alloc, lists, 300, false, form, rest, out)
        }
        "wide" => {
            let (form, rest) = rest.split_once(' ').unwrap_or((rest, ""));
            write_one::<R>(alloc, lists, 0, true, form, rest, out)
        }
        _ => write_one::<R>(alloc, lists, 0, false, form, rest, out),
    }
}

/// Writes how many scripts a list has.
fn write_number(count: Option<usize>, out: &mut Vec<u8>) -> io::Result<()> {
    match count {
        Some(count) => write!(out, "{count}"),
        None => write!(out, "no list"),
    }
}

/// Writes what a script, as `26 1`, comes to above so many other variables, or under the greatest limits.
fn write_one<R: Runner>(
    alloc: Global,
    lists: &[Listed<'_>],
    others: usize,
    is_wide: bool,
    form: &str,
    name: &str,
    out: &mut Vec<u8>,
) -> io::Result<()> {
    let (list, number) = name.split_once(' ').unwrap_or((name, ""));
    match script_named(lists, list, number) {
        Some(source) => {
            let source = if is_wide { source.widened() } else { source };
            write_ways::<R>(alloc, others, form, list, source, out)
        }
        None => write!(out, "no script"),
    }
}

/// Writes what is told of the lines of a file of lists, with `;` for the end of each. They stand between brackets,
/// with `: ` for ` = `.
pub fn write_faults(alloc: Global, lines: &str, out: &mut Vec<u8>) -> io::Result<()> {
    let mut text = String::new(alloc);
    for line in lines.split('[').skip(1) {
        let (line, _) = line.split_once(']').unwrap_or((line, ""));
        let (name, tree) = line.split_once(": ").unwrap_or((line, ""));
        writeln!(&mut text, "{name} = {tree}")?;
    }
    let mut told = Vec::new(alloc);
    let scripts = read(alloc, text.as_str(), &mut told)?;
    drop(scripts);
    for &byte in told.as_slice() {
        out.push(if byte == b'\n' { b';' } else { byte })?;
    }
    Ok(())
}
