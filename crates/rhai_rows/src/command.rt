//! The work of the program `tree_run`, over any writer.

ghost use Rattle.std.specs.Prelude.{◌≡◌, ◌≤◌, IfOk, is_some, false, map, string_bytes};
ghost use Rattle.rhai_rows.specs.Arguments.{IsCall};

use crate::linked_pointer::scope_for;
use crate::outcome::Ending;
use crate::print::write_line;
use crate::rows::scripts_of;
use crate::runner::Runner;
use crate::sample::Sample;
use crate::settings::Way;
use rhai_eval_base::base::{Dynamic, Shared, Text, Union};
use rhai_samples::built::private_function;
use rhai_tables::host::Pair;
use std::alloc::{AllocError, Global};
use std::io;
use std::io::Write;

/// The status of a wrong argument.
pub const WRONG_ARGUMENTS: u8 = 3;

/// The status where a line could not be written, or the bench found no memory.
pub const NOT_WRITTEN: u8 = 4;

/// Runs what the arguments ask for, without arguments the first row, and prints a line for each script.
/// Answers the exit status: that of the last script, or of wrong arguments, of a line that could not be
/// written, or of memory that ran out.
pub fn run<R: Runner, W: Write>(alloc: Global, args: &[String], out: &mut W) -> u8
    ensures status { result ≤ 4 }
    ensures wrong { ¬ IsCall (map string_bytes args.now) → 3 ≤ result }
{
    run_arguments::<R, W>(alloc, args, out).unwrap_or(NOT_WRITTEN)
}

fn run_arguments<R: Runner, W: Write>(alloc: Global, args: &[String], out: &mut W) -> io::Result<u8>
    ensures status { IfOk result (λ s. s ≤ 3) }
    ensures wrong { ¬ IsCall (map string_bytes args.now) → IfOk result (λ s. s ≡ 3) }
{
    match row_asked(args) {
        Some(row) => run_row::<R, W>(alloc, row, out),
        None => print_usage(out),
    }
}

/// Finds the row that the arguments ask for, without arguments the first. None for wrong arguments.
fn row_asked(args: &[String]) -> Option<&str>
    ensures { ¬ IsCall (map string_bytes args.now) → is_some result ≡ false }
{
    match args {
        [] => Some("1"),
        [word, row] if word.as_str() == "row" => Some(row.as_str()),
        _ => None,
    }
}

/// Runs a row: its scripts, or where it has none shows a function. A row that is not there is a wrong
/// argument.
fn run_row<R: Runner, W: Write>(alloc: Global, row: &str, out: &mut W) -> io::Result<u8>
    ensures { IfOk result (λ s. s ≤ 3) }
{
    if row == "25" {
        return show_function(alloc, out);
    }
    match scripts_of(row) {
        Some(scripts) => run_scripts::<R, W>(alloc, row, scripts, out),
        None => print_usage(out),
    }
}

/// Prints the line of a function's text.
fn show_function<W: Write>(alloc: Global, out: &mut W) -> io::Result<u8>
    ensures { IfOk result (λ s. s ≤ 2) }
{
    let ending = Ending::Value(function_text(alloc)?);
    let wrote = write_line(alloc, &ending, out);
    let status = ending.status();
    drop(ending);
    wrote.map(|()| status)
}

/// Makes the text of a function, as its own `Display` writes it.
fn function_text(alloc: Global) -> Result<Dynamic<Pair>, AllocError> {
    let function = private_function(alloc)?;
    let text = format!(in alloc; "{function}");
    drop(function);
    let text = Shared::new(alloc, Text::from_string(text?))?;
    Ok(Dynamic::new(Union::Str(text)))
}

fn run_scripts<R: Runner, W: Write>(
    alloc: Global,
    row: &str,
    scripts: &[Sample],
    out: &mut W,
) -> io::Result<u8>
    ensures { IfOk result (λ s. s ≤ 2) }
{
    let mut status = 0;
    for script in scripts {
        status = run_script::<R, W>(alloc, row, *script, out)?;
    }
    Ok(status)
}

fn run_script<R: Runner, W: Write>(
    alloc: Global,
    row: &str,
    script: Sample,
    out: &mut W,
) -> io::Result<u8>
    ensures { IfOk result (λ s. s ≤ 2) }
{
    let scope = scope_for(alloc, row)?;
    let outcome = R::run_above(alloc, script.script(alloc)?, Way::USUAL, scope)?;
    let wrote = write_line(alloc, &outcome.ending, out);
    let status = outcome.ending.status();
    drop(outcome);
    wrote.map(|()| status)
}

/// Prints how the program is called, and answers the status of wrong arguments.
pub fn print_usage<W: Write>(out: &mut W) -> io::Result<u8>
    ensures { IfOk result (λ s. s ≡ 3) }
{
    writeln!(out, "usage: tree_run row N")?;
    Ok(WRONG_ARGUMENTS)
}
