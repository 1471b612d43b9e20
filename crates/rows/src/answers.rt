//! What the calls of lines answer.

use rhai_bench::Bench;
use rhai_bench::roots::write_root;
use rhai_bench::searches::write_search;
use rhai_hosted::functions::write_call;
use rhai_hosted::handles::write_handled;
use rhai_rows::errors::write_shown;
use rhai_rows::signatures::write_told;
use rhai_rows::values::write_sample;
use rhai_worked::answers;
use rhai_worked::commands::{write_refusals, write_run};
use rhai_worked::lists::Listed;
use std::alloc::Global;
use std::io;
use std::io::Write;

/// Answers a call:
///
/// - `run [WORD] ..`: the lines of the program for the words, and its status
/// - `refuses [WORD] ..`: the status of the program where one of its writes is refused
/// - `prints NAME`: a value or a position of that name
/// - `finds NAME OFFSET`, `searches NAME OFFSET`: where a variable stands in a scope, if its offset
///   tells, its value, and what is left where 9 is written there; the second has variables searched for
/// - `roots NAME INDEX`, `seeks NAME INDEX`: a constant of the import that the root of a path leads to; the second has
///   imports searched for
/// - `calls NAME`: what a host's own call of a function answers, and what it leaves
/// - `handles CHAIN`: what a chain on handles of a cell comes to
/// - `shows VARIANT [PART] ..`: an error as a user reads it; behind `nowhere`, without its position
/// - `tells metadata`, `tells signature`, `tells surroundings`: what is told of a function without its
///   body, and what it finds around it
/// - `faults [LINE] ..`: what is told of the lines of a file of lists, with `: ` for ` = `
/// - `ends 26 1` and so on: what is told of a script of a row, counted from 1 (`rhai_worked::answers`)
pub fn answer(alloc: Global, lists: &[Listed<'_>], call: &str) -> io::Result<Vec<u8>> {
    let mut out = Vec::new(alloc);
    write_answer(alloc, lists, call, &mut out)?;
    Ok(out)
}

fn write_answer(
    alloc: Global,
    lists: &[Listed<'_>],
    call: &str,
    out: &mut Vec<u8>,
) -> io::Result<()> {
    let (form, rest) = call.split_once(' ').unwrap_or((call, ""));
    match form {
        "run" => write_run::<Bench>(alloc, rest, out),
        "refuses" => write_refusals::<Bench>(alloc, rest, out),
        "prints" => write_sample(alloc, rest, out),
        "finds" => write_search(alloc, rest, false, out),
        "searches" => write_search(alloc, rest, true, out),
        "roots" => write_root(alloc, rest, false, out),
        "seeks" => write_root(alloc, rest, true, out),
        "calls" => write_call::<Bench>(alloc, rest, out),
        "handles" => write_handled::<Bench>(alloc, rest, out),
        "shows" => write_shown(alloc, rest, out),
        "tells" => write_told(alloc, rest, out),
        "faults" => answers::write_faults(alloc, rest, out),
        _ => answers::write_answer::<Bench>(alloc, lists, call, out),
    }
}
