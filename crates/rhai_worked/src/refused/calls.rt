//! Lines that make one public call, as `builtin_unary 5 = ok -5`: what it comes to with all memory granted, and behind that,
//! each behind a ` | `, what else it comes to where one of its requests for memory is refused.

use crate::lists::Listed;
use crate::refused::Tally;
use crate::refused::below::{tell_minus, tell_parameters};
use crate::scripts::{Source, script_named};
use rhai_hosted::caller::Calls;
use rhai_hosted::functions::tell_attempt;
use rhai_rows::attempt::Attempt;
use rhai_rows::entry::Entry;
use rhai_rows::linked_pointer::scope_for;
use rhai_rows::outcome::Outcome;
use rhai_rows::refuser::{GREATEST, Refusal};
use rhai_rows::runner::Runner;
use rhai_rows::settings::Way;
use rhai_rows::sheet::Sheet;
use std::alloc::{AllocError, Global};
use std::io;
use std::io::Write;

/// The name of the file, in the folder where the program runs.
pub const FILE: &str = "refused.txt";

/// What stands between two ends of a line.
const SEPARATOR: &str = " | ";

/// What a call came to: each end once, in the order in which they came.
#[derive(Drop)]
struct Ends {
    text: String,
    was_any_refused: bool,
    has_memory: bool,
}

impl Ends {
    /// Begins with none.
    fn new(alloc: Global) -> Ends {
        Ends {
            text: String::new(alloc),
            was_any_refused: false,
            has_memory: true,
        }
    }

    /// Adds an end that did not come before.
    fn add(&mut self, end: &str) {
        if self.text.as_str().is_empty() {
            self.write(end);
        } else if !self.text.as_str().split(SEPARATOR).any(|it| it == end) {
            self.write(SEPARATOR);
            self.write(end);
        }
    }

    /// Returns the end that came first.
    fn first(&self) -> &str {
        first_of(self.text.as_str())
    }

    /// Appends a text, and remembers if memory ran out.
    fn write(&mut self, text: &str) {
        if self.text.push_str(text).is_err() {
            self.has_memory = false;
        }
    }

    /// Tells whether these are the ends of a line, or its first where nothing was refused.
    fn are_told_by(&self, told: &str) -> bool {
        let wanted = if self.was_any_refused {
            told
        } else {
            first_of(told)
        };
        self.has_memory && self.text.as_str() == wanted
    }
}

/// Returns the first of the ends of a line.
fn first_of(ends: &str) -> &str {
    let (first, _) = ends.split_once(SEPARATOR).unwrap_or((ends, ""));
    first
}

/// Makes the calls of the lines of a file in each way, with their requests refused in turn. Prints those that come to
/// something else than their line tells.
pub(super) fn tally_calls<R: Runner + Calls, W: Write>(
    alloc: Global,
    lists: &[Listed<'_>],
    lines: &str,
    out: &mut W,
) -> io::Result<Tally> {
    let mut tally = Tally::default();
    for (at, line) in lines.lines().enumerate() {
        if line.is_empty() || line.starts_with("//") {
            continue;
        }
        tally.parts = tally.parts.saturating_add(1);
        let (call, told) = line.split_once(" = ").unwrap_or((line, ""));
        let mut ends = Ends::new(alloc);
        for way in Way::ALL {
            run_call::<R>(alloc, lists, call, way, &mut ends, &mut tally);
        }
        if !ends.are_told_by(told) {
            tally.wrong = tally.wrong.saturating_add(1);
            let number = at.saturating_add(1);
            let text = ends.text.as_str();
            writeln!(&mut *out, "{FILE}:{number}: {call} came to {text}")?;
        }
        drop(ends);
    }
    Ok(tally)
}

/// Makes a call with all memory granted, and then with its requests refused in turn.
fn run_call<R: Runner + Calls>(
    alloc: Global,
    lists: &[Listed<'_>],
    call: &str,
    way: Way,
    ends: &mut Ends,
    tally: &mut Tally,
) {
    make_call::<R>(alloc, lists, call, way, Attempt::GRANTED, ends, tally);
    for refusal in Refusal::BOTH {
        for number in 1..=GREATEST {
            let attempt = Attempt::refusing(refusal, number);
            if !make_call::<R>(alloc, lists, call, way, attempt, ends, tally) {
                break;
            }
            ends.was_any_refused = true;
            tally.refused = tally.refused.saturating_add(1);
        }
    }
}

/// Makes a call once, adds what it came to, and tells whether a request was refused.
fn make_call<R: Runner + Calls>(
    alloc: Global,
    lists: &[Listed<'_>],
    call: &str,
    way: Way,
    attempt: Attempt,
    ends: &mut Ends,
    tally: &mut Tally,
) -> bool {
    let mut attempt = attempt;
    let end = end_of::<R>(alloc, lists, call, way, &mut attempt);
    tally.runs = tally.runs.saturating_add(1);
    match &end {
        Ok(end) => {
            ends.add(end.as_str());
            tally.count_end(ends.first() == end.as_str());
        }
        Err(AllocError) => ends.has_memory = false,
    }
    drop(end);
    attempt.was_refused
}

/// Makes a call, and tells what it came to and what it left.
fn end_of<R: Runner + Calls>(
    alloc: Global,
    lists: &[Listed<'_>],
    call: &str,
    way: Way,
    attempt: &mut Attempt,
) -> Result<String, AllocError> {
    let mut sheet = Sheet::new(alloc);
    let (form, rest) = call.split_once(' ').unwrap_or((call, ""));
    match form {
        "builtin_unary" => tell_minus(rest, attempt, &mut sheet),
        "push_parameters" => tell_parameters(rest, attempt, &mut sheet),
        _ => tell_evaluated::<R>(lists, form, rest, way, attempt, &mut sheet),
    }
    if !attempt.is_restored {
        sheet.write("; libraries, imports or levels are not what they were");
    }
    sheet.finish()
}

/// Makes a call of the evaluator, with the last statement of a script, or as a host's own.
fn tell_evaluated<R: Runner + Calls>(
    lists: &[Listed<'_>],
    form: &str,
    rest: &str,
    way: Way,
    attempt: &mut Attempt,
    sheet: &mut Sheet,
) {
    let (list, number) = rest.split_once(' ').unwrap_or((rest, ""));
    match (Entry::named(form), script_named(lists, list, number)) {
        (Some(entry), Some(source)) => {
            let alloc = sheet.maker.allocator();
            let outcome = enter::<R>(alloc, entry, source, list, way, attempt);
            if let Some(outcome) = sheet.maker.kept(outcome) {
                sheet.all(&outcome);
                drop(outcome);
            }
        }
        _ => tell_attempt::<R>(form, rest, attempt, sheet),
    }
}

/// Enters a call with the last statement of a script.
fn enter<R: Runner>(
    alloc: Global,
    entry: Entry,
    source: Source<'_>,
    list: &str,
    way: Way,
    attempt: &mut Attempt,
) -> Result<Outcome, AllocError> {
    let script = source.script(alloc)?;
    let scope = scope_for(alloc, list)?;
    R::enter(alloc, entry, script, way, scope, attempt)
}
