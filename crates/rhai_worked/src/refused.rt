//! Runs each script of the rows and the lists in each way, first with all memory granted, and then with the
//! first, the second, the third .. request for memory refused, alone and with all after it, until none is left
//! to refuse, and sees to what holds after each run. Refusing needs something outside of the program; without it
//! all memory is granted in every run.

mod below;
pub(crate) mod calls;
mod chain;
mod leaves;
mod part;

use crate::lists::Listed;
use crate::refused::calls::tally_calls;
use crate::refused::chain::Root;
use crate::refused::leaves::Leaf;
use crate::refused::part::{Part, Report};
use crate::scripts::Source;
use rhai_hosted::caller::Calls;
use rhai_rows::refuser;
use rhai_rows::refuser::Refusal;
use rhai_rows::rows::scripts_of;
use rhai_rows::runner::Runner;
use rhai_rows::settings::Way;
use std::alloc::Global;
use std::io;
use std::io::Write;

/// The rows whose requests are refused: all but 3, which calls too often, and 25, which has no scripts.
const ROWS: [&str; 43] = [
    "1", "2", "4", "5", "6", "7", "8", "9", "10", "11", "12", "13", "14", "15", "16", "17", "18",
    "19", "20", "21", "22", "23", "24", "26", "27", "28", "29", "30", "31", "32", "33", "34", "35",
    "36", "37", "38", "39", "40", "41", "42", "43", "44", "45",
];

/// How many parts, runs, refusals and faults there were.
#[derive(Clone, Copy, Default)]
struct Tally {
    parts: u64,
    runs: u64,
    refused: u64,
    /// Runs that were not reached, since what they need could not be made.
    not_made: u64,
    /// Runs that ran out of memory.
    ran_out: u64,
    /// Runs that came to what they come to with all memory granted.
    unharmed: u64,
    wrong: u64,
}

/// Prints what does not hold after a run, and how many runs there were, of the rows, of the lists and of the calls of
/// lines. Tells whether all holds.
pub fn are_all_well<R: Runner + Calls, W: Write>(
    alloc: Global,
    lists: &[Listed<'_>],
    calls: &str,
    out: &mut W,
) -> io::Result<bool> {
    let rows = tally_rows::<R, _>(alloc, &mut *out)?;
    rows.write("rows", &mut *out)?;
    let listed = tally_lists::<R, _>(alloc, lists, &mut *out)?;
    listed.write("lists", &mut *out)?;
    let calls = tally_calls::<R, _>(alloc, lists, calls, &mut *out)?;
    calls.write("calls", &mut *out)?;
    Ok(rows.wrong == 0 && listed.wrong == 0 && calls.wrong == 0)
}

/// Runs the scripts of the rows, the assignment through a chain, and the calls that leave what they are handed.
fn tally_rows<R: Runner, W: Write>(alloc: Global, out: &mut W) -> io::Result<Tally> {
    let mut tally = Tally::default();
    for row in ROWS {
        run_row::<R, _>(alloc, row, &mut tally, &mut *out)?;
    }
    run_chains::<R, _>(alloc, &mut tally, &mut *out)?;
    write_requests::<R, _>(alloc, &mut tally, &mut *out)?;
    run_leaves(alloc, &mut tally, &mut *out)?;
    Ok(tally)
}

/// Runs the scripts of the lists, but for those that are there for the checker alone.
fn tally_lists<R: Runner, W: Write>(
    alloc: Global,
    lists: &[Listed<'_>],
    out: &mut W,
) -> io::Result<Tally> {
    let mut tally = Tally::default();
    for &script in lists {
        if script.is_refused() {
            let source = Source::List(script);
            run_script::<R, _>(
                alloc,
                script.list,
                script.number,
                source,
                &mut tally,
                &mut *out,
            )?;
        }
    }
    Ok(tally)
}

impl Tally {
    fn write<W: Write>(&self, name: &str, out: &mut W) -> io::Result<()> {
        writeln!(
            out,
            "{name}: {} parts, {} runs, {} requests refused",
            self.parts, self.runs, self.refused
        )?;
        writeln!(
            out,
            "{name}: {} not reached, {} out of memory, {} unharmed, {} wrong",
            self.not_made, self.ran_out, self.unharmed, self.wrong
        )
    }

    /// Counts a run that came to what it comes to with all memory granted, or ran out of memory.
    fn count_end(&mut self, is_unharmed: bool) {
        if is_unharmed {
            self.unharmed = self.unharmed.saturating_add(1);
        } else {
            self.ran_out = self.ran_out.saturating_add(1);
        }
    }

    /// Counts and prints what is wrong with a run, if anything is. The number is that of the request that was
    /// refused in it, or 0.
    fn tell<W: Write>(
        &mut self,
        part: Part<'_>,
        refusal: Refusal,
        number: usize,
        wrong: Option<&'static str>,
        out: &mut W,
    ) -> io::Result<()> {
        let Some(what) = wrong else {
            return Ok(());
        };
        self.wrong = self.wrong.saturating_add(1);
        let Part {
            list,
            place,
            way,
            ..
        } = part;
        writeln!(out, "{list} {place} {way:?} {refusal:?} {number}: {what}")
    }
}

/// Runs the scripts of a row.
fn run_row<R: Runner, W: Write>(
    alloc: Global,
    row: &str,
    tally: &mut Tally,
    out: &mut W,
) -> io::Result<()> {
    let Some(scripts) = scripts_of(row) else {
        return Ok(());
    };
    for (at, sample) in scripts.iter().enumerate() {
        let source = Source::Row(*sample);
        run_script::<R, _>(alloc, row, at.saturating_add(1), source, tally, out)?;
    }
    Ok(())
}

/// Runs a script in each way, with its requests refused in turn.
fn run_script<R: Runner, W: Write>(
    alloc: Global,
    list: &str,
    place: usize,
    source: Source<'_>,
    tally: &mut Tally,
    out: &mut W,
) -> io::Result<()> {
    tally.parts = tally.parts.saturating_add(1);
    for way in Way::ALL {
        let part = Part {
            list,
            place,
            source,
            way,
        };
        for refusal in Refusal::BOTH {
            run_part::<R, _>(alloc, part, refusal, tally, out)?;
        }
    }
    Ok(())
}

/// Runs a script with all memory granted, and with its requests refused in turn.
fn run_part<R: Runner, W: Write>(
    alloc: Global,
    part: Part<'_>,
    refusal: Refusal,
    tally: &mut Tally,
    out: &mut W,
) -> io::Result<()> {
    let Some(own) = part.run::<R>(alloc)? else {
        return tally.tell(part, refusal, 0, Some("not reached"), out);
    };
    tally.runs = tally.runs.saturating_add(1);
    let wrong = own.wrong.or_else(|| wrong_unless(
        goes_on(&own, &own),
        "another end the second time",
    ));
    tally.tell(part, refusal, 0, wrong, out)?;
    for number in 1..=refuser::GREATEST {
        if !refuser::begin(alloc, refusal, number) {
            break;
        }
        let report = part.run::<R>(alloc)?;
        let was_refused = refuser::end(alloc);
        tally.runs = tally.runs.saturating_add(1);
        let wrong = judge(&own, report.as_ref(), was_refused, tally);
        drop(report);
        let wrong = wrong.or_else(|| what_leaked(alloc));
        tally.tell(part, refusal, number, wrong, out)?;
        if !was_refused {
            break;
        }
        tally.refused = tally.refused.saturating_add(1);
    }
    Ok(())
}

fn what_leaked(alloc: Global) -> Option<&'static str> {
    if refuser::is_all_given_back(alloc) {
        None
    } else {
        Some("memory was kept")
    }
}

/// Tells what is wrong with a run, beside the one with all memory granted.
fn judge(
    own: &Report,
    report: Option<&Report>,
    was_refused: bool,
    tally: &mut Tally,
) -> Option<&'static str> {
    let Some(report) = report else {
        tally.not_made = tally.not_made.saturating_add(1);
        return wrong_unless(was_refused, "not reached, though nothing was refused");
    };
    if report.wrong.is_some() {
        report.wrong
    } else if !own.names.as_slice().starts_with(report.names.as_slice()) {
        Some("other variables are left")
    } else if !own
        .imports
        .as_slice()
        .starts_with(report.imports.as_slice())
    {
        Some("other imports are left")
    } else if !goes_on(own, report) {
        Some("another end the second time")
    } else if report.has_run_out {
        tally.ran_out = tally.ran_out.saturating_add(1);
        wrong_unless(was_refused, "out of memory, though nothing was refused")
    } else {
        tally.unharmed = tally.unharmed.saturating_add(1);
        wrong_unless(is_same(own, report), "another outcome")
    }
}

fn wrong_unless(holds: bool, what: &'static str) -> Option<&'static str> {
    if holds { None } else { Some(what) }
}

fn is_same(own: &Report, report: &Report) -> bool {
    report.line.as_slice() == own.line.as_slice()
        && report.counter == own.counter
        && report.names.as_slice() == own.names.as_slice()
        && report.imports.as_slice() == own.imports.as_slice()
}

/// Tells whether the script comes to what it is to come to over the state that is left: to what it came to from the
/// beginning where no import is left, and else to what it comes to over what the run with all memory granted left. A
/// handle has the number of another cell then.
fn goes_on(own: &Report, report: &Report) -> bool {
    let (Some(again), Some(own_again)) = (&report.again, &own.again) else {
        return true;
    };
    let wanted = if report.imports.is_empty() {
        own.line.as_slice()
    } else {
        own_again.as_slice()
    };
    again.as_slice() == wanted || (is_handle(again.as_slice()) && is_handle(wanted))
}

/// Tells whether the line of an ending is that of a handle.
fn is_handle(line: &[u8]) -> bool {
    line.starts_with(b"ok cell ")
}

/// Tells whether the assignment is done, or was not reached since a request was refused.
fn is_right(assigned: Option<bool>, was_refused: bool, tally: &mut Tally) -> bool {
    match assigned {
        Some(is_done) => {
            tally.unharmed = tally.unharmed.saturating_add(1);
            is_done
        }
        None => {
            tally.not_made = tally.not_made.saturating_add(1);
            was_refused
        }
    }
}

/// Assigns through chains from each root in each way, the requests refused in turn.
fn run_chains<R: Runner, W: Write>(
    alloc: Global,
    tally: &mut Tally,
    out: &mut W,
) -> io::Result<()> {
    for root in Root::ALL {
        for way in Way::ALL {
            for refusal in Refusal::BOTH {
                run_chain::<R, _>(alloc, root, way, refusal, tally, &mut *out)?;
            }
        }
    }
    Ok(())
}

/// Assigns through a chain, the requests of all that is done for it refused in turn: wherever its call is reached it is
/// done.
fn run_chain<R: Runner, W: Write>(
    alloc: Global,
    root: Root,
    way: Way,
    refusal: Refusal,
    tally: &mut Tally,
    out: &mut W,
) -> io::Result<()> {
    for number in 1..=refuser::GREATEST {
        let is_heard = refuser::begin(alloc, refusal, number);
        let assigned = chain::is_assigned::<R>(alloc, root, way);
        let was_refused = refuser::end(alloc);
        tally.runs = tally.runs.saturating_add(1);
        if !is_right(assigned, was_refused, tally) {
            tally.wrong = tally.wrong.saturating_add(1);
            writeln!(
                &mut *out,
                "a[0][1] = 5 {root:?} {way:?} {refusal:?} {number}: {assigned:?}"
            )?;
        }
        if !is_heard || !was_refused {
            break;
        }
        tally.refused = tally.refused.saturating_add(1);
    }
    Ok(())
}

/// Prints how many requests for memory the call of a chain has, which are none over any items, and none through a cell.
fn write_requests<R: Runner, W: Write>(
    alloc: Global,
    tally: &mut Tally,
    out: &mut W,
) -> io::Result<()> {
    let short = chain::requests::<R>(alloc, Root::Short);
    let long = chain::requests::<R>(alloc, Root::Long);
    let in_cell = chain::requests::<R>(alloc, Root::InCell);
    if short > 0 || long > 0 || in_cell > 0 {
        tally.wrong = tally.wrong.saturating_add(1);
    }
    writeln!(
        out,
        "a chain: {short} requests over two items, {long} over a thousand, {in_cell} through a cell"
    )
}

/// Makes each of the calls that leave what they are handed, with its requests refused in turn.
fn run_leaves<W: Write>(alloc: Global, tally: &mut Tally, out: &mut W) -> io::Result<()> {
    for leaf in Leaf::ALL {
        for refusal in Refusal::BOTH {
            run_leaf(alloc, leaf, refusal, tally, &mut *out)?;
        }
    }
    Ok(())
}

/// Makes a call with its requests refused in turn: what it is handed stays, or comes back.
fn run_leaf<W: Write>(
    alloc: Global,
    leaf: Leaf,
    refusal: Refusal,
    tally: &mut Tally,
    out: &mut W,
) -> io::Result<()> {
    for number in 1..=refuser::GREATEST {
        let left = leaf.call(alloc, refusal, number);
        tally.runs = tally.runs.saturating_add(1);
        if left.is_as_it_was {
            tally.unharmed = tally.unharmed.saturating_add(1);
        } else {
            tally.wrong = tally.wrong.saturating_add(1);
            writeln!(
                &mut *out,
                "{leaf:?} {refusal:?} {number}: what it was handed is not as it was"
            )?;
        }
        if !left.was_refused {
            break;
        }
        tally.refused = tally.refused.saturating_add(1);
    }
    Ok(())
}
