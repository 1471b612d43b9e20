//! The lines of a file, each compared with what its call answers.

use std::alloc::Global;
use std::io;
use std::io::Write;

/// What a call answers, or what is wanted where its line has something else.
pub type Answer = Result<Vec<u8>, &'static str>;

/// What a file of lines is about.
pub trait Subject: Copy {
    /// Returns the name of the file, without the ending.
    fn name(self) -> &'static str;

    /// Tells what the call of a line answers.
    fn answer(self, alloc: Global, call: &str) -> io::Result<Answer>;
}

/// How many lines agree, and how many differ.
#[derive(Clone, Copy, Default)]
struct Tally {
    agree: usize,
    differ: usize,
}

/// What came of a line.
#[derive(Drop)]
enum Verdict {
    Agrees,
    Differs(Vec<u8>),
    /// The line has something else where this is wanted.
    Unread(&'static str),
}

/// Compares the lines of a file. Prints those that differ, with their numbers, and totals, and answers how
/// many differ. Empty lines, lines that begin with `//`, and those of trees are not compared.
pub fn compare_lines<S: Subject, W: Write>(
    alloc: Global,
    subject: S,
    lines: &str,
    out: &mut W,
) -> io::Result<usize> {
    let mut tally = Tally::default();
    let name = subject.name();
    for (at, line) in lines.lines().enumerate() {
        if line.is_empty() || line.starts_with("//") || line.starts_with("tree ") {
            continue;
        }
        let verdict = judge(alloc, subject, line)?;
        if agrees(name, at.saturating_add(1), verdict, out)? {
            tally.agree = tally.agree.saturating_add(1);
        } else {
            tally.differ = tally.differ.saturating_add(1);
        }
    }
    writeln!(
        out,
        "{name}: {} agree, {} differ",
        tally.agree, tally.differ
    )?;
    Ok(tally.differ)
}

/// Compares one line, `CALL = ANSWER`, with what the call answers.
fn judge<S: Subject>(alloc: Global, subject: S, line: &str) -> io::Result<Verdict> {
    let Some((call, wanted)) = line.split_once(" = ") else {
        return Ok(Verdict::Unread("an answer after ` = `"));
    };
    match subject.answer(alloc, call)? {
        Ok(found) if found.as_slice() == wanted.as_bytes() => Ok(Verdict::Agrees),
        Ok(found) => Ok(Verdict::Differs(found)),
        Err(wanted) => Ok(Verdict::Unread(wanted)),
    }
}

/// Tells whether a line agrees. Where it does not, prints its number and why.
fn agrees<W: Write>(name: &str, number: usize, verdict: Verdict, out: &mut W) -> io::Result<bool> {
    match verdict {
        Verdict::Agrees => Ok(true),
        Verdict::Differs(found) => {
            let wrote = write_difference(out, name, number, found.as_slice());
            drop(found);
            wrote.map(|()| false)
        }
        Verdict::Unread(wanted) => {
            writeln!(out, "{name}.txt:{number}: {wanted} is wanted")?;
            Ok(false)
        }
    }
}

/// Writes what a line came to whose answer is another.
fn write_difference<W: Write>(
    out: &mut W,
    name: &str,
    number: usize,
    found: &[u8],
) -> io::Result<()> {
    write!(out, "{name}.txt:{number}: it came to ")?;
    out.write_all(found)?;
    writeln!(out, "")
}
