//! The work of a program that compares lines and runs scripts with their requests for memory refused.

use crate::lists::{FILE, Listed, read};
use crate::refused::{are_all_well, calls};
use rhai_hosted::caller::Calls;
use rhai_rows::compare::{Subject, compare_lines};
use rhai_rows::runner::Runner;
use std::rt::Files;
use std::{fs, io};

/// Reads the text of the file of the lists.
pub fn text_of_lists<R: Files + AllocGlobal>(rt: &R) -> io::Result<String> {
    fs::read_to_string(rt, FILE)
}

/// Reads the scripts of the file of the lists. Prints each line that cannot be read, and answers None where there is
/// one.
pub fn read_lists<'a, R: Print + AllocGlobal>(
    rt: &R,
    text: &'a str,
) -> io::Result<Option<Vec<Listed<'a>>>> {
    read(rt.alloc(), text, &mut io::writer(rt))
}

/// Compares the lines of the file of each subject, and tells whether none differs. The files stand in the folder
/// where the program runs.
pub fn do_all_agree<S: Subject, R: Files + Print + AllocGlobal>(
    rt: &R,
    subjects: &[S],
) -> io::Result<bool> {
    let mut differ: usize = 0;
    for subject in subjects {
        differ = differ.saturating_add(compare_file(rt, *subject)?);
    }
    Ok(differ == 0)
}

/// Compares the lines of a file, and counts those that differ.
fn compare_file<S: Subject, R: Files + Print + AllocGlobal>(
    rt: &R,
    subject: S,
) -> io::Result<usize> {
    let path = format!(in rt.alloc(); "{}.txt", subject.name())?;
    let lines = fs::read_to_string(rt, path.as_str())?;
    compare_lines(rt.alloc(), subject, lines.as_str(), &mut io::writer(rt))
}

/// Runs the scripts of the rows and of the lists, and makes the calls of `refused.txt`, with all memory granted, and, where
/// something outside of the program refuses memory, with each request of theirs refused in turn. Tells whether what has to
/// hold after each does.
pub fn do_all_hold<R: Runner + Calls, H: Files + Print + AllocGlobal>(
    rt: &H,
    lists: &[Listed<'_>],
) -> io::Result<bool> {
    let calls = fs::read_to_string(rt, calls::FILE)?;
    are_all_well::<R, _>(rt.alloc(), lists, calls.as_str(), &mut io::writer(rt))
}
