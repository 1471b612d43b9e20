//! Compares what scripts, the program `tree_run` and a host's own calls come to with files of worked lines, as
//! `ends 26 1 = ok 42`, and what the functions of the leaves answer with files of worked vectors, as
//! `binary + 1 2 = 3`. Then it times a function that calls itself, and runs the scripts with all memory granted. The
//! files stand in the folder where the program runs; one of them has scripts that no row has. The status is 1 where a
//! line differs or cannot be read, or where something does not hold.
//!
//! - `rows refused` compares no other lines. Where something outside of the program refuses memory, it runs the
//!   scripts with each request of theirs refused in turn, and sees to what holds after each; and makes the public calls of
//!   `refused.txt` so, whose ends it compares with what their lines tell.
//! - `rows WORK [NUMBER]` times a work (`work`). The number says how long it is.
//! - `rows library COUNT NUMBER` times a function with that number in a library of so many, and `rows library-off COUNT
//!   NUMBER` the same without caches of function lookups.
#![tactic(auto)]

mod answers;
mod library;
mod topic;
mod work;

use crate::library::Library;
use crate::topic::Topic;
use crate::work::Work;
use rhai_bench::Bench;
use rhai_rows::command::WRONG_ARGUMENTS;
use rhai_worked::program::{do_all_agree, do_all_hold, read_lists, text_of_lists};
use std::process::ExitCode;
use std::rt::Env;
use std::{env, io};

/// What the program is asked to do.
#[derive(Clone, Copy)]
enum Request {
    /// To compare every line, time a function and run the scripts.
    Everything,
    /// To run the scripts with their requests for memory refused.
    Refused,
    /// To time a work of a length.
    Timed(Work, u32),
    /// To time a function in a library.
    InLibrary(Library),
}

fn main(rt: HostRuntime) -> io::Result<ExitCode> {
    match read_request(&rt)? {
        Some(Request::Everything) => Ok(status(do_all(&rt)?)),
        Some(Request::Refused) => Ok(status(refuse_requests(&rt)?)),
        Some(Request::Timed(work, number)) => {
            work.run(&rt, number)?;
            Ok(ExitCode::SUCCESS)
        }
        Some(Request::InLibrary(library)) => {
            library.run(&rt)?;
            Ok(ExitCode::SUCCESS)
        }
        None => {
            eprintln!(&rt;
                "usage: rows [refused|loop|array|native|natives|item|increase|increase-twice|fib|range|walk|switch|throw [NUMBER]]"
            )?;
            eprintln!(&rt; "       rows library|library-off COUNT NUMBER")?;
            Ok(ExitCode::from(WRONG_ARGUMENTS))
        }
    }
}

/// Reads what the arguments ask for, None where it is nothing that the program does.
fn read_request<R: Env + AllocGlobal>(rt: &R) -> io::Result<Option<Request>> {
    let Some(word) = env::args(rt)?.nth(1) else {
        return Ok(Some(Request::Everything));
    };
    if word.as_str() == "refused" {
        let goes_on = env::args(rt)?.nth(2).is_some();
        return Ok(if goes_on {
            None
        } else {
            Some(Request::Refused)
        });
    }
    if env::args(rt)?.nth(3).is_some() {
        return Ok(Library::read(rt)?.map(|library| Request::InLibrary(library)));
    }
    let Some(work) = Work::named(word.as_str()) else {
        return Ok(None);
    };
    match env::args(rt)?.nth(2) {
        Some(number) => Ok(
            number
                .parse::<u32>()
                .ok()
                .map(|number| Request::Timed(work, number)),
        ),
        None => Ok(Some(Request::Timed(work, work.usual_length()))),
    }
}

/// Compares all lines, times a function and runs the scripts. Tells whether no line differs and all holds.
fn do_all(rt: &HostRuntime) -> io::Result<bool> {
    let text = text_of_lists(rt)?;
    let Some(lists) = read_lists(rt, text.as_str())? else {
        return Ok(false);
    };
    let topics = Topic::all(lists.as_slice());
    let do_agree = do_all_agree(rt, &topics)?;
    Work::Fib.run(rt, Work::Fib.usual_length())?;
    let do_hold = do_all_hold::<Bench, _>(rt, lists.as_slice())?;
    Ok(do_agree && do_hold)
}

/// Runs the scripts, and tells whether all holds.
fn refuse_requests(rt: &HostRuntime) -> io::Result<bool> {
    let text = text_of_lists(rt)?;
    match read_lists(rt, text.as_str())? {
        Some(lists) => do_all_hold::<Bench, _>(rt, lists.as_slice()),
        None => Ok(false),
    }
}

fn status(is_well: bool) -> ExitCode {
    ExitCode::from(u8::from(!is_well))
}
