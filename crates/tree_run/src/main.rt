//! Runs a row of the bench: each of its scripts by offset and with a cache of functions, and prints
//! what each came to.
#![tactic(auto)]

use rhai_bench::Bench;
use rhai_rows::command::{NOT_WRITTEN, print_usage, run};
use std::process::ExitCode;
use std::rt::Env;
use std::{env, io};

fn main(rt: HostRuntime) -> ExitCode {
    let mut out = io::writer(&rt);
    let status = match arguments(&rt) {
        Ok(args) => run::<Bench, _>(rt.alloc(), args.as_slice(), &mut out),
        Err(error) => {
            if error.kind() == io::ErrorKind::OutOfMemory {
                NOT_WRITTEN
            } else {
                print_usage(&mut out).unwrap_or(NOT_WRITTEN)
            }
        }
    };
    ExitCode::from(status)
}

/// Collects the program's arguments without its name.
fn arguments<R: Env + AllocGlobal>(rt: &R) -> io::Result<Vec<String>> {
    let args = env::args(rt)?.skip(1).collect(rt.alloc())?;
    Ok(args)
}
