//! The timing of a script, and what is printed of it.

ghost use Rattle.std.specs.Prelude.{◌≡◌, ◌*◌, ◌/◌, ◌↔◌, IsNone, IfSome};
ghost use Rattle.std.specs.Duration.{as_nanos};

use crate::script::run;
use rhai_rows::outcome::Outcome;
use rhai_rows::sample::Script;
use rhai_rows::settings::Way;
use rhai_rows::sheet::Sheet;
use std::alloc::{AllocError, Global};
use std::io;
use std::rt::Clock;
use std::time::{Duration, Instant};

/// Runs a script in a way. Prints how it ended and how many operations it charged, and on standard error
/// how many of them a second had.
pub fn time_run<R: AllocGlobal + Clock + Print + Eprint>(
    rt: &R,
    what: &str,
    script: Script,
    way: Way,
) -> io::Result<()> {
    let begun = Instant::now(rt)?;
    let outcome = run(rt.alloc(), script, way)?;
    let elapsed = begun.elapsed(rt)?;
    let count = outcome.num_operations;
    let told = told(rt.alloc(), &outcome);
    drop(outcome);
    let told = told?;
    print!(rt; "{told}")?;
    print_speed(rt, what, count, elapsed)
}

/// Tells how a script ended, and how many operations it charged.
fn told(alloc: Global, outcome: &Outcome) -> Result<String, AllocError> {
    let mut sheet = Sheet::new(alloc);
    sheet.end(&outcome.ending);
    sheet.write("\n");
    sheet.show(&outcome.num_operations);
    sheet.write(" charges\n");
    sheet.finish()
}

/// Prints on standard error how many charges a second had, and nothing where no time has passed.
fn print_speed<R: Eprint>(rt: &R, what: &str, count: u64, elapsed: Duration) -> io::Result<()> {
    match per_second(count, elapsed) {
        Some(speed) => eprintln!(rt; "{what}: {speed} charges a second"),
        None => Ok(()),
    }
}

/// Computes how many of so many charges a second had, None where no time has passed.
pub fn per_second(count: u64, elapsed: Duration) -> Option<u128>
    ensures none { IsNone result ↔ (as_nanos elapsed ≡ 0) }
    ensures some { IfSome result (λ n. n ≡ count * 1000000000 / as_nanos elapsed) }
{
    (u128::from(count) * 1_000_000_000).checked_div(elapsed.as_nanos())
}
