//! The work of a function that calls itself twice, in a library of many whose names and parameters are alike.

use rhai_bench::timing::time_run;
use rhai_rows::sample::MadeTree::FibonacciAmong;
use rhai_rows::sample::Sample;
use rhai_rows::sample::Tree::WithFunctions;
use rhai_rows::settings::Setting::Usual;
use rhai_rows::settings::Way;
use std::rt::Env;
use std::{env, io};

/// The work of a function in a library.
#[derive(Clone, Copy)]
pub struct Library {
    /// How many functions the library has.
    count: u32,
    /// What the function is called with.
    number: u32,
    /// How functions are found.
    way: Way,
}

impl Library {
    /// Reads the work from the arguments, None where there is none.
    pub fn read<R: Env + AllocGlobal>(rt: &R) -> io::Result<Option<Library>> {
        let Some(way) = way_asked(rt)? else {
            return Ok(None);
        };
        let (Some(count), Some(number)) = (number_at(rt, 2)?, number_at(rt, 3)?) else {
            return Ok(None);
        };
        if env::args(rt)?.nth(4).is_some() {
            return Ok(None);
        }
        Ok(Some(Library { count, number, way }))
    }

    /// Runs the script of the work, and prints how it went.
    pub fn run(self, rt: &HostRuntime) -> io::Result<()> {
        let Library { count, number, way } = self;
        let tree = WithFunctions(FibonacciAmong(count, i64::from(number)));
        let script = Sample(tree, Usual).script(rt.alloc())?;
        time_run(rt, "the library", script, way)
    }
}

/// Finds how functions are to be found: with the caches where the first argument is `library`, and without them where it
/// is `library-off`.
fn way_asked<R: Env + AllocGlobal>(rt: &R) -> io::Result<Option<Way>> {
    let Some(word) = env::args(rt)?.nth(1) else {
        return Ok(None);
    };
    Ok(match word.as_str() {
        "library" => Some(Way::USUAL),
        "library-off" => Some(Way::WITHOUT_CACHES),
        _ => None,
    })
}

/// Reads an argument as a number.
fn number_at<R: Env + AllocGlobal>(rt: &R, at: usize) -> io::Result<Option<u32>> {
    match env::args(rt)?.nth(at) {
        Some(word) => Ok(word.parse::<u32>().ok()),
        None => Ok(None),
    }
}
