//! What is set for the run of a script of a list, as its line has it.

use rhai_rows::settings::Setting;
use rhai_rows::start::Start;

/// Reads what is set, nothing where it is empty. None where it is something else.
pub(super) fn setting_of(text: &str) -> Option<Setting> {
    match text {
        "" => Some(Setting::Usual),
        "with modules" => Some(Setting::WithModules),
        "with global modules" => Some(Setting::WithGlobalModules),
        "without fast operators" => Some(Setting::WithoutFastOperators),
        "without shadowing" => Some(Setting::WithoutShadowing),
        "with odd natives" => Some(Setting::WithOddNatives),
        "with a held cell" => Some(Setting::Starting(Start {
            has_held_cell: true,
            ..Start::NOTHING
        })),
        _ => match text.strip_prefix("from ") {
            Some(what) => start_of(what),
            None => limit_of(text),
        },
    }
}

/// Reads what is counted before the run, as `the greatest level`.
fn start_of(what: &str) -> Option<Setting> {
    let start = Start::NOTHING;
    match what {
        "the greatest count" => Some(Setting::Starting(Start {
            num_operations: u64::MAX,
            ..start
        })),
        "the greatest level" => Some(Setting::Starting(Start {
            level: usize::MAX,
            ..start
        })),
        "the greatest scope level" => Some(Setting::Starting(Start {
            scope_level: usize::MAX,
            ..start
        })),
        "the greatest number of modules" => Some(Setting::StartingWithModules(Start {
            num_modules_loaded: usize::MAX,
            ..start
        })),
        _ => None,
    }
}

/// Reads a limit, as `up to 5 operations`.
fn limit_of(text: &str) -> Option<Setting> {
    let (number, what) = text.strip_prefix("up to ")?.split_once(' ')?;
    let count: usize = number.parse().ok()?;
    let operations: u64 = number.parse().ok()?;
    match what {
        "operations" => Some(Setting::MaxOperations(operations)),
        "operations with modules" => Some(Setting::MaxOperationsWithModules(operations)),
        "variables" => Some(Setting::MaxVariables(count)),
        "items" => Some(Setting::MaxArraySize(count)),
        "entries" => Some(Setting::MaxMapSize(count)),
        "bytes" => Some(Setting::MaxStringSize(count)),
        "levels" => Some(Setting::MaxCallLevels(count)),
        "levels with modules" => Some(Setting::MaxCallLevelsWithModules(count)),
        "modules" => Some(Setting::MaxModules(count)),
        _ => None,
    }
}
