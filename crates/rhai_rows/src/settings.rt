//! What is set for a run.

ghost use Rattle.std.specs.Prelude.{◌≡◌};
ghost use Rattle.rhai_lookups.specs.Levels.{CachesFit, depth_of, is_on};
ghost use Rattle.rhai_rows.specs.Settings.{settings_of, usual, usual_limits, with_modules, with_odd_natives};

use crate::start::Start;
use rhai_lookups::caches::Caches;
use rhai_state::limits::{Limits, operation_limit};
use rhai_tables::host::Pair;
use std::alloc::Global;

/// The limits and switches of a run.
#[derive(Clone, Copy, Debug, PartialEq, Eq)]
pub struct Settings {
    pub limits: Limits,
    pub fast_operators: bool,
    pub allow_shadowing: bool,
    pub fail_on_invalid_map_property: bool,
    pub map_exit_to_return_value: bool,
    /// Whether there are modules to import.
    pub has_modules: bool,
    /// Whether the engine has modules of its own.
    pub has_global_modules: bool,
    /// Whether the natives are those of `Odd`.
    pub has_odd_natives: bool,
    /// What the state has before the run.
    pub start: Start,
}

impl Settings {
    /// What a script runs with that sets nothing else.
    pub const USUAL: Settings = Settings {
        limits: Limits {
            max_operations: 0,
            max_variables: 1000,
            max_modules: 100,
            max_call_levels: 64,
            max_array_size: 0,
            max_map_size: 0,
            max_string_size: 0,
        },
        fast_operators: true,
        allow_shadowing: true,
        fail_on_invalid_map_property: false,
        map_exit_to_return_value: false,
        has_modules: false,
        has_global_modules: false,
        has_odd_natives: false,
        start: Start::NOTHING,
    };

    /// Makes the usual settings, but for their limits.
    fn with_limits(limits: Limits) -> Settings
        ensures { result ≡ record usual { limits = limits } }
    {
        Settings {
            limits,
            ..Settings::USUAL
        }
    }

    /// Makes the usual settings with modules to import, but for their limits.
    fn with_modules(limits: Limits) -> Settings
        ensures { result ≡ with_modules limits }
    {
        Settings {
            limits,
            has_modules: true,
            ..Settings::USUAL
        }
    }

    /// Makes the usual settings with the natives of `Odd`.
    fn with_odd_natives(fast_operators: bool, map_exit_to_return_value: bool) -> Settings
        ensures { result ≡ with_odd_natives fast_operators map_exit_to_return_value }
    {
        Settings {
            fast_operators,
            map_exit_to_return_value,
            has_odd_natives: true,
            ..Settings::USUAL
        }
    }

    /// Makes the usual settings, but for what the state has before the run.
    fn starting(start: Start, has_modules: bool) -> Settings
        ensures { result ≡ record usual { start = start; has_modules = has_modules } }
    {
        Settings {
            has_modules,
            start,
            ..Settings::USUAL
        }
    }

    /// Sets each limit that is as usual to the greatest that there is.
    pub fn widened(self) -> Settings {
        let Limits {
            max_operations,
            max_variables,
            max_modules,
            max_call_levels,
            max_array_size,
            max_map_size,
            max_string_size,
        } = self.limits;
        let usual = Settings::USUAL.limits;
        Settings {
            limits: Limits {
                max_operations: operation_limit(max_operations),
                max_variables: widest(max_variables, usual.max_variables),
                max_modules: widest(max_modules, usual.max_modules),
                max_call_levels: widest(max_call_levels, usual.max_call_levels),
                max_array_size: widest(max_array_size, usual.max_array_size),
                max_map_size: widest(max_map_size, usual.max_map_size),
                max_string_size: widest(max_string_size, usual.max_string_size),
            },
            ..self
        }
    }
}

/// Returns the greatest limit where one is as usual.
fn widest(limit: usize, usual: usize) -> usize {
    if limit == usual { usize::MAX } else { limit }
}

/// Makes the usual limits, but for that of operations.
fn limit_operations(max_operations: u64) -> Limits
    ensures { result ≡ record usual_limits { max_operations = max_operations } }
{
    Limits {
        max_operations,
        ..Settings::USUAL.limits
    }
}

/// Makes the usual limits, but for that of variables.
fn limit_variables(max_variables: usize) -> Limits
    ensures { result ≡ record usual_limits { max_variables = max_variables } }
{
    Limits {
        max_variables,
        ..Settings::USUAL.limits
    }
}

/// Makes the usual limits, but for that of an array's items.
fn limit_arrays(max_array_size: usize) -> Limits
    ensures { result ≡ record usual_limits { max_array_size = max_array_size } }
{
    Limits {
        max_array_size,
        ..Settings::USUAL.limits
    }
}

/// Makes the usual limits, but for that of a map's entries.
fn limit_maps(max_map_size: usize) -> Limits
    ensures { result ≡ record usual_limits { max_map_size = max_map_size } }
{
    Limits {
        max_map_size,
        ..Settings::USUAL.limits
    }
}

/// Makes the usual limits, but for that of a text's bytes.
fn limit_texts(max_string_size: usize) -> Limits
    ensures { result ≡ record usual_limits { max_string_size = max_string_size } }
{
    Limits {
        max_string_size,
        ..Settings::USUAL.limits
    }
}

/// Makes the usual limits, but for that of how deep calls are.
fn limit_levels(max_call_levels: usize) -> Limits
    ensures { result ≡ record usual_limits { max_call_levels = max_call_levels } }
{
    Limits {
        max_call_levels,
        ..Settings::USUAL.limits
    }
}

/// What is set for the run of a script that is data.
#[derive(Clone, Copy)]
pub enum Setting {
    Usual,
    /// A limit of operations.
    MaxOperations(u64),
    /// A limit of variables.
    MaxVariables(usize),
    /// A limit of an array's items.
    MaxArraySize(usize),
    /// A limit of a map's entries.
    MaxMapSize(usize),
    /// A limit of a text's bytes.
    MaxStringSize(usize),
    /// A limit of how deep calls are.
    MaxCallLevels(usize),
    WithoutFastOperators,
    /// Variables may not hide others.
    WithoutShadowing,
    /// A key that a map does not have is an error.
    FailingOnMissingKeys,
    /// There are modules to import.
    WithModules,
    /// There are modules to import, and a limit of them.
    MaxModules(usize),
    /// There are modules to import, and a limit of operations.
    MaxOperationsWithModules(u64),
    /// There are modules to import, and a limit of how deep calls are.
    MaxCallLevelsWithModules(usize),
    /// There are modules to import, and the engine has some of its own.
    WithGlobalModules,
    /// The natives are those of `Odd`.
    WithOddNatives,
    /// The natives are those of `Odd`, and an exit gives the script's value.
    WithOddNativesAndExits,
    /// The natives are those of `Odd`, and operators are natives first.
    WithOddOperators,
    /// The state has something before the run.
    Starting(Start),
    /// The state has something before the run, and there are modules to import.
    StartingWithModules(Start),
}

impl Setting {
    /// Returns the settings in which this is set, and all else is as usual.
    pub fn settings(self) -> Settings
        ensures { result ≡ settings_of self }
    {
        match self {
            Setting::Usual => Settings::USUAL,
            Setting::MaxOperations(count) => Settings::with_limits(limit_operations(count)),
            Setting::MaxVariables(count) => Settings::with_limits(limit_variables(count)),
            Setting::MaxArraySize(size) => Settings::with_limits(limit_arrays(size)),
            Setting::MaxMapSize(size) => Settings::with_limits(limit_maps(size)),
            Setting::MaxStringSize(size) => Settings::with_limits(limit_texts(size)),
            Setting::MaxCallLevels(levels) => Settings::with_limits(limit_levels(levels)),
            Setting::WithoutFastOperators => Settings {
                fast_operators: false,
                ..Settings::USUAL
            },
            Setting::WithoutShadowing => Settings {
                allow_shadowing: false,
                ..Settings::USUAL
            },
            Setting::FailingOnMissingKeys => Settings {
                fail_on_invalid_map_property: true,
                ..Settings::USUAL
            },
            Setting::WithModules => Settings::with_modules(Settings::USUAL.limits),
            Setting::MaxModules(max_modules) => Settings::with_modules(Limits {
                max_modules,
                ..Settings::USUAL.limits
            }),
            Setting::MaxOperationsWithModules(count) => {
                Settings::with_modules(limit_operations(count))
            }
            Setting::MaxCallLevelsWithModules(levels) => {
                Settings::with_modules(limit_levels(levels))
            }
            Setting::WithGlobalModules => Settings {
                has_modules: true,
                has_global_modules: true,
                ..Settings::USUAL
            },
            Setting::WithOddNatives => Settings::with_odd_natives(true, false),
            Setting::WithOddNativesAndExits => Settings::with_odd_natives(true, true),
            Setting::WithOddOperators => Settings::with_odd_natives(false, false),
            Setting::Starting(start) => Settings::starting(start, false),
            Setting::StartingWithModules(start) => Settings::starting(start, true),
        }
    }
}

/// How a run finds variables and functions. It shows in no result.
#[derive(Clone, Copy, Debug, PartialEq, Eq)]
pub struct Way {
    /// Whether variables are found by their names, whatever their offsets say.
    pub always_search_scope: bool,
    /// Whether functions that were found are kept in a cache.
    pub keeps_functions: bool,
}

impl Way {
    /// By offset, with a cache.
    pub const USUAL: Way = Way {
        always_search_scope: false,
        keeps_functions: true,
    };

    /// By offset, without a cache.
    pub const WITHOUT_CACHES: Way = Way {
        always_search_scope: false,
        keeps_functions: false,
    };

    /// Every way there is.
    pub const ALL: [Way; 4] = [
        Way::USUAL,
        Way::WITHOUT_CACHES,
        Way {
            always_search_scope: true,
            keeps_functions: true,
        },
        Way {
            always_search_scope: true,
            keeps_functions: false,
        },
    ];

    /// Makes the caches of a run before it starts.
    pub fn caches(self, alloc: Global) -> Caches<Pair>
        ensures on { is_on result ≡ self.keeps_functions }
        ensures depth { depth_of result ≡ 0 }
        ensures fit { (lists : _) → CachesFit lists result }
    {
        if self.keeps_functions {
            Caches::new(alloc)
        } else {
            Caches::off(alloc)
        }
    }
}
