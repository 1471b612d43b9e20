//! The limits of a run.

ghost use Rattle.std.specs.Prelude.{◌≡◌};
ghost use Rattle.rhai_state.specs.Limits.{limit_of};

/// The limits of a run. Ports upstream's `Limits`.
#[derive(Clone, Copy, Debug, PartialEq, Eq)]
pub struct Limits {
    /// How many operations a run may charge: without a limit the greatest count.
    pub max_operations: u64,
    /// How many variables a scope may have.
    pub max_variables: usize,
    /// How many modules a run may load.
    pub max_modules: usize,
    /// How deep calls may be.
    pub max_call_levels: usize,
    /// How many elements a value's arrays and blobs may have; zero is no limit.
    pub max_array_size: usize,
    /// How many entries a value's maps may have; zero is no limit.
    pub max_map_size: usize,
    /// How many bytes a value's texts may have; zero is no limit.
    pub max_string_size: usize,
}

/// Tells how many operations a run may charge, from the number that an engine is given: zero is no limit.
pub fn operation_limit(max_operations: u64) -> u64
    ensures { result ≡ limit_of max_operations }
{
    if max_operations == 0 {
        u64::MAX
    } else {
        max_operations
    }
}
