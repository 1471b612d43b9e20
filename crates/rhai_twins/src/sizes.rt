//! The sizes of data.

ghost use Rattle.std.specs.Prelude.{◌≡◌};

use rhai_values::base::size::{DataSizes, SizeFault};
use rhai_values::base::value::Dynamic;

/// Shows that `SizeFault::text` answers equal texts for equal faults.
pub fn fault_text(one: SizeFault, other: SizeFault) -> (&'static str, &'static str)
    requires { one ≡ other }
    ensures { result.0.now ≡ result.1.now }
{
    (one.text(), other.text())
}

/// Shows that two calls of `DataSizes::none` answer equal sizes.
pub fn none() -> (DataSizes, DataSizes)
    ensures { result.0 ≡ result.1 }
{
    (DataSizes::none(), DataSizes::none())
}

/// Shows that two calls of `DataSizes::of_arrays` for one count answer equal sizes.
pub fn of_arrays(count: usize) -> (DataSizes, DataSizes)
    ensures { result.0 ≡ result.1 }
{
    (DataSizes::of_arrays(count), DataSizes::of_arrays(count))
}

/// Shows that two calls of `DataSizes::of_maps` for one count answer equal sizes.
pub fn of_maps(count: usize) -> (DataSizes, DataSizes)
    ensures { result.0 ≡ result.1 }
{
    (DataSizes::of_maps(count), DataSizes::of_maps(count))
}

/// Shows that two calls of `DataSizes::of_strings` for one count answer equal sizes.
pub fn of_strings(count: usize) -> (DataSizes, DataSizes)
    ensures { result.0 ≡ result.1 }
{
    (DataSizes::of_strings(count), DataSizes::of_strings(count))
}

/// Shows that `DataSizes::joined` adds to equal sizes alike.
pub fn joined(one: DataSizes, other: DataSizes, more: DataSizes) -> (DataSizes, DataSizes)
    requires { one ≡ other }
    ensures { result.0 ≡ result.1 }
{
    (one.joined(more), other.joined(more))
}

/// Shows that `DataSizes::exceeds` finds equal faults in equal sizes.
pub fn sizes_exceed(
    one: DataSizes,
    other: DataSizes,
    max_string_size: usize,
    max_array_size: usize,
    max_map_size: usize,
) -> (Option<SizeFault>, Option<SizeFault>)
    requires { one ≡ other }
    ensures { result.0 ≡ result.1 }
{
    (
        one.exceeds(max_string_size, max_array_size, max_map_size),
        other.exceeds(max_string_size, max_array_size, max_map_size),
    )
}

/// Shows that `Dynamic::data_sizes` counts the data of equal values alike.
pub fn data_sizes<H>(one: &Dynamic<H>, other: &Dynamic<H>) -> (DataSizes, DataSizes)
    requires { one.now ≡ other.now }
    ensures { result.0 ≡ result.1 }
{
    (one.data_sizes(), other.data_sizes())
}

/// Shows that `Dynamic::holds_data` answers alike for equal values.
pub fn holds_data<H>(one: &Dynamic<H>, other: &Dynamic<H>) -> (bool, bool)
    requires { one.now ≡ other.now }
    ensures { result.0 ≡ result.1 }
{
    (one.holds_data(), other.holds_data())
}

/// Shows that `Dynamic::exceeds` finds equal faults in equal values.
pub fn exceeds<H>(
    one: &Dynamic<H>,
    other: &Dynamic<H>,
    max_string_size: usize,
    max_array_size: usize,
    max_map_size: usize,
) -> (Option<SizeFault>, Option<SizeFault>)
    requires { one.now ≡ other.now }
    ensures { result.0 ≡ result.1 }
{
    (
        one.exceeds(max_string_size, max_array_size, max_map_size),
        other.exceeds(max_string_size, max_array_size, max_map_size),
    )
}
