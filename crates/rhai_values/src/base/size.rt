//! How much data a value contains, and the limits on it.

ghost use Rattle.std.specs.Prelude.{◌≡◌, map, false};
ghost use Rattle.rhai_values.specs.DataSize.{sizes, saturated, joined, total, total_of, data_sizes};
ghost use Rattle.rhai_values.specs.DataSize.{holds_data, exceeded, fault_text};

use crate::base::value::{Dynamic, Union};

/// How much data a value contains: the elements of its arrays and the bytes of its blobs, the entries of
/// its maps, and the bytes of its texts. What is more than a `usize` counts as the greatest `usize`.
/// Handles of cells and pointers to functions contain none.
#[derive(Clone, Copy, Debug, PartialEq, Eq)]
pub struct DataSizes {
    pub arrays: usize,
    pub maps: usize,
    pub strings: usize,
}

/// Which kind of data is above its limit.
#[derive(Clone, Copy, Debug, PartialEq, Eq)]
pub enum SizeFault {
    Strings,
    Arrays,
    Maps,
}

impl SizeFault {
    /// Returns the text of the error.
    pub fn text(self) -> &'static str
        ensures { result.now ≡ fault_text self }
    {
        match self {
            SizeFault::Strings => "Length of string",
            SizeFault::Arrays => "Size of array/BLOB",
            SizeFault::Maps => "Size of object map",
        }
    }
}

impl DataSizes {
    /// Returns the sizes of no data.
    pub fn none() -> DataSizes
        ensures { result ≡ sizes 0 0 0 }
    {
        DataSizes {
            arrays: 0,
            maps: 0,
            strings: 0,
        }
    }

    /// Returns the sizes of so many elements of arrays or bytes of blobs.
    pub fn of_arrays(count: usize) -> DataSizes
        ensures { result ≡ sizes count 0 0 }
    {
        DataSizes {
            arrays: count,
            maps: 0,
            strings: 0,
        }
    }

    /// Returns the sizes of so many entries of maps.
    pub fn of_maps(count: usize) -> DataSizes
        ensures { result ≡ sizes 0 count 0 }
    {
        DataSizes {
            arrays: 0,
            maps: count,
            strings: 0,
        }
    }

    /// Returns the sizes of so many bytes of texts.
    pub fn of_strings(count: usize) -> DataSizes
        ensures { result ≡ sizes 0 0 count }
    {
        DataSizes {
            arrays: 0,
            maps: 0,
            strings: count,
        }
    }

    /// Adds the sizes of two values.
    pub fn joined(self, more: DataSizes) -> DataSizes
        ensures { result ≡ joined self more }
    {
        DataSizes {
            arrays: self.arrays.saturating_add(more.arrays),
            maps: self.maps.saturating_add(more.maps),
            strings: self.strings.saturating_add(more.strings),
        }
    }

    /// Finds the first kind of data that is above its limit, in the order texts, arrays and blobs, maps.
    /// A limit of zero is none. Ports upstream's `throw_on_size`.
    pub fn exceeds(
        self,
        max_string_size: usize,
        max_array_size: usize,
        max_map_size: usize,
    ) -> Option<SizeFault>
        ensures { result ≡ exceeded max_string_size max_array_size max_map_size self }
    {
        if max_string_size > 0 && self.strings > max_string_size {
            Some(SizeFault::Strings)
        } else if max_array_size > 0 && self.arrays > max_array_size {
            Some(SizeFault::Arrays)
        } else if max_map_size > 0 && self.maps > max_map_size {
            Some(SizeFault::Maps)
        } else {
            None
        }
    }
}

impl<H> Dynamic<H> {
    /// Counts the data that the value contains. Ports upstream's `calc_data_sizes`.
    pub fn data_sizes(&self) -> DataSizes
        ensures { result ≡ data_sizes self.now }
    {
        value_sizes(self)
    }

    /// Tells whether the value is of a kind that contains data: a text, an array, a blob or a map.
    pub fn holds_data(&self) -> bool
        ensures same { result ≡ holds_data self.now }
        ensures none { result ≡ false → data_sizes self.now ≡ sizes 0 0 0 }
    {
        matches!(
            &self.value,
            Union::Str(_) | Union::Array(_) | Union::Blob(_) | Union::Map(_)
        )
    }

    /// Finds the first kind of data of which the value contains more than its limit. The order is texts,
    /// arrays and blobs, maps. A limit of zero is none. Ports upstream's `check_data_size`.
    pub fn exceeds(
        &self,
        max_string_size: usize,
        max_array_size: usize,
        max_map_size: usize,
    ) -> Option<SizeFault>
        ensures { result ≡ exceeded max_string_size max_array_size max_map_size (data_sizes self.now) }
    {
        if max_string_size == 0 && max_array_size == 0 && max_map_size == 0 {
            return None;
        }
        if !self.holds_data() {
            return None;
        }
        self.data_sizes()
            .exceeds(max_string_size, max_array_size, max_map_size)
    }
}

#[cycle(sizes)]
fn value_sizes<H>(value: &Dynamic<H>) -> DataSizes
    ensures { result ≡ data_sizes value.now }
{
    match &value.value {
        Union::Str(text) => DataSizes::of_strings(text.get().len()),
        Union::Array(items) => {
            let items = items.get().as_slice();
            sum_sizes(items).joined(DataSizes::of_arrays(items.len()))
        }
        Union::Blob(bytes) => DataSizes::of_arrays(bytes.get().len()),
        Union::Map(entries) => {
            let values = entries.get().values();
            sum_sizes(values).joined(DataSizes::of_maps(values.len()))
        }
        _ => DataSizes::none(),
    }
}

/// Counts the data that several values contain together.
#[cycle(sizes)]
fn sum_sizes<H>(values: &[Dynamic<H>]) -> DataSizes
    ensures { result ≡ saturated (total_of (map total values.now)) }
{
    let mut held = DataSizes::none();
    for value in values {
        held = held.joined(value_sizes(value));
    }
    held
}
