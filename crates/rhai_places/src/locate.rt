//! Where an index leads. Ports the arithmetic of upstream's `get_indexed_mut`. The contracts cite
//! specs/Indexing.antt.

ghost use Rattle.std.specs.Prelude.{◌≡◌, ◌<◌, ◌≤◌, length, IfOk, IfSome, unsigned_abs};
ghost use Rattle.std.specs.Str.{chars};
ghost use Rattle.rhai_tree.specs.Lookup.{paired};
ghost use Rattle.rhai_values.specs.Layers.{layer_of};
ghost use Rattle.rhai_spots.specs.Indexing.{index_in, slice_start, slice_spot, in_integer, in_text};
ghost use Rattle.rhai_spots.specs.Indexing.{in_array, in_blob, in_map, located};
ghost use Rattle.rhai_spots.specs.Indexing as spec;
ghost use Rattle.rhai_spots.specs.Parts.{IsThere, IsOfArray, IsOfBits, IsOfBlob, IsOfMap, IsOfText};
ghost use Rattle.rhai_values.specs.declared.base.value.Union.{out-Union};

use crate::chars::char_count;
use rhai_errors::error::Bounds;
use rhai_spots::spot::{Refusal, Spot};
use rhai_tree::Table;
use rhai_values::base::value::{Dynamic, Union};

/// Finds where an index leads in a value, or why it leads nowhere. A negative index counts from the end.
pub fn locate<H>(source: &Dynamic<H>, index: &Dynamic<H>) -> Result<Spot, Refusal>
    ensures spot { result ≡ located (layer_of source.now) (layer_of index.now) }
    ensures there { IfOk result (λ at. IsThere (layer_of source.now) at) }
{
    match &source.value {
        Union::Int(_) => locate_bits(&index.value),
        Union::Str(text) => locate_text(text.get().as_str(), &index.value),
        Union::Array(items) => locate_item(items.get().len(), &index.value),
        Union::Blob(bytes) => locate_byte(bytes.get().len(), &index.value),
        Union::Map(entries) => locate_key(entries.get(), &index.value),
        _ => Err(Refusal::NotIndexed),
    }
}

fn locate_bits<H>(index: &Union<H>) -> Result<Spot, Refusal>
    ensures spot { result ≡ in_integer (out-Union H index.now) }
    ensures there { IfOk result (λ at. IsOfBits at) }
{
    match index {
        Union::Int(i) => match calc_index(64, *i) {
            Some(bit) => Ok(Spot::Bit(bit)),
            None => Err(Refusal::BitFieldBounds(bounds(64, *i))),
        },
        Union::ExclusiveRange(start, end) => bit_field(
            *start,
            *end,
            bit_bound(63, *start),
            bit_end(64, *end),
        ),
        Union::InclusiveRange(start, last) => {
            let end = match bit_end(63, *last) {
                Some(bit) => Some(bit + 1),
                None => None,
            };
            bit_field(*start, *last, bit_bound(63, *start), end)
        }
        _ => Err(Refusal::WantsInteger),
    }
}

/// Checks a bound of a field of bits, None where it is out of range.
fn bit_bound(most: usize, bound: i64) -> Option<usize>
    requires { most ≤ 64 }
    ensures value { result ≡ spec.bit_bound most bound }
    ensures within { IfSome result (λ b. b ≤ most) }
{
    match usize::try_from(bound) {
        Ok(bound) if bound <= most => Some(bound),
        _ => None,
    }
}

/// Checks the end of a field of bits. The greatest integer means the top.
fn bit_end(most: usize, end: i64) -> Option<usize>
    requires { most ≤ 64 }
    ensures value { result ≡ spec.bit_end most end }
    ensures within { IfSome result (λ b. b ≤ most) }
{
    if end == i64::MAX {
        Some(most)
    } else {
        bit_bound(most, end)
    }
}

fn bit_field(start: i64, end: i64, from: Option<usize>, to: Option<usize>) -> Result<Spot, Refusal>
    requires start { IfSome from (λ b. b ≤ 63) }
    requires end { IfSome to (λ b. b ≤ 64) }
    ensures spot { result ≡ spec.bit_field start end from to }
    ensures there { IfOk result (λ at. IsOfBits at) }
{
    match (from, to) {
        (None, _) => Err(Refusal::BitFieldBounds(bounds(64, start))),
        (Some(_), None) => Err(Refusal::BitFieldBounds(bounds(64, end))),
        (Some(from), Some(to)) => Ok(Spot::BitField(from, from.max(to))),
    }
}

fn locate_text<H>(text: &str, index: &Union<H>) -> Result<Spot, Refusal>
    ensures spot { result ≡ in_text (length (chars text.now)) (out-Union H index.now) }
    ensures there { IfOk result (λ at. IsOfText (length (chars text.now)) at) }
{
    let count = char_count(text);
    match index {
        Union::Int(i) => match calc_index(count, *i) {
            Some(at) => Ok(Spot::Char(at)),
            None => Err(Refusal::StringBounds(bounds(count, *i))),
        },
        Union::ExclusiveRange(start, end) => slice(count, *start, slice_end(count, *end)),
        Union::InclusiveRange(start, last) => slice(count, *start, slice_last(count, *last)),
        _ => Err(Refusal::WantsInteger),
    }
}

/// Finds the slice from a start, which is cut to the text, up to an end.
fn slice(count: usize, start: i64, end: usize) -> Result<Spot, Refusal>
    ensures spot { result ≡ slice_spot count start (slice_start count start) end }
    ensures there { IfOk result (λ at. IsOfText count at) }
{
    let distance = distance(start);
    let from = if start >= 0 {
        distance.min(count)
    } else if distance <= count {
        count - distance
    } else if count == 0 {
        0
    } else {
        return Err(Refusal::StringBounds(bounds(count, start)));
    };
    Ok(Spot::Slice(from, from.max(end)))
}

/// Finds where a slice ends whose end is left out.
fn slice_end(count: usize, end: i64) -> usize
    ensures { result ≡ spec.slice_end count end }
{
    if end >= 0 {
        distance(end).min(count)
    } else {
        count.saturating_sub(distance(end))
    }
}

/// Finds where a slice ends whose end is taken in.
fn slice_last(count: usize, last: i64) -> usize
    ensures { result ≡ spec.slice_last count last }
{
    if last >= 0 {
        (distance(last) + 1).min(count)
    } else {
        count.saturating_sub(distance(last) - 1)
    }
}

fn locate_item<H>(count: usize, index: &Union<H>) -> Result<Spot, Refusal>
    ensures spot { result ≡ in_array count (out-Union H index.now) }
    ensures there { IfOk result (λ at. IsOfArray count at) }
{
    match index {
        Union::Int(i) => match calc_index(count, *i) {
            Some(at) => Ok(Spot::Item(at)),
            None => Err(Refusal::ArrayBounds(bounds(count, *i))),
        },
        _ => Err(Refusal::WantsInteger),
    }
}

fn locate_byte<H>(count: usize, index: &Union<H>) -> Result<Spot, Refusal>
    ensures spot { result ≡ in_blob count (out-Union H index.now) }
    ensures there { IfOk result (λ at. IsOfBlob count at) }
{
    match index {
        Union::Int(i) => match calc_index(count, *i) {
            Some(at) => Ok(Spot::Byte(at)),
            None => Err(Refusal::ArrayBounds(bounds(count, *i))),
        },
        _ => Err(Refusal::WantsInteger),
    }
}

fn locate_key<H>(entries: &Table<Dynamic<H>>, index: &Union<H>) -> Result<Spot, Refusal>
    ensures spot { result ≡ in_map (paired entries.now).0 (out-Union H index.now) }
    ensures there { IfOk result (λ at. IsOfMap (length entries.now.1) at) }
{
    let _as_many = entries.len();
    match index {
        Union::Str(key) => match entries.find(key.get().as_str()) {
            Ok(at) => Ok(Spot::Value(at)),
            Err(_) => Ok(Spot::Missing),
        },
        _ => Err(Refusal::WantsText),
    }
}

fn bounds(length: usize, index: i64) -> Bounds
    ensures { result ≡ spec.bounds length index }
{
    Bounds { length, index }
}

/// Tells how far an index stands from zero.
fn distance(index: i64) -> usize
    ensures { result ≡ unsigned_abs index }
{
    index.unsigned_abs() as usize
}

/// Finds the position of an index in a sequence, counted from the end where it is negative. Ports upstream's
/// function of that name.
fn calc_index(length: usize, index: i64) -> Option<usize>
    ensures at { result ≡ index_in length index }
    ensures within { IfSome result (λ at. at < length) }
{
    let distance = distance(index);
    if index >= 0 {
        if distance < length {
            Some(distance)
        } else {
            None
        }
    } else if distance <= length {
        Some(length - distance)
    } else {
        None
    }
}
