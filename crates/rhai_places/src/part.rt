//! Parts of values: bits, bytes, characters and slices, as they are read. The contracts cite
//! specs/Parts.antt.

ghost use Rattle.std.specs.Prelude.{◌≡◌, ◌↔◌, ◌<◌, true, pos, length, slice_index, IsTrue, IfOk, OnErr};
ghost use Rattle.rhai_values.specs.Layers.{layer_of};
ghost use Rattle.rhai_spots.specs.Parts.{IsPart, part_of, is_slice};

use crate::bits::{bit, field};
use crate::chars::{char_at, char_count, slice};
use rhai_spots::spot::Spot;
use rhai_tree::{Items, Shared};
use rhai_values::base::value::{Dynamic, Union};
use std::alloc::{AllocError, Global};

/// Reads the part of a value at a spot, with the access mode of the value. Only a slice takes memory.
pub fn read_part<H>(
    alloc: Global,
    source: &Dynamic<H>,
    spot: Spot,
) -> Result<Dynamic<H>, AllocError>
    requires { IsPart (layer_of source.now) spot }
    ensures value { IfOk result (λ part. part ≡ part_of source.now spot) }
    ensures memory { OnErr result (is_slice spot ≡ true) }
{
    let value = match (&source.value, spot) {
        (Union::Int(number), Spot::Bit(at)) => Union::Bool(bit(*number, at)),
        (Union::Int(number), Spot::BitField(start, end)) => Union::Int(field(*number, start, end)),
        (Union::Str(text), Spot::Char(at)) => Union::Char(char_at(text.get().as_str(), at)),
        (Union::Str(text), Spot::Slice(start, end)) => {
            let slice = slice(alloc, text.get().as_str(), start, end)?;
            Union::Str(Shared::new(alloc, slice)?)
        }
        (Union::Blob(bytes), Spot::Byte(at)) => Union::Int(byte_at(bytes.get(), at)),
        _ => unreachable!(),
    };
    Ok(Dynamic {
        value,
        mode: source.mode,
    })
}

fn byte_at(bytes: &Items<u8>, at: usize) -> i64
    requires { at < length bytes.now }
    ensures { result ≡ pos (slice_index bytes.now at) }
{
    i64::from(bytes.as_slice()[at])
}

/// Tells whether a spot is a part of a value that is read and put back.
pub fn is_part<H>(source: &Dynamic<H>, spot: Spot) -> bool
    ensures { IsTrue result ↔ IsPart (layer_of source.now) spot }
{
    match (&source.value, spot) {
        (Union::Int(_), Spot::Bit(at)) => at < 64,
        (Union::Int(_), Spot::BitField(start, end)) => start <= end && end <= 64,
        (Union::Str(text), Spot::Char(at)) => at < char_count(text.get().as_str()),
        (Union::Str(_), Spot::Slice(start, end)) => start <= end,
        (Union::Blob(bytes), Spot::Byte(at)) => at < bytes.get().len(),
        _ => false,
    }
}
