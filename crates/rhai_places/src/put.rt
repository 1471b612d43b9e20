//! Parts of values that are put back. Ports the put-back of upstream's `Target`. The contracts cite
//! specs/PutBack.antt.

ghost use Rattle.std.specs.Prelude.{◌≡◌, ◌<◌, Some, None, IfErr, IsOk, IsSome, OnErr, OnOk, false};
ghost use Rattle.rhai_values.specs.Layers.{layer_of};
ghost use Rattle.rhai_values.specs.declared.base.value.FnPtrKind.TheOpen as layer;
ghost use Rattle.rhai_spots.specs.declared.spot.Spot.TheVariants as spot;
ghost use Rattle.rhai_spots.specs.Parts.{IsPart};
ghost use Rattle.rhai_spots.specs.PutBack.{IsNotPut, is_of_text, low_byte as low_byte_of, put, put_back};
ghost use Rattle.rhai_spots.specs.PutBack.{wanted as wanted_by};
ghost use Rattle.rhai_errors.specs.Errors.{is_out_of_memory, mismatch as mismatch_of};
ghost use Rattle.rhai_values.specs.TypeNames.{own_type_name};

use crate::bits::{with_bit, with_field};
use crate::chars::{with_char, with_slice};
use rhai_errors::error::EvalAltResult;
use rhai_errors::errors::mismatch;
use rhai_spots::spot::Spot;
use rhai_tree::Shared;
use rhai_tree::position::Position;
use rhai_values::base::value::{Dynamic, Host, Union};
use std::alloc::{AllocError, Global};

/// Puts a part back where it was read. A bit takes a truth value; a field takes the low bits of an integer,
/// and an empty field changes nothing; a byte takes the low eight bits of an integer; a character takes a
/// character, and a slice a text. Only parts of texts take memory. Asked: the value has a part there.
///
/// # Errors
/// A part of another type is `ErrorMismatchDataType` at the position, and the value stays. Where
/// there is no memory the value stays too.
pub fn put_part<H: Host>(
    alloc: Global,
    source: &mut Dynamic<H>,
    spot: Spot,
    part: &Dynamic<H>,
    position: Position,
) -> Result<(), EvalAltResult<H>>
    requires { IsPart (layer_of source.old) spot }
    ensures ok { OnOk result (put_back source.old spot part.now ≡ Some source.new) }
    ensures err { OnErr result (source.new ≡ source.old) }
    ensures refused { IfErr result (λ e. IsNotPut H.name_of source.old spot part.now position e) }
    ensures memory { IsSome (put_back source.old spot part.now) → is_of_text spot ≡ false → IsOk result }
{
    put_there(alloc, source, spot, part, position)
}

/// Puts a part back that is there, which `put_part` tells of any spot.
fn put_there<H: Host>(
    alloc: Global,
    source: &mut Dynamic<H>,
    spot: Spot,
    part: &Dynamic<H>,
    position: Position,
) -> Result<(), EvalAltResult<H>>
    requires { IsPart (layer_of source.old) spot }
    ensures ok { OnOk result (put source.old spot (layer_of part.now) ≡ Some source.new) }
    ensures err { OnErr result (source.new ≡ source.old) }
    ensures refused { IfErr result (λ e. is_out_of_memory e ≡ false → (put source.old spot (layer_of part.now)
        ≡ None) × (e ≡ mismatch_of (wanted_by spot) (own_type_name H.name_of part.now.value) position)) }
    ensures memory { IsSome (put source.old spot (layer_of part.now)) → is_of_text spot ≡ false →
        IsOk result }
{
    let put = match (spot, &part.value) {
        (Spot::Bit(at), Union::Bool(on)) => Ok(put_bit(source, at, *on)),
        (Spot::BitField(start, end), Union::Int(new)) => Ok(put_field(source, start, end, *new)),
        (Spot::Byte(at), Union::Int(new)) => Ok(put_byte(source, at, *new)),
        (Spot::Char(at), Union::Char(c)) => put_char(alloc, source, at, *c),
        (Spot::Slice(start, end), Union::Str(new)) => {
            put_slice(alloc, source, start, end, new.get().as_str())
        }
        _ => return Err(mismatch(alloc, wanted(spot), part.own_type_name(), position)),
    };
    match put {
        Ok(()) => Ok(()),
        Err(_) => Err(EvalAltResult::ErrorOutOfMemory(position)),
    }
}

/// Returns the name of the type that a part has.
fn wanted(spot: Spot) -> &'static str
    ensures { result.now ≡ wanted_by spot }
{
    match spot {
        Spot::Bit(_) => "bool",
        Spot::BitField(..) | Spot::Byte(_) => "i64",
        Spot::Char(_) => "char",
        Spot::Slice(..) => "string",
        Spot::Item(_) | Spot::Value(_) | Spot::Missing => "",
    }
}

fn put_bit<H>(source: &mut Dynamic<H>, at: usize, on: bool)
    requires { IsPart (layer_of source.old) (spot.Bit at) }
    ensures { put source.old (spot.Bit at) (layer.Bool on) ≡ Some source.new }
{
    match &mut source.value {
        Union::Int(number) => *number = with_bit(*number, at, on),
        _ => unreachable!(),
    }
}

fn put_field<H>(source: &mut Dynamic<H>, start: usize, end: usize, new: i64)
    requires { IsPart (layer_of source.old) (spot.BitField start end) }
    ensures { put source.old (spot.BitField start end) (layer.Int new) ≡ Some source.new }
{
    match &mut source.value {
        Union::Int(number) => *number = with_field(*number, start, end, new),
        _ => unreachable!(),
    }
}

fn put_byte<H>(source: &mut Dynamic<H>, at: usize, new: i64)
    requires { IsPart (layer_of source.old) (spot.Byte at) }
    ensures { put source.old (spot.Byte at) (layer.Int new) ≡ Some source.new }
{
    match &mut source.value {
        Union::Blob(bytes) => bytes.get_mut().set(at, low_byte(new)),
        _ => unreachable!(),
    }
}

/// Takes the low eight bits of an integer.
fn low_byte(number: i64) -> u8
    ensures { result ≡ low_byte_of number }
{
    (number.cast_unsigned() % 256) as u8
}

fn put_char<H>(alloc: Global, source: &mut Dynamic<H>, at: usize, c: char) -> Result<(), AllocError>
    requires { IsPart (layer_of source.old) (spot.Char at) }
    ensures ok { OnOk result (put source.old (spot.Char at) (layer.Char c) ≡ Some source.new) }
    ensures err { OnErr result (source.new ≡ source.old) }
{
    match &mut source.value {
        Union::Str(text) => {
            let new = with_char(alloc, text.get().as_str(), at, c)?;
            *text = Shared::new(alloc, new)?;
            Ok(())
        }
        _ => unreachable!(),
    }
}

fn put_slice<H>(
    alloc: Global,
    source: &mut Dynamic<H>,
    start: usize,
    end: usize,
    new: &str,
) -> Result<(), AllocError>
    requires { IsPart (layer_of source.old) (spot.Slice start end) }
    ensures ok { OnOk result (put source.old (spot.Slice start end) (layer.Str new.now) ≡ Some source.new) }
    ensures err { OnErr result (source.new ≡ source.old) }
{
    match &mut source.value {
        Union::Str(text) => {
            let new = with_slice(alloc, text.get().as_str(), start, end, new)?;
            *text = Shared::new(alloc, new)?;
            Ok(())
        }
        _ => unreachable!(),
    }
}
