//! The turns that a `for` has left.

ghost use Rattle.std.specs.Prelude.{◌≡◌, ◌<◌, ◌+◌, IfSome, None, Some, option_map};
ghost use Rattle.rhai_values.specs.Layers.{layer_of};
ghost use Rattle.rhai_stmt.specs.TurnsLeft.{turns_in};
ghost use Rattle.rhai_machine.specs.language.Turns as machine;

use crate::cursors::{BytesLeft, IntegersLeft, ItemsLeft, LettersLeft};
use rhai_values::base::value::{Dynamic, Host, Union};
use std::mem::replace;

/// The turns that a `for` has left: one for each item of an array, byte of a blob, character of a text or
/// integer of a range.
#[derive(Drop)]
pub enum Turns<H> {
    Items(ItemsLeft<H>),
    Bytes(BytesLeft),
    Letters(LettersLeft),
    Integers(IntegersLeft),
}

/// Makes the turns that a value gives, None where it cannot be walked.
pub fn turns_of<H: Host>(mut value: Dynamic<H>) -> Option<Turns<H>>
    ensures { option_map turns_in result ≡ machine.turns_of (layer_of value) }
{
    match replace(&mut value.value, Union::Unit) {
        Union::Array(items) => Some(Turns::Items(ItemsLeft::new(items.into_inner()))),
        Union::Blob(bytes) => Some(Turns::Bytes(BytesLeft::new(bytes.into_inner()))),
        Union::Str(text) => Some(Turns::Letters(LettersLeft::new(text))),
        Union::ExclusiveRange(start, end) => {
            Some(Turns::Integers(IntegersLeft::exclusive(start, end)))
        }
        Union::InclusiveRange(start, last) => {
            Some(Turns::Integers(IntegersLeft::inclusive(start, last)))
        }
        _ => None,
    }
}

/// Returns the number of the turn after this one. It has 64 bits, since each turn was charged.
pub fn next_number(turn: u64, num_operations: u64) -> u64
    requires { turn < num_operations }
    ensures { result ≡ turn + 1 }
{
    turn + 1
}

impl<H: Host> Turns<H> {
    /// Takes the item of the next turn, if there is one.
    pub fn next(&mut self) -> Option<Dynamic<H>>
        ensures none { result ≡ None → machine.next_turn (turns_in self.old) ≡ None }
        ensures some { IfSome result (λ item. machine.next_turn (turns_in self.old)
            ≡ Some (item, turns_in self.new)) }
    {
        match self {
            Turns::Items(items) => items.next(),
            Turns::Bytes(bytes) => {
                let byte = bytes.next()?;
                Some(Dynamic::new(Union::Int(i64::from(byte))))
            }
            Turns::Letters(letters) => {
                let letter = letters.next()?;
                Some(Dynamic::new(Union::Char(letter)))
            }
            Turns::Integers(integers) => {
                let n = integers.next()?;
                Some(Dynamic::new(Union::Int(n)))
            }
        }
    }
}
