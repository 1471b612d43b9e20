//! Cursors over what a `for` walks.

ghost use Rattle.std.specs.Prelude.{◌≡◌, ◌∷◌, [], ℕ, ℤ, IfSome, None, drop, pos, ◌+ℤ◌, suc};
ghost use Rattle.std.specs.Int.{int_gap};
ghost use Rattle.std.specs.Str.{chars, IsCharBoundary};
ghost use Rattle.rhai_stmt.specs.Cursors.{AreIntegers};
ghost use Rattle.rhai_stmt.specs.Items.{items_in};

use rhai_tree::{Items, Shared, Text};
use rhai_values::base::value::{Dynamic, Union};
use std::marker::Model;
use std::mem::replace;

/// The items of an array from one on. An item that was walked is gone from there.
#[derive(Drop)]
pub struct ItemsLeft<H> {
    items: Items<Dynamic<H>>,
    at: usize,
}

/// Copies an integer as it stands, None for any other value.
fn number_at<H>(value: &Dynamic<H>) -> Option<Dynamic<H>>
    ensures { IfSome result (λ number. number ≡ value.now) }
{
    match &value.value {
        Union::Int(number) => Some(Dynamic {
            value: Union::Int(*number),
            mode: value.mode,
        }),
        _ => None,
    }
}

impl<H> ItemsLeft<H> {
    /// Makes the cursor that has all items of an array left.
    pub fn new(items: Items<Dynamic<H>>) -> ItemsLeft<H>
        ensures { items_in result ≡ items }
    {
        ItemsLeft { items, at: 0 }
    }

    /// Takes the next item, if one is left.
    pub fn next(&mut self) -> Option<Dynamic<H>>
        ensures none { result ≡ None → items_in self.old ≡ [] }
        ensures some { IfSome result (λ item. items_in self.old ≡ item ∷ items_in self.new) }
    {
        if self.at >= self.items.len() {
            return None;
        }
        let place = self.items.at_mut(self.at);
        self.at += 1;
        if let Some(number) = number_at(place) {
            return Some(number);
        }
        Some(replace(place, Dynamic::new(Union::Unit)))
    }
}

/// The bytes of a blob from one on.
#[derive(Drop)]
pub struct BytesLeft {
    bytes: Items<u8>,
    at: usize,
}

impl Model for BytesLeft {
    ghost use Rattle.std.specs.Prelude.{ℕ, List, drop};

    ghost Value = { List ℕ };

    ghost view = { λ left. drop left.at left.bytes };
}

impl BytesLeft {
    /// Makes the cursor that has all bytes of a blob left.
    pub fn new(bytes: Items<u8>) -> BytesLeft
        ensures { result ≡ bytes }
    {
        BytesLeft { bytes, at: 0 }
    }

    /// Takes the next byte, if one is left.
    pub fn next(&mut self) -> Option<u8>
        ensures none { result ≡ None → self.old ≡ [] }
        ensures some { IfSome result (λ byte. self.old ≡ byte ∷ self.new) }
    {
        if self.at >= self.bytes.len() {
            return None;
        }
        let byte = self.bytes.as_slice()[self.at];
        self.at += 1;
        Some(byte)
    }
}

/// The characters of a text from one on.
#[derive(Drop)]
pub struct LettersLeft {
    text: Shared<Text>,
    at: usize,
}

impl Model for LettersLeft {
    ghost use Rattle.std.specs.Prelude.{ℕ, List, drop};
    ghost use Rattle.std.specs.Str.{chars, IsCharBoundary};

    ghost Value = { List ℕ };

    ghost view = { λ left. chars (drop left.at left.text) };

    ghost invariant = { λ left. IsCharBoundary left.text left.at };
}

/// Returns where a text starts, which is not within a character.
fn start(text: &str) -> usize
    ensures first { result ≡ 0 }
    ensures boundary { IsCharBoundary text.now result }
{
    0
}

impl LettersLeft {
    /// Makes the cursor that has all characters of a text left.
    pub fn new(text: Shared<Text>) -> LettersLeft
        ensures { result ≡ chars text }
    {
        let at = start(text.get().as_str());
        LettersLeft { text, at }
    }

    /// Takes the next character, if one is left.
    pub fn next(&mut self) -> Option<char>
        ensures none { result ≡ None → self.old ≡ [] }
        ensures some { IfSome result (λ letter. self.old ≡ letter ∷ self.new) }
    {
        let rest = &self.text.get().as_str()[self.at..];
        let letter = rest.chars().next()?;
        self.at += letter.len_utf8();
        Some(letter)
    }
}

/// Integers upward by one, from one up to an end that is not among them.
#[derive(Drop)]
pub struct IntegersLeft {
    next: i128,
    end: i128,
}

impl Model for IntegersLeft {
    ghost use Rattle.std.specs.Prelude.{ℕ, ℤ};
    ghost use Rattle.std.specs.Int.{int_gap};
    ghost use Rattle.rhai_stmt.specs.Cursors.{AreIntegers};

    ghost Value = { ℤ × ℕ };

    ghost view = { λ left. (left.next, int_gap left.next left.end) };

    ghost invariant = { λ left. AreIntegers left.next left.end };
}

impl IntegersLeft {
    /// Makes the cursor over the integers of a range without its end.
    pub fn exclusive(start: i64, end: i64) -> IntegersLeft
        ensures { result ≡ (start, int_gap start end) }
    {
        IntegersLeft {
            next: i128::from(start),
            end: i128::from(end),
        }
    }

    /// Makes the cursor over the integers of a range with its end.
    pub fn inclusive(start: i64, last: i64) -> IntegersLeft
        ensures { result ≡ (start, int_gap start (last +ℤ pos 1)) }
    {
        IntegersLeft {
            next: i128::from(start),
            end: i128::from(last) + 1,
        }
    }

    /// Takes the next integer, if one is left.
    pub fn next(&mut self) -> Option<i64>
        ensures none { result ≡ None → self.old.1 ≡ 0 }
        ensures integer { IfSome result (λ n. self.old.0 ≡ n) }
        ensures on { IfSome result (λ n. self.new.0 ≡ n +ℤ pos 1) }
        ensures fewer { IfSome result (λ _. self.old.1 ≡ suc self.new.1) }
    {
        if self.next >= self.end {
            return None;
        }
        let n = self.next as i64;
        self.next += 1;
        Some(n)
    }
}
