//! The characters of texts: how many there are, one of them, some of them, and texts with others
//! instead of them. The contracts cite specs/Characters.antt.

ghost use Rattle.std.specs.Prelude.{◌≡◌, ◌<◌, ◌≤◌, length, take, drop, IfOk};
ghost use Rattle.std.specs.Str.{chars, encode_utf8_all, IsCharBoundary};
ghost use Rattle.rhai_spots.specs.Characters as spec;

use rhai_tree::Text;
use std::alloc::{AllocError, Global};

/// Counts the characters of a text.
pub fn char_count(text: &str) -> usize
    ensures { result ≡ length (chars text.now) }
{
    text.chars().count()
}

/// Finds where so many characters of a text end: at its end where it has no more.
fn char_offset(text: &str, count: usize) -> usize
    ensures boundary { IsCharBoundary text.now result }
    ensures front { take result text.now ≡ encode_utf8_all (take count (chars text.now)) }
    ensures back { drop result text.now ≡ encode_utf8_all (drop count (chars text.now)) }
{
    let end = text.len();
    if count >= end {
        return end;
    }
    let mut offset = 0;
    let mut passed = 0;
    for c in text.chars() {
        if passed == count {
            return offset;
        }
        offset += c.len_utf8();
        passed += 1;
    }
    offset
}

/// Reads a character of a text.
pub fn char_at(text: &str, at: usize) -> char
    requires { at < length (chars text.now) }
    ensures { result ≡ spec.char_of text.now at }
{
    match text.chars().nth(at) {
        Some(c) => c,
        None => unreachable!(),
    }
}

/// Copies the characters of a text from one up to another.
pub fn slice(alloc: Global, text: &str, start: usize, end: usize) -> Result<Text, AllocError>
    requires { start ≤ end }
    ensures { IfOk result (λ t. t ≡ spec.slice_of text.now start end) }
{
    let rest = &text[char_offset(text, start)..];
    let length = char_offset(rest, end - start);
    Text::from_str(alloc, &rest[..length])
}

/// Copies a text with another character at a position.
pub fn with_char(alloc: Global, text: &str, at: usize, c: char) -> Result<Text, AllocError>
    requires { at < length (chars text.now) }
    ensures { IfOk result (λ t. t ≡ spec.with_char text.now at c) }
{
    let (front, back) = split_around(text, at, at + 1);
    let mut joined = String::from_str(alloc, front)?;
    joined.push(c)?;
    joined.push_str(back)?;
    Ok(Text::from_string(joined))
}

/// Copies a text with others instead of its characters from one up to another.
pub fn with_slice(
    alloc: Global,
    text: &str,
    start: usize,
    end: usize,
    new: &str,
) -> Result<Text, AllocError>
    requires { start ≤ end }
    ensures { IfOk result (λ t. t ≡ spec.with_slice text.now start end new.now) }
{
    let (front, back) = split_around(text, start, end);
    let mut joined = String::from_str(alloc, front)?;
    joined.push_str(new)?;
    joined.push_str(back)?;
    Ok(Text::from_string(joined))
}

/// Splits off what stands before a character, and what stands from another one on.
fn split_around(text: &str, start: usize, end: usize) -> (&str, &str)
    requires { start ≤ end }
    ensures front { result.0.now ≡ encode_utf8_all (take start (chars text.now)) }
    ensures back { result.1.now ≡ encode_utf8_all (drop end (chars text.now)) }
{
    let front = char_offset(text, start);
    let rest = &text[front..];
    let length = char_offset(rest, end - start);
    (&text[..front], &rest[length..])
}
