//! A text.

ghost use Rattle.std.specs.Prelude.{◌≡◌, is_ok, string_bytes};

use rhai_tree::Text;
use std::alloc::{AllocError, Global};

/// Shows that two calls of `Text::new` make equal texts.
pub fn new(alloc: Global) -> (Text, Text)
    ensures { result.0 ≡ result.1 }
{
    (Text::new(alloc), Text::new(alloc))
}

/// Shows that two calls of `Text::from_string` with equal bytes make equal texts.
pub fn from_string(text: String, also_text: String) -> (Text, Text)
    requires { string_bytes text ≡ string_bytes also_text }
    ensures { result.0 ≡ result.1 }
{
    (Text::from_string(text), Text::from_string(also_text))
}

/// Shows that two calls of `Text::from_str` on one text make equal texts.
pub fn from_str(alloc: Global, text: &str) -> (Result<Text, AllocError>, Result<Text, AllocError>)
    ensures { is_ok result.0 ≡ is_ok result.1 → result.0 ≡ result.1 }
{
    (Text::from_str(alloc, text), Text::from_str(alloc, text))
}

/// Shows that two calls of `Text::into_string` on equal texts give equal bytes.
pub fn into_string(one: Text, other: Text) -> (String, String)
    requires { one ≡ other }
    ensures { string_bytes result.0 ≡ string_bytes result.1 }
{
    (one.into_string(), other.into_string())
}

/// Shows that two calls of `Text::as_str` on equal texts lend equal bytes.
pub fn as_str<'a>(one: &'a Text, other: &'a Text) -> (&'a str, &'a str)
    requires { one.now ≡ other.now }
    ensures { result.0.now ≡ result.1.now }
{
    (one.as_str(), other.as_str())
}

/// Shows that two calls of `Text::len` on equal texts answer equally.
pub fn len(one: &Text, other: &Text) -> (usize, usize)
    requires { one.now ≡ other.now }
    ensures { result.0 ≡ result.1 }
{
    (one.len(), other.len())
}

/// Shows that two calls of `Text::is_empty` on equal texts answer equally.
pub fn is_empty(one: &Text, other: &Text) -> (bool, bool)
    requires { one.now ≡ other.now }
    ensures { result.0 ≡ result.1 }
{
    (one.is_empty(), other.is_empty())
}

/// Shows that two calls of `Text::try_clone` on equal texts make equal texts.
pub fn try_clone(one: &Text, other: &Text) -> (Result<Text, AllocError>, Result<Text, AllocError>)
    requires { one.now ≡ other.now }
    ensures { is_ok result.0 ≡ is_ok result.1 → result.0 ≡ result.1 }
{
    (one.try_clone(), other.try_clone())
}
