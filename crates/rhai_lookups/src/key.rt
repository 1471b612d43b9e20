//! The key of an entry.

ghost use Rattle.std.specs.Prelude.{◌≡◌, ◌<◌, IfOk, IsTrue};
ghost use Rattle.std.specs.Option.{option_copied};
ghost use Rattle.rhai_functions.specs.Keys.{function_key_of};
ghost use Rattle.rhai_lookups.specs.Keys.{key_kept};

use rhai_functions::key::FnKey;
use rhai_tree::{Shared, Text};
use std::alloc::{AllocError, Global};

/// What a function was looked for by, with texts of its own.
pub struct KeptKey {
    name: Shared<Text>,
    arity: usize,
    this_type: Option<Shared<Text>>,
}

// Written by hand, so that the crates above call this, and need not go through the fields.
impl Drop for KeptKey {
    fn drop(self) {
        let KeptKey {
            name: _,
            arity: _,
            this_type: _,
        } = self;
    }
}

/// Tells whether two texts are the same. It begins at their ends, where names of a series differ.
#[inline(always)]
fn is_text(own: &str, wanted: &str) -> bool
    ensures { IsTrue result → own.now ≡ wanted.now }
{
    let own = own.as_bytes();
    let wanted = wanted.as_bytes();
    let mut left = own.len();
    if left != wanted.len() {
        return false;
    }
    'bytes: while left > 0 {
        left -= 1;
        if own[left] != wanted[left] {
            return false;
        }
    }
    true
}

/// Tells whether a type of `this` is the one that is looked for.
fn is_type(own: &Option<Shared<Text>>, wanted: Option<&str>) -> bool
    ensures { IsTrue result → own.now ≡ option_copied wanted.entry }
{
    match (own, wanted) {
        (None, None) => true,
        (Some(own), Some(wanted)) => is_text(own.get().as_str(), wanted),
        _ => false,
    }
}

/// Copies a text.
fn text_of(alloc: Global, text: &str) -> Result<Shared<Text>, AllocError>
    ensures { IfOk result (λ own. own ≡ text.now) }
{
    Shared::new(alloc, Text::from_str(alloc, text)?)
}

/// Copies a type of `this`, if there is one.
fn type_of(alloc: Global, wanted: Option<&str>) -> Result<Option<Shared<Text>>, AllocError>
    ensures { IfOk result (λ own. own ≡ option_copied wanted.entry) }
{
    match wanted {
        Some(text) => Ok(Some(text_of(alloc, text)?)),
        None => Ok(None),
    }
}

/// Makes a number of a name and a count of parameters.
fn hash_of(name: &str, arity: usize) -> usize {
    let mut hash = arity;
    for byte in name.as_bytes() {
        hash = hash.wrapping_mul(31).wrapping_add(usize::from(*byte));
    }
    hash
}

/// Makes a number of a key. Equal keys have one number.
pub fn hash_of_key(key: &FnKey<'_>) -> usize {
    hash_of(key.name, key.arity)
}

impl KeptKey {
    /// Copies a key.
    pub fn new(alloc: Global, key: &FnKey<'_>) -> Result<KeptKey, AllocError>
        ensures { IfOk result (λ kept. key_kept kept ≡ function_key_of key.now) }
    {
        let name = text_of(alloc, key.name)?;
        let this_type = type_of(alloc, key.this_type)?;
        Ok(KeptKey {
            name,
            arity: key.arity,
            this_type,
        })
    }

    /// Tells whether it is the key that is looked for.
    #[inline(always)]
    pub fn is(&self, key: &FnKey<'_>) -> bool
        ensures { IsTrue result → key_kept self.now ≡ function_key_of key.now }
    {
        self.arity == key.arity
            && is_text(self.name.get().as_str(), key.name)
            && is_type(&self.this_type, key.this_type)
    }

    /// Makes its number.
    pub fn hash(&self) -> usize {
        hash_of(self.name.get().as_str(), self.arity)
    }
}
