//! Where the entries of a cache stand.

ghost use Rattle.std.specs.Prelude.{◌≡◌, ◌<◌, IfSome};
ghost use Rattle.std.specs.List.{Contains};
ghost use Rattle.rhai_functions.specs.Keys.{function_key_of};
ghost use Rattle.rhai_lookups.specs.Keys.{key_kept};

use crate::cache::FnResolutionCacheEntry;
use crate::key::hash_of_key;
use rhai_functions::key::FnKey;
use std::alloc::{AllocError, Global};
use std::marker::Model;

/// How many slots there are at first.
const FIRST_SLOTS: usize = 16;

/// Where the entries of a cache stand, by what their keys hash to. Contracts see nothing of it, since whoever
/// is led to an entry compares its key.
pub struct Places {
    /// One more than the place of an entry, or 0.
    slots: Vec<usize>,
    /// The place of the entry that was found last.
    last: usize,
}

// Written by hand, so that the crates above call this, and need not go through the fields.
impl Drop for Places {
    fn drop(self) {
        let Places { slots: _, last: _ } = self;
    }
}

impl Model for Places {
    ghost Value = { Unit {0} };

    ghost view = { λ places. tt };
}

/// An entry that was found, and its place.
#[derive(Drop)]
pub struct Hit<'c, H> {
    pub place: usize,
    pub found: &'c FnResolutionCacheEntry<H>,
}

/// Shows the entry at a place, where it has the key.
#[inline(always)]
fn hit_at<'c, H>(
    entries: &'c [FnResolutionCacheEntry<H>],
    place: usize,
    key: &FnKey<'_>,
) -> Option<Hit<'c, H>>
    ensures here { IfSome result (λ hit. Contains entries.now hit.found.now) }
    ensures key { IfSome result (λ hit. key_kept hit.found.now.key ≡ function_key_of key.now) }
{
    if place >= entries.len() {
        return None;
    }
    let found = &entries[place];
    let fits = found.key.is(key);
    if fits {
        Some(Hit { place, found })
    } else {
        None
    }
}

/// Moves on to the next slot, from the last to the first.
fn next_slot(at: usize, count: usize) -> usize
    requires { at < count }
    ensures { result < count }
{
    if at + 1 < count { at + 1 } else { 0 }
}

/// Looks for the entry of a key, from the slot on that the key hashes to.
#[inline(never)]
fn probe<'c, H>(
    slots: &[usize],
    entries: &'c [FnResolutionCacheEntry<H>],
    key: &FnKey<'_>,
) -> Option<Hit<'c, H>>
    ensures here { IfSome result (λ hit. Contains entries.now hit.found.now) }
    ensures key { IfSome result (λ hit. key_kept hit.found.now.key ≡ function_key_of key.now) }
{
    let count = slots.len();
    if count == 0 {
        return None;
    }
    let mut at = hash_of_key(key) % count;
    let mut left = count;
    'slots: while left > 0 {
        left -= 1;
        let taken = slots[at];
        if taken == 0 {
            return None;
        }
        if let Some(hit) = hit_at(entries, taken - 1, key) {
            return Some(hit);
        }
        at = next_slot(at, count);
    }
    None
}

/// Writes into the first free slot, from the one on that a hash leads to.
fn fill(slots: &mut Vec<usize>, hash: usize, taken: usize) {
    let count = slots.len();
    if count == 0 {
        return;
    }
    let mut at = hash % count;
    let mut left = count;
    'slots: while left > 0 {
        left -= 1;
        if at >= slots.len() {
            return;
        }
        if slots[at] == 0 {
            slots[at] = taken;
            return;
        }
        at = next_slot(at % count, count);
    }
}

/// Makes slots, with the place of each entry in them.
fn slots_of<H>(
    alloc: Global,
    count: usize,
    entries: &[FnResolutionCacheEntry<H>],
) -> Result<Vec<usize>, AllocError> {
    let mut slots = vec![in alloc; 0; count]?;
    let mut at = 0;
    'entries: while at < entries.len() {
        let hash = entries[at].key.hash();
        at += 1;
        fill(&mut slots, hash, at);
    }
    Ok(slots)
}

impl Places {
    /// Creates places of no entry. It takes no memory.
    pub fn new(alloc: Global) -> Places {
        Places {
            slots: Vec::new(alloc),
            last: 0,
        }
    }

    /// Finds the entry of a key. The one that was found last is tried first.
    #[inline(always)]
    pub fn find<'c, H>(
        &self,
        entries: &'c [FnResolutionCacheEntry<H>],
        key: &FnKey<'_>,
    ) -> Option<Hit<'c, H>>
        ensures here { IfSome result (λ hit. Contains entries.now hit.found.now) }
        ensures key { IfSome result (λ hit. key_kept hit.found.now.key ≡ function_key_of key.now) }
    {
        match hit_at(entries, self.last, key) {
            Some(hit) => Some(hit),
            None => probe(self.slots.as_slice(), entries, key),
        }
    }

    /// Remembers where an entry was found.
    #[inline(always)]
    pub fn remember(&mut self, place: usize)
        ensures { self.new ≡ self.old }
    {
        self.last = place;
    }

    /// Makes room for one more entry, at most half of the slots being taken.
    pub fn make_room<H>(
        &mut self,
        alloc: Global,
        entries: &[FnResolutionCacheEntry<H>],
    ) -> Result<(), AllocError>
        ensures { self.new ≡ self.old }
    {
        let count = self.slots.len();
        if entries.len() < count / 2 {
            return Ok(());
        }
        let more = if count == 0 {
            FIRST_SLOTS
        } else {
            count.saturating_mul(2)
        };
        self.slots = slots_of(alloc, more, entries)?;
        Ok(())
    }

    /// Adds an entry: its key, and one more than its place.
    pub fn add(&mut self, key: &FnKey<'_>, taken: usize)
        ensures { self.new ≡ self.old }
    {
        fill(&mut self.slots, hash_of_key(key), taken);
    }
}
