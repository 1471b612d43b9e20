//! The caches of a run.

ghost use Rattle.std.specs.Prelude.{◌≡◌, ◌<◌, ◌-◌, ◌^◌, [], ◌∷◌, ◌++◌, true, false, min, take, length};
ghost use Rattle.std.specs.Prelude.{IfSome, IsOk, OnOk, OnErr};
ghost use Rattle.std.specs.List.{All};
ghost use Rattle.rhai_functions.specs.Keys.{function_key_of};
ghost use Rattle.rhai_lookups.specs.Fits.{FitsLists};
ghost use Rattle.rhai_lookups.specs.Levels.{AllFit, CachesFit, NewestFits, NewestIsCurrent, alone, begun};
ghost use Rattle.rhai_lookups.specs.Levels.{below_of};
ghost use Rattle.rhai_lookups.specs.Levels.{caches_after_push, caches_of, depth_of, emptied, empty_cache};
ghost use Rattle.rhai_lookups.specs.Levels.{entries_of};
ghost use Rattle.rhai_lookups.specs.Levels.{given_back, is_empty_in, is_on, put_newest, stacked};
ghost use Rattle.rhai_lookups.specs.Lists.{extent_of, first_of, has_global, kept_of, with_import};

use crate::cache::{Extent, FnResolutionCache, Kept};
use crate::places::Hit;
use rhai_functions::key::FnKey;
use rhai_tree::Items;
use std::alloc::{AllocError, Global};
use std::mem::replace;

/// How many entries a cache keeps at most.
const MOST_ENTRIES: usize = 1_000_000;

/// At least one cache. The newest stands by itself, so that the first takes no memory.
pub struct Stack<H> {
    top: FnResolutionCache<H>,
    below: Items<FnResolutionCache<H>>,
}

// Written by hand, so that the crates above call this, and need not go through the caches.
impl<H: Drop> Drop for Stack<H> {
    fn drop(self) {
        let Stack { top: _, below: _ } = self;
    }
}

/// The caches, if they are on and there are any.
#[derive(Drop)]
pub enum Levels<H> {
    Off,
    Empty,
    Filled(Stack<H>),
}

/// The caches of function lookups, one for each state of the libraries and imports that a run has come
/// through. Ports upstream's `Caches`.
pub struct Caches<H> {
    alloc: Global,
    most_entries: usize,
    levels: Levels<H>,
}

// Written by hand, as that of the stack is.
impl<H: Drop> Drop for Caches<H> {
    fn drop(self) {
        let Caches {
            alloc: _,
            most_entries: _,
            levels: _,
        } = self;
    }
}

impl<H: Drop> Stack<H> {
    /// Puts a cache without entries above the others. Where there is no memory they stay.
    fn push(&mut self, alloc: Global) -> Result<(), AllocError>
        ensures ok { OnOk result (stacked self.new ≡ stacked self.old ++ empty_cache ∷ []) }
        ensures top { OnOk result (self.new.top ≡ empty_cache) }
        ensures err { OnErr result (self.new ≡ self.old) }
    {
        let top = replace(&mut self.top, FnResolutionCache::new(alloc));
        match self.below.try_push(top) {
            Ok(()) => Ok(()),
            Err(failed) => {
                drop(replace(&mut self.top, failed.value));
                Err(AllocError)
            }
        }
    }

    /// Lets go of the newest caches, so that at most so many are left.
    fn rewind(&mut self, len: usize)
        requires { 0 < len }
        ensures { stacked self.new ≡ take len (stacked self.old) }
    {
        if len > self.below.len() {
            return;
        }
        self.below.truncate(len);
        match self.below.pop() {
            Some(top) => drop(replace(&mut self.top, top)),
            None => {}
        }
    }

    /// Gives the newest cache.
    fn into_top(self) -> FnResolutionCache<H>
        ensures { result ≡ self.top }
    {
        let Stack { top, below: _ } = self;
        top
    }

    /// Lets go of what caches of more than so many libraries or imports have.
    fn cut(&mut self, extent: Extent)
        ensures { (lists : _) → All (FitsLists lists) (stacked self.old) →
            All (FitsLists (first_of lists extent)) (stacked self.new) }
    {
        self.top.cut(extent);
        cut_all(&mut self.below, extent);
    }
}

/// Lets go of what caches of more than so many libraries or imports have.
fn cut_all<H: Drop>(caches: &mut Items<FnResolutionCache<H>>, extent: Extent)
    ensures { (lists : _) → All (FitsLists lists) caches.old →
        All (FitsLists (first_of lists extent)) caches.new }
{
    let mut at = 0;
    'caches: while at < caches.len() {
        let cache = caches.at_mut(at);
        cache.cut(extent);
        at += 1;
    }
}

impl<H: Drop> Caches<H> {
    /// Creates caches that are on, with none yet. They fit all libraries and imports. It takes no memory.
    /// Ports upstream's `Caches::new`.
    pub fn new(alloc: Global) -> Caches<H>
        ensures on { is_on result ≡ true }
        ensures none { caches_of result ≡ [] }
        ensures fit { (lists : _) → CachesFit lists result }
    {
        Caches::with_most_entries(alloc, MOST_ENTRIES)
    }

    /// Creates caches that are on, of which each keeps at most so many entries. A lookup past them is
    /// answered and not kept.
    pub fn with_most_entries(alloc: Global, most_entries: usize) -> Caches<H>
        ensures on { is_on result ≡ true }
        ensures none { caches_of result ≡ [] }
        ensures fit { (lists : _) → CachesFit lists result }
    {
        Caches {
            alloc,
            most_entries,
            levels: Levels::Empty,
        }
    }

    /// Creates caches that are off: they keep nothing, and there are none. They fit all libraries and
    /// imports.
    pub fn off(alloc: Global) -> Caches<H>
        ensures off { is_on result ≡ false }
        ensures none { caches_of result ≡ [] }
        ensures fit { (lists : _) → CachesFit lists result }
    {
        Caches {
            alloc,
            most_entries: 0,
            levels: Levels::Off,
        }
    }

    /// Counts the caches, as far as a `usize` goes.
    #[inline(always)]
    pub fn len(&self) -> usize
        ensures { result ≡ min (depth_of self.now) (2 ^ 64 - 1) }
    {
        match &self.levels {
            Levels::Filled(stack) => stack.below.len().saturating_add(1),
            Levels::Empty => 0,
            Levels::Off => 0,
        }
    }

    /// Counts the entries of the newest cache. There are none where the caches are off or there is none.
    pub fn entries(&self) -> usize
        ensures { result ≡ length (entries_of self.now) }
    {
        match &self.levels {
            Levels::Filled(stack) => stack.top.len(),
            Levels::Empty => 0,
            Levels::Off => 0,
        }
    }

    /// Tells whether the caches are on.
    pub fn is_on(&self) -> bool
        ensures { result ≡ is_on self.now }
    {
        match &self.levels {
            Levels::Filled(_) => true,
            Levels::Empty => true,
            Levels::Off => false,
        }
    }

    /// Adds a cache without entries, but where the caches are off; such caches fit all libraries and imports.
    /// The first takes no memory. Where there is no memory the caches stay. Ports upstream's
    /// `Caches::push_fn_resolution_cache`.
    pub fn push(&mut self) -> Result<(), AllocError>
        ensures ok { OnOk result (caches_of self.new ≡ caches_after_push self.old) }
        ensures err { OnErr result (self.new ≡ self.old) }
        ensures off { is_on self.old ≡ false → IsOk result }
        ensures first { caches_of self.old ≡ [] → IsOk result }
        ensures on { is_on self.new ≡ is_on self.old }
        ensures fit { (lists : _) → OnOk result (CachesFit lists self.new) }
    {
        let alloc = self.alloc;
        let is_first = self.begin();
        if is_first {
            return Ok(());
        }
        match &mut self.levels {
            Levels::Filled(stack) => stack.push(alloc),
            Levels::Empty => Ok(()),
            Levels::Off => Ok(()),
        }
    }

    /// Lets go of the newest caches, so that at most `len` are left. Ports upstream's
    /// `Caches::rewind_fn_resolution_caches`.
    pub fn rewind(&mut self, len: usize)
        ensures stays { caches_of self.new ≡ take len (caches_of self.old) }
        ensures on { is_on self.new ≡ is_on self.old }
    {
        if len == 0 {
            self.clear();
            return;
        }
        match &mut self.levels {
            Levels::Filled(stack) => stack.rewind(len),
            Levels::Empty => {}
            Levels::Off => {}
        }
    }

    /// Lets go of all caches. What is left fits all libraries and imports.
    pub fn clear(&mut self)
        ensures none { caches_of self.new ≡ [] }
        ensures on { is_on self.new ≡ is_on self.old }
        ensures fit { (lists : _) → CachesFit lists self.new }
    {
        match &self.levels {
            Levels::Filled(_) => {}
            Levels::Empty => return,
            Levels::Off => return,
        }
        drop(replace(&mut self.levels, Levels::Empty));
    }

    /// Adds a cache where the caches are on and there is none, and tells whether it did. It takes no memory.
    #[inline(always)]
    pub(crate) fn begin(&mut self) -> bool
        ensures levels { self.new ≡ record self.old { levels = begun self.old.levels } }
        ensures added { result ≡ is_empty_in self.old.levels }
    {
        match &self.levels {
            Levels::Filled(_) => return false,
            Levels::Empty => {}
            Levels::Off => return false,
        }
        let stack = Stack {
            top: FnResolutionCache::new(self.alloc),
            below: Items::new(self.alloc),
        };
        drop(replace(&mut self.levels, Levels::Filled(stack)));
        true
    }

    /// Lets go of what the newest cache has.
    pub(crate) fn renew(&mut self)
        ensures { self.new ≡ record self.old { levels = emptied self.old.levels } }
    {
        let alloc = self.alloc;
        match &mut self.levels {
            Levels::Filled(stack) => drop(replace(&mut stack.top, FnResolutionCache::new(alloc))),
            Levels::Empty => {}
            Levels::Off => {}
        }
    }

    /// Lets go of what caches of more than so many libraries or imports have.
    pub(crate) fn cut(&mut self, extent: Extent)
        ensures { (lists : _) → AllFit lists self.old.levels →
            AllFit (first_of lists extent) self.new.levels }
    {
        match &mut self.levels {
            Levels::Filled(stack) => stack.cut(extent),
            Levels::Empty => {}
            Levels::Off => {}
        }
    }

    /// Lets the newest cache know of one more import, in which no function is found without its name.
    pub(crate) fn raise(&mut self, from: Extent, to: Extent)
        ensures { (lists : _) (added : _) → from ≡ extent_of lists →
            to ≡ extent_of (with_import lists added) →
            has_global added ≡ false → AllFit lists self.old.levels →
            AllFit (with_import lists added) self.new.levels }
    {
        match &mut self.levels {
            Levels::Filled(stack) => stack.top.raise(from, to),
            Levels::Empty => {}
            Levels::Off => {}
        }
    }

    /// Lets go of what the newest cache has of other libraries and imports than so many.
    pub(crate) fn settle(&mut self, extent: Extent)
        ensures current { (lists : _) → extent ≡ extent_of lists → NewestFits lists self.old.levels →
            NewestIsCurrent lists self.new.levels }
        ensures below { below_of self.new ≡ below_of self.old }
        ensures depth { depth_of self.new ≡ depth_of self.old }
        ensures on { is_on self.new ≡ is_on self.old }
    {
        match &mut self.levels {
            Levels::Filled(stack) => stack.top.set_extent(extent),
            Levels::Empty => {}
            Levels::Off => {}
        }
    }

    /// Finds what the newest cache has of a key, where it is of so many libraries and imports.
    #[inline(always)]
    pub(crate) fn known(&self, extent: Extent, key: &FnKey<'_>) -> Option<Hit<'_, H>>
        ensures { (lists : _) → extent ≡ extent_of lists → NewestFits lists self.now.levels →
            IfSome result (λ hit. hit.found.now.kept ≡ kept_of lists (function_key_of key.now)) }
    {
        match &self.levels {
            Levels::Filled(stack) => stack.top.find(extent, key),
            Levels::Empty => None,
            Levels::Off => None,
        }
    }

    /// Remembers where the newest cache has an entry.
    #[inline(always)]
    pub(crate) fn remember(&mut self, place: usize)
        ensures { self.new ≡ self.old }
    {
        match &mut self.levels {
            Levels::Filled(stack) => stack.top.remember(place),
            Levels::Empty => {}
            Levels::Off => {}
        }
    }

    /// Keeps in the newest cache, if there is one, what a lookup in so many libraries and imports came to.
    pub(crate) fn keep(&mut self, extent: Extent, key: &FnKey<'_>, kept: &Kept<H>)
        ensures current { (lists : _) → extent ≡ extent_of lists →
            kept.now ≡ kept_of lists (function_key_of key.now) → NewestFits lists self.old.levels →
            NewestIsCurrent lists self.new.levels }
        ensures below { below_of self.new ≡ below_of self.old }
        ensures depth { depth_of self.new ≡ depth_of self.old }
        ensures on { is_on self.new ≡ is_on self.old }
    {
        let most = self.most_entries;
        match &mut self.levels {
            Levels::Filled(stack) => stack.top.keep(most, extent, key, kept),
            Levels::Empty => {}
            Levels::Off => {}
        }
    }

    /// Takes the newest cache for a run. One without entries stands in its place until `give_back`.
    pub(crate) fn lend(&mut self) -> Caches<H>
        ensures run { result.levels ≡ alone self.old.levels }
        ensures left { self.new ≡ record self.old { levels = emptied self.old.levels } }
    {
        let alloc = self.alloc;
        let levels = match &mut self.levels {
            Levels::Off => Levels::Off,
            Levels::Empty => Levels::Empty,
            Levels::Filled(stack) => Levels::Filled(Stack {
                top: replace(&mut stack.top, FnResolutionCache::new(alloc)),
                below: Items::new(alloc),
            }),
        };
        Caches {
            alloc,
            most_entries: self.most_entries,
            levels,
        }
    }

    /// Puts a cache in the place of the newest, where the caches are on.
    fn put(&mut self, cache: FnResolutionCache<H>)
        ensures { self.new ≡ record self.old { levels = put_newest self.old.levels cache } }
    {
        self.begin();
        match &mut self.levels {
            Levels::Filled(stack) => drop(replace(&mut stack.top, cache)),
            Levels::Empty => drop(cache),
            Levels::Off => drop(cache),
        }
    }

    /// Puts the newest cache of a run in the place of the newest.
    pub(crate) fn give_back(&mut self, run: Caches<H>)
        ensures { self.new ≡ record self.old { levels = given_back self.old.levels run.levels } }
    {
        let Caches {
            alloc: _,
            most_entries: _,
            levels,
        } = run;
        match levels {
            Levels::Filled(own) => self.put(own.into_top()),
            Levels::Empty => self.renew(),
            Levels::Off => self.renew(),
        }
    }
}
