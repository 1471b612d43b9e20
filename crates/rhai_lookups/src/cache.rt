//! One cache.

ghost use Rattle.std.specs.Prelude.{◌≡◌, [], ◌∷◌, ◌++◌, false, true, IfOk, IfSome, IsTrue, OnSome, Some};
ghost use Rattle.std.specs.Prelude.{None, length};
ghost use Rattle.std.specs.List.{All, Contains};
ghost use Rattle.rhai_functions.specs.Functions.{FunctionKey};
ghost use Rattle.rhai_functions.specs.Keys.{function_key_of};
ghost use Rattle.rhai_lookups.specs.Fits.{AllRight, FitsLists, FitsNow, IsCurrent};
ghost use Rattle.rhai_lookups.specs.Keys.{key_kept};
ghost use Rattle.rhai_lookups.specs.Levels.{empty_cache};
ghost use Rattle.rhai_lookups.specs.Lists.{extent_of, first_of, has_global, kept_of, with_import};

use crate::key::KeptKey;
use crate::places::{Hit, Places};
use rhai_functions::function::Function;
use rhai_functions::key::FnKey;
use rhai_tree::checked::CheckedFn;
use rhai_tree::{Items, Shared};
use rhai_values::base::value::EncapsulatedEnviron;
use std::alloc::{AllocError, Global};
use std::mem::replace;

/// How many libraries and imports there are.
#[derive(Clone, Copy, Debug)]
pub struct Extent {
    pub libs: usize,
    pub imports: usize,
}

impl Extent {
    /// Tells whether it is the same.
    #[inline(always)]
    pub(crate) fn is(self, other: Extent) -> bool
        ensures { IsTrue result → self ≡ other }
    {
        self.libs == other.libs && self.imports == other.imports
    }
}

/// What a lookup in libraries and imports came to.
pub struct Kept<H> {
    /// The function, if there is one.
    pub found: Option<Function<H>>,
    /// Whether a library has it.
    pub in_libraries: bool,
    /// Whether the name means something besides functions.
    pub is_word: bool,
}

// Written by hand, so that the crates above call this, and need not go through the fields.
impl<H: Drop> Drop for Kept<H> {
    fn drop(self) {
        let Kept {
            found: _,
            in_libraries: _,
            is_word: _,
        } = self;
    }
}

/// Shares an environment, if there is one.
fn share_environ<H: Drop>(
    environ: &Option<Shared<EncapsulatedEnviron<H>>>,
) -> Result<Option<Shared<EncapsulatedEnviron<H>>>, AllocError>
    ensures { IfOk result (λ shared. shared ≡ environ.now) }
{
    match environ {
        Some(environ) => Ok(Some(environ.share()?)),
        None => Ok(None),
    }
}

/// Shares a function, if there is one.
fn share_found<H: Drop>(found: &Option<Function<H>>) -> Result<Option<Function<H>>, AllocError>
    ensures { IfOk result (λ shared. shared ≡ found.now) }
{
    match found {
        Some(function) => {
            let environ = share_environ(&function.environ)?;
            let def = function.def.share()?;
            Ok(Some(Function { def, environ }))
        }
        None => Ok(None),
    }
}

impl<H: Drop> Kept<H> {
    /// Shares it. It copies nothing, and fails only where the function has too many owners to count.
    pub(crate) fn share(&self) -> Result<Kept<H>, AllocError>
        ensures { IfOk result (λ shared. shared ≡ self.now) }
    {
        let found = share_found(&self.found)?;
        Ok(Kept {
            found,
            in_libraries: self.in_libraries,
            is_word: self.is_word,
        })
    }

    /// Shares the function, where a library has it, it has no environment, and its name means nothing besides
    /// functions.
    #[inline(always)]
    pub(crate) fn plain(&self) -> Option<Shared<CheckedFn>>
        ensures libraries { OnSome result (self.now.in_libraries ≡ true) }
        ensures meaning { OnSome result (self.now.is_word ≡ false) }
        ensures found { IfSome result (λ def. self.now.found ≡ Some (record { def = def; environ = None })) }
    {
        if !self.in_libraries || self.is_word {
            return None;
        }
        match &self.found {
            Some(function) => match &function.environ {
                Some(_) => None,
                None => function.def.share().ok(),
            },
            None => None,
        }
    }

    /// Gives the function, if there is one, and whether a library has it.
    pub fn into_found(self) -> (Option<Function<H>>, bool)
        ensures { result ≡ (self.found, self.in_libraries) }
    {
        let Kept {
            found,
            in_libraries,
            is_word: _,
        } = self;
        (found, in_libraries)
    }
}

/// What is kept of the lookup of a key. Ports upstream's `FnResolutionCacheEntry`.
pub struct FnResolutionCacheEntry<H> {
    pub key: KeptKey,
    pub kept: Kept<H>,
}

// Written by hand, as that of what is kept is.
impl<H: Drop> Drop for FnResolutionCacheEntry<H> {
    fn drop(self) {
        let FnResolutionCacheEntry { key: _, kept: _ } = self;
    }
}

/// What lookups came to in the first so many libraries and imports. Ports upstream's `FnResolutionCache`.
pub struct FnResolutionCache<H> {
    extent: Extent,
    entries: Items<FnResolutionCacheEntry<H>>,
    places: Places,
}

// Written by hand, as that of what is kept is.
impl<H: Drop> Drop for FnResolutionCache<H> {
    fn drop(self) {
        let FnResolutionCache {
            extent: _,
            entries: _,
            places: _,
        } = self;
    }
}

impl<H: Drop> FnResolutionCache<H> {
    /// Creates a cache without entries, of no library and no import. It takes no memory.
    pub(crate) fn new(alloc: Global) -> FnResolutionCache<H>
        ensures { result ≡ empty_cache }
    {
        FnResolutionCache {
            extent: Extent {
                libs: 0,
                imports: 0,
            },
            entries: Items::new(alloc),
            places: Places::new(alloc),
        }
    }

    /// Counts the entries.
    pub(crate) fn len(&self) -> usize
        ensures { result ≡ length self.now.entries }
    {
        self.entries.len()
    }

    /// Finds what is kept of a key, where the cache is of so many libraries and imports.
    #[inline(always)]
    pub(crate) fn find(&self, extent: Extent, key: &FnKey<'_>) -> Option<Hit<'_, H>>
        ensures { (lists : _) → extent ≡ extent_of lists → FitsNow lists self.now →
            IfSome result (λ hit. hit.found.now.kept ≡ kept_of lists (function_key_of key.now)) }
    {
        if self.extent.is(extent) {
            self.places.find(self.entries.as_slice(), key)
        } else {
            None
        }
    }

    /// Remembers where an entry was found.
    #[inline(always)]
    pub(crate) fn remember(&mut self, place: usize)
        ensures { self.new ≡ self.old }
    {
        self.places.remember(place);
    }

    /// Makes it a cache of so many libraries and imports. What it found in others is let go of.
    pub(crate) fn set_extent(&mut self, extent: Extent)
        ensures { (lists : _) → extent ≡ extent_of lists → FitsNow lists self.old → IsCurrent lists self.new }
    {
        if self.extent.is(extent) {
            return;
        }
        let alloc = self.entries.allocator();
        let emptied = FnResolutionCache {
            extent,
            entries: Items::new(alloc),
            places: Places::new(alloc),
        };
        drop(replace(self, emptied));
    }

    /// Adds an entry, where there is memory for it and it is not one too many.
    fn add(&mut self, most: usize, key: &FnKey<'_>, kept: &Kept<H>) -> Result<(), AllocError>
        ensures extent { self.new.extent ≡ self.old.extent }
        ensures right { (finds : FunctionKey → _) → kept.now ≡ finds (function_key_of key.now) →
            AllRight finds self.old → AllRight finds self.new }
    {
        let count = self.entries.len();
        if count >= most {
            return Ok(());
        }
        let alloc = self.entries.allocator();
        let key_of_entry = KeptKey::new(alloc, key)?;
        let shared = kept.share()?;
        self.places.make_room(alloc, self.entries.as_slice())?;
        self.entries.push(FnResolutionCacheEntry {
            key: key_of_entry,
            kept: shared,
        })?;
        self.places.add(key, count + 1);
        Ok(())
    }

    /// Keeps what a lookup in so many libraries and imports came to. Where there is no memory, or there are
    /// as many entries as there may be, it is not kept.
    #[inline(never)]
    pub(crate) fn keep(&mut self, most: usize, extent: Extent, key: &FnKey<'_>, kept: &Kept<H>)
        ensures { (lists : _) → extent ≡ extent_of lists →
            kept.now ≡ kept_of lists (function_key_of key.now) →
            FitsNow lists self.old → IsCurrent lists self.new }
    {
        self.set_extent(extent);
        drop(self.add(most, key, kept));
    }

    /// Lets go of all entries, where it was made for more than so many libraries or imports.
    pub(crate) fn cut(&mut self, extent: Extent)
        ensures { (lists : _) → FitsLists lists self.old → FitsLists (first_of lists extent) self.new }
    {
        if self.extent.libs <= extent.libs && self.extent.imports <= extent.imports {
            return;
        }
        let alloc = self.entries.allocator();
        drop(replace(self, FnResolutionCache::new(alloc)));
    }

    /// Makes a cache of all imports one of all and another, in which no function is found without its name.
    pub(crate) fn raise(&mut self, from: Extent, to: Extent)
        ensures { (lists : _) (added : _) → from ≡ extent_of lists →
            to ≡ extent_of (with_import lists added) →
            has_global added ≡ false → FitsLists lists self.old →
            FitsLists (with_import lists added) self.new }
    {
        if self.extent.is(from) {
            self.extent = to;
        }
    }
}
