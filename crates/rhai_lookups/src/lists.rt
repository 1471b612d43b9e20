//! The libraries and imports of a run, with what lookups found in them.

ghost use Rattle.std.specs.Prelude.{◌≡◌, ◌≤◌, [], ◌∷◌, ◌++◌, false, true, is_some, length, max, take};
ghost use Rattle.std.specs.Prelude.{IfOk, IfSome, OnOk, OnErr, OnSome, None, Some};
ghost use Rattle.std.specs.Option.{option_map};
ghost use Rattle.rhai_functions.specs.Called.{function_of};
ghost use Rattle.rhai_functions.specs.Functions.{found_in, in_imports, in_modules};
ghost use Rattle.rhai_functions.specs.Keys.{function_key_of};
ghost use Rattle.rhai_functions.specs.Words.{has_own_meaning as own_meaning};
ghost use Rattle.rhai_lookups.specs.Levels.{AllFit, CachesFit, EntriesRight, NewestFits, NewestIsCurrent};
ghost use Rattle.rhai_lookups.specs.Levels.{below_of, depth_of, emptied, is_on};
ghost use Rattle.rhai_lookups.specs.Lists.{among, extent_of, has_global as is_global_in, kept_of};
ghost use Rattle.rhai_lookups.specs.Lists.{with_import, with_library};

use crate::cache::{Extent, Kept};
use crate::caches::Caches;
use rhai_functions::function::{Function, share_function};
use rhai_functions::key::FnKey;
use rhai_functions::lookup::{find_function, find_in_modules};
use rhai_functions::words::has_own_meaning;
use rhai_state::session::Offered;
use rhai_tree::checked::CheckedFn;
use rhai_tree::{Items, Shared};
use rhai_values::base::value::{Import, Module};
use std::alloc::{AllocError, Global};
use std::marker::Model;

/// Counts libraries and imports.
#[inline(always)]
fn count<H>(lib: &Items<Shared<Module<H>>>, imports: &Items<Import<H>>) -> Extent
    ensures { result ≡ extent_of (lib.now, imports.now) }
{
    Extent {
        libs: lib.len(),
        imports: imports.len(),
    }
}

/// Tells whether an import has a function that may be found without the import's name.
fn has_global<H>(import: &Import<H>) -> bool
    ensures { result ≡ is_global_in import.now }
{
    let functions = import.module.get().functions.as_slice();
    let mut at = 0;
    'functions: while at < functions.len() {
        let is_global = functions[at].is_global;
        if is_global {
            return true;
        }
        at += 1;
    }
    false
}

/// Looks for the function of a key through imports alone.
fn find_imported<H: Drop>(
    key: FnKey<'_>,
    imports: &[Import<H>],
) -> Result<Option<Function<H>>, AllocError>
    ensures { IfOk result (λ found. found ≡ option_map function_of (in_imports (function_key_of key.entry)
        imports.now)) }
{
    match find_function(key, &[], &[], imports, &[]) {
        Some(function) => Ok(Some(share_function(function)?)),
        None => Ok(None),
    }
}

/// Looks for the function of a key through libraries and imports.
fn search<H: Drop>(
    key: FnKey<'_>,
    lib: &[Shared<Module<H>>],
    imports: &[Import<H>],
) -> Result<Kept<H>, AllocError>
    ensures { IfOk result (λ kept. kept ≡ kept_of (lib.now, imports.now) (function_key_of key.entry)) }
{
    let is_word = has_own_meaning(key.name);
    if let Some(function) = find_in_modules(lib, key) {
        let function = share_function(function)?;
        return Ok(Kept {
            found: Some(function),
            in_libraries: true,
            is_word,
        });
    }
    let found = find_imported(key, imports)?;
    Ok(Kept {
        found,
        in_libraries: false,
        is_word,
    })
}

/// Tells what libraries and imports have of a key: from the newest cache, or by a search that is kept there.
fn look_up<H: Drop>(
    lib: &Items<Shared<Module<H>>>,
    imports: &Items<Import<H>>,
    caches: &mut Caches<H>,
    key: &FnKey<'_>,
) -> Result<Kept<H>, AllocError>
    ensures kept { AllFit (lib.now, imports.now) caches.old.levels →
        IfOk result (λ kept. kept ≡ kept_of (lib.now, imports.now) (function_key_of key.now)) }
    ensures all { AllFit (lib.now, imports.now) caches.old.levels →
        AllFit (lib.now, imports.now) caches.new.levels }
{
    let extent = count(lib, imports);
    if let Some(hit) = caches.known(extent, key) {
        let kept = hit.found.kept.share();
        let place = hit.place;
        caches.remember(place);
        return kept;
    }
    let kept = search(*key, lib.as_slice(), imports.as_slice())?;
    caches.keep(extent, key, &kept);
    Ok(kept)
}

/// Tells which function of a library a plain call of a key means: from the newest cache, or by a search that
/// is kept there.
#[inline(always)]
fn plain_in<H: Drop>(
    lib: &Items<Shared<Module<H>>>,
    imports: &Items<Import<H>>,
    caches: &mut Caches<H>,
    key: &FnKey<'_>,
) -> Option<Shared<CheckedFn>>
    ensures found { AllFit (lib.now, imports.now) caches.old.levels → IfSome result (λ def.
        option_map function_of (in_modules (function_key_of key.now) lib.now) ≡ Some
        (record { def = def; environ = None })) }
    ensures meaning { AllFit (lib.now, imports.now) caches.old.levels →
        OnSome result (own_meaning key.now.name.now ≡ false) }
    ensures all { AllFit (lib.now, imports.now) caches.old.levels →
        AllFit (lib.now, imports.now) caches.new.levels }
{
    let extent = count(lib, imports);
    if let Some(hit) = caches.known(extent, key) {
        let def = hit.found.kept.plain();
        let place = hit.place;
        caches.remember(place);
        return def;
    }
    let kept = look_up(lib, imports, caches, key).ok()?;
    kept.plain()
}

/// Tells whether libraries or imports have a function of a key.
fn is_there<H: Drop>(
    lib: &Items<Shared<Module<H>>>,
    imports: &Items<Import<H>>,
    caches: &mut Caches<H>,
    key: &FnKey<'_>,
) -> bool
    ensures found { NewestFits (lib.now, imports.now) caches.old.levels →
        result ≡ is_some (among (function_key_of key.now) (lib.now, imports.now)) }
    ensures current { NewestIsCurrent (lib.now, imports.now) caches.old.levels →
        NewestIsCurrent (lib.now, imports.now) caches.new.levels }
    ensures all { AllFit (lib.now, imports.now) caches.old.levels →
        AllFit (lib.now, imports.now) caches.new.levels }
    ensures below { below_of caches.new ≡ below_of caches.old }
    ensures depth { depth_of caches.new ≡ depth_of caches.old }
    ensures on { is_on caches.new ≡ is_on caches.old }
{
    let extent = count(lib, imports);
    if let Some(hit) = caches.known(extent, key) {
        let is_found = hit.found.kept.found.is_some();
        let place = hit.place;
        caches.remember(place);
        return is_found;
    }
    let is_found = find_function(*key, lib.as_slice(), &[], imports.as_slice(), &[]).is_some();
    if let Ok(kept) = search(*key, lib.as_slice(), imports.as_slice()) {
        caches.keep(extent, key, &kept);
    }
    is_found
}

/// Tells whether one of an engine's modules has a function of a key.
fn is_offered<H>(key: FnKey<'_>, offered: &Offered<'_, H>) -> bool
    ensures { result ≡ is_some (found_in (function_key_of key.entry) [] offered.now.global_modules.now []
        offered.now.global_sub_modules.now.1) }
{
    let named = offered.global_sub_modules.values();
    find_function(key, &[], offered.global_modules, &[], named).is_some()
}

/// Tells whether there is a function of a key, where a run looks for it.
fn has_in<H: Drop>(
    lib: &Items<Shared<Module<H>>>,
    imports: &Items<Import<H>>,
    caches: &mut Caches<H>,
    key: &FnKey<'_>,
    offered: &Offered<'_, H>,
) -> bool
    ensures found { AllFit (lib.now, imports.now) caches.old.levels → result ≡ is_some (found_in
        (function_key_of key.now)
        lib.now offered.now.global_modules.now imports.now offered.now.global_sub_modules.now.1) }
    ensures all { AllFit (lib.now, imports.now) caches.old.levels →
        AllFit (lib.now, imports.now) caches.new.levels }
{
    let is_found = is_there(lib, imports, caches, key);
    if is_found {
        return true;
    }
    is_offered(*key, offered)
}

/// Tells which function a key means, from what the libraries and imports have of it. The engine's modules
/// come between and behind these.
fn decide<H: Drop>(
    key: FnKey<'_>,
    offered: &Offered<'_, H>,
    kept: Kept<H>,
) -> Result<Option<Function<H>>, AllocError>
    ensures { (lists : _) → kept ≡ kept_of lists (function_key_of key.entry) → IfOk result (λ found.
        found ≡ option_map function_of (found_in (function_key_of key.entry)
        lists.0 offered.now.global_modules.now
        lists.1 offered.now.global_sub_modules.now.1)) }
{
    let (found, in_libraries) = kept.into_found();
    if in_libraries {
        return Ok(found);
    }
    if let Some(function) = find_in_modules(offered.global_modules, key) {
        return Ok(Some(share_function(function)?));
    }
    if found.is_some() {
        return Ok(found);
    }
    let named = offered.global_sub_modules.values();
    match find_function(key, &[], &[], &[], named) {
        Some(function) => Ok(Some(share_function(function)?)),
        None => Ok(None),
    }
}

/// Tells whether there is a function of a key, where a run over these libraries and imports would find it. It
/// asks and fills the caches of a caller, and takes no memory but for that.
pub fn has_function<H: Drop>(
    key: &FnKey<'_>,
    offered: &Offered<'_, H>,
    lib: &Items<Shared<Module<H>>>,
    imports: &Items<Import<H>>,
    caches: &mut Caches<H>,
) -> bool
    requires fit { CachesFit (lib.now, imports.now) caches.old }
    ensures found { result ≡ is_some (found_in (function_key_of key.now)
        lib.now offered.now.global_modules.now
        imports.now offered.now.global_sub_modules.now.1) }
    ensures fit { CachesFit (lib.now, imports.now) caches.new }
    ensures right { EntriesRight (lib.now, imports.now) caches.new }
    ensures below { below_of caches.new ≡ below_of caches.old }
    ensures depth { depth_of caches.new ≡ depth_of caches.old }
    ensures on { is_on caches.new ≡ is_on caches.old }
{
    let extent = count(lib, imports);
    caches.settle(extent);
    let is_found = is_there(lib, imports, caches, key);
    if is_found {
        return true;
    }
    is_offered(*key, offered)
}

/// Where the caches stood as a list of statements began.
#[derive(Clone, Copy, Debug)]
pub struct Mark {
    depth: usize,
    found: usize,
}

/// The libraries and imports of a run, with caches of what lookups found in them. Contracts see the two lists
/// alone.
pub struct Lists<H> {
    lib: Items<Shared<Module<H>>>,
    imports: Items<Import<H>>,
    caches: Caches<H>,
    /// How many caches the current list of statements found, and 0 where it takes nothing back.
    found: usize,
}

// Written by hand, so that the crates above call this, and need not go through the fields.
impl<H: Drop> Drop for Lists<H> {
    fn drop(self) {
        let Lists {
            lib: _,
            imports: _,
            caches: _,
            found: _,
        } = self;
    }
}

impl<H> Model for Lists<H> {
    ghost use Rattle.std.specs.Prelude.{List};
    ghost use Rattle.std.specs.Coded.{coded×, coded_list};
    ghost use Rattle.rhai_values.specs.declared.base.value.Import.{Import};
    ghost use Rattle.rhai_values.specs.declared.base.value.Module.{Module};
    ghost use Rattle.rhai_lookups.specs.Codes.{code_of_import, code_of_module};

    ghost Value = { List (Module H) × List (Import H) };

    ghost coded = { coded× (coded_list (code_of_module H.code)) (coded_list (code_of_import H.code)) };

    ghost use Rattle.rhai_lookups.specs.Levels.{AllFit};

    ghost view = { λ l. (l.lib, l.imports) };

    ghost invariant = { λ l. AllFit (l.lib, l.imports) l.caches.levels };
}

impl<H> Lists<H> {
    /// Lends the libraries, first to last.
    pub fn lib(&self) -> &[Shared<Module<H>>]
        ensures { result.now ≡ self.now.0 }
    {
        self.lib.as_slice()
    }

    /// Lends the imports, the newest last.
    pub fn imports(&self) -> &[Import<H>]
        ensures { result.now ≡ self.now.1 }
    {
        self.imports.as_slice()
    }
}

impl<H: Drop> Lists<H> {
    /// Takes a caller's libraries and imports, and its newest cache, in whose place one without entries
    /// stands until `into_parts`. It takes no memory.
    pub fn from_parts(
        lib: Items<Shared<Module<H>>>,
        imports: Items<Import<H>>,
        caches: &mut Caches<H>,
    ) -> Lists<H>
        requires fit { CachesFit (lib, imports) caches.old }
        ensures lists { result ≡ (lib, imports) }
        ensures caches { caches.new ≡ record caches.old { levels = emptied caches.old.levels } }
    {
        let mut own = caches.lend();
        let extent = count(&lib, &imports);
        own.settle(extent);
        Lists {
            lib,
            imports,
            caches: own,
            found: 0,
        }
    }

    /// Gives the libraries and imports, and puts the oldest of the run's caches in the place of the caller's
    /// newest. It takes no memory.
    pub fn into_parts(self, caches: &mut Caches<H>) -> (Items<Shared<Module<H>>>, Items<Import<H>>)
        ensures lists { result ≡ self }
        ensures fit { CachesFit self caches.new }
        ensures right { EntriesRight self caches.new }
        ensures below { below_of caches.new ≡ below_of caches.old }
        ensures depth { depth_of caches.new ≤ max 1 (depth_of caches.old) }
        ensures on { is_on caches.new ≡ is_on caches.old }
    {
        let Lists {
            lib,
            imports,
            caches: mut own,
            found: _,
        } = self;
        own.rewind(1);
        let extent = count(&lib, &imports);
        own.settle(extent);
        caches.give_back(own);
        (lib, imports)
    }

    /// Finds a cache for a list of statements that is done at once, where they are on. It takes no memory.
    #[inline(always)]
    pub fn begin(&mut self)
        ensures { self.new ≡ self.old }
    {
        self.caches.begin();
    }

    /// Begins a list of statements, which takes its imports back at its end or does not. It finds a cache,
    /// where they are on. It takes no memory.
    #[inline(always)]
    pub fn begin_list(&mut self, restores: bool) -> Mark
        ensures { self.new ≡ self.old }
    {
        self.caches.begin();
        let depth = self.caches.len();
        let mark = Mark {
            depth,
            found: self.found,
        };
        self.found = if restores { depth } else { 0 };
        mark
    }

    /// Ends a list of statements: the caches that were added since its start go.
    #[inline(always)]
    pub fn end(&mut self, mark: Mark)
        ensures { self.new ≡ self.old }
    {
        self.found = mark.found;
        if self.caches.len() > mark.depth {
            self.caches.rewind(mark.depth);
        }
    }

    /// Begins a call of a function with an environment, which gets a cache of its own before its libraries
    /// and imports come. Where there is no memory none is added.
    pub fn begin_call(&mut self) -> Result<(), AllocError>
        ensures { self.new ≡ self.old }
    {
        self.caches.push()
    }

    /// Ends such a call: its cache goes.
    pub fn end_call(&mut self)
        ensures { self.new ≡ self.old }
    {
        let depth = self.caches.len();
        self.caches.rewind(depth.saturating_sub(1));
    }

    /// Makes place for functions that are found without their import's name. The current list gets a cache of
    /// its own, or lets go of what that has; so does a list that takes nothing back.
    fn make_place(&mut self) -> Result<(), AllocError>
        ensures { self.new ≡ self.old }
    {
        let depth = self.caches.len();
        if depth > self.found {
            self.caches.renew();
            return Ok(());
        }
        if depth == 0 {
            return Ok(());
        }
        self.caches.push()
    }

    /// Adds an import in which no function is found without its name: what the newest cache has stays right.
    fn push_hidden(&mut self, import: Import<H>) -> Result<(), AllocError>
        requires { is_global_in import ≡ false }
        ensures ok { OnOk result (self.new ≡ with_import self.old import) }
        ensures err { OnErr result (self.new ≡ self.old) }
    {
        let from = count(&self.lib, &self.imports);
        self.imports.push(import)?;
        let to = count(&self.lib, &self.imports);
        self.caches.raise(from, to);
        Ok(())
    }

    /// Adds an import, whatever is found in it.
    fn push_shown(&mut self, import: Import<H>) -> Result<(), AllocError>
        ensures ok { OnOk result (self.new ≡ with_import self.old import) }
        ensures err { OnErr result (self.new ≡ self.old) }
    {
        self.imports.push(import)?;
        Ok(())
    }

    /// Adds an import. Where there is no memory the lists stay. Ports upstream's
    /// `GlobalRuntimeState::push_import` and what an `import` does to the caches.
    pub fn push_import(&mut self, import: Import<H>) -> Result<(), AllocError>
        ensures ok { OnOk result (self.new ≡ with_import self.old import) }
        ensures err { OnErr result (self.new ≡ self.old) }
    {
        let shows = has_global(&import);
        if shows {
            self.make_place()?;
            return self.push_shown(import);
        }
        self.push_hidden(import)
    }

    /// Adds a library behind the others. Where there is no memory the lists stay.
    pub fn push_lib(&mut self, library: Shared<Module<H>>) -> Result<(), AllocError>
        ensures ok { OnOk result (self.new ≡ with_library self.old library) }
        ensures err { OnErr result (self.new ≡ self.old) }
    {
        self.lib.push(library)?;
        Ok(())
    }

    /// Takes back all libraries from `libs` on and all imports from `imports` on. Caches that were made for
    /// more are emptied.
    #[inline(always)]
    pub fn truncate(&mut self, libs: usize, imports: usize)
        ensures { self.new ≡ (take libs self.old.0, take imports self.old.1) }
    {
        if libs < self.lib.len() || imports < self.imports.len() {
            self.cut(libs, imports);
        }
    }

    /// Takes back libraries and imports, of which there are some to take back.
    #[inline(never)]
    fn cut(&mut self, libs: usize, imports: usize)
        ensures { self.new ≡ (take libs self.old.0, take imports self.old.1) }
    {
        self.caches.cut(Extent { libs, imports });
        self.lib.truncate(libs);
        self.imports.truncate(imports);
    }

    /// Takes back all imports from `imports` on. Caches that were made for more are emptied.
    #[inline(always)]
    pub fn truncate_imports(&mut self, imports: usize)
        ensures { self.new ≡ (self.old.0, take imports self.old.1) }
    {
        let libs = self.lib.len();
        self.truncate(libs, imports);
    }

    /// Tells what libraries and imports have of a key. It fails only where a function has too many owners to
    /// count. What it comes to is kept in the newest cache, where there is memory and room for it.
    pub fn look_up(&mut self, key: &FnKey<'_>) -> Result<Kept<H>, AllocError>
        ensures kept { IfOk result (λ kept. kept ≡ kept_of self.old (function_key_of key.now)) }
        ensures same { self.new ≡ self.old }
    {
        look_up(&self.lib, &self.imports, &mut self.caches, key)
    }

    /// Finds the function of a key, where a run looks for it, with an owner of its own. It looks as
    /// `rhai_functions::function::called_function` does, and fails only where a function has too many owners.
    pub fn find(
        &mut self,
        key: &FnKey<'_>,
        offered: &Offered<'_, H>,
    ) -> Result<Option<Function<H>>, AllocError>
        ensures found { IfOk result (λ found. found ≡ option_map function_of (found_in
            (function_key_of key.now)
            self.old.0 offered.now.global_modules.now self.old.1 offered.now.global_sub_modules.now.1)) }
        ensures same { self.new ≡ self.old }
    {
        let kept = self.look_up(key)?;
        decide(*key, offered, kept)
    }

    /// Finds the function of a key that a library has, with an owner of its own. It fails only where the
    /// function has too many owners.
    pub fn find_library(&mut self, key: &FnKey<'_>) -> Result<Option<Function<H>>, AllocError>
        ensures found { IfOk result (λ found. found ≡
            option_map function_of (in_modules (function_key_of key.now) self.old.0)) }
        ensures same { self.new ≡ self.old }
    {
        let kept = self.look_up(key)?;
        let (found, in_libraries) = kept.into_found();
        if in_libraries { Ok(found) } else { Ok(None) }
    }

    /// Finds the function of a key that a library has, where it has no environment and its name means nothing
    /// besides functions. None also where it has too many owners.
    #[inline(always)]
    pub fn find_plain(&mut self, key: &FnKey<'_>) -> Option<Shared<CheckedFn>>
        ensures found { IfSome result (λ def. option_map function_of (in_modules (function_key_of key.now)
            self.old.0)
            ≡ Some (record { def = def; environ = None })) }
        ensures meaning { OnSome result (own_meaning key.now.name.now ≡ false) }
        ensures same { self.new ≡ self.old }
    {
        plain_in(&self.lib, &self.imports, &mut self.caches, key)
    }

    /// Tells whether there is a function of a key, where a run looks for it. It makes no owner.
    pub fn has(&mut self, key: &FnKey<'_>, offered: &Offered<'_, H>) -> bool
        ensures found { result ≡ is_some (found_in (function_key_of key.now) self.old.0
            offered.now.global_modules.now self.old.1 offered.now.global_sub_modules.now.1) }
        ensures same { self.new ≡ self.old }
    {
        has_in(&self.lib, &self.imports, &mut self.caches, key, offered)
    }
}
