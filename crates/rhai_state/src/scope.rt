//! The variables of a run.

ghost use Rattle.std.specs.Prelude.{◌≡◌, ◌<◌, ◌↔◌, [], ◌∷◌, ◌++◌, take, length, slice_get, is_some, Some};
ghost use Rattle.std.specs.Prelude.{string_bytes, IsTrue, IfSome, OnOk, OnErr, drop, nat_lt, ◌+◌, ◌&&◌};
ghost use Rattle.std.specs.List.{list_any};
ghost use Rattle.std.specs.Option.{option_map};
ghost use Rattle.std.specs.Str.{bytes_eq};
ghost use Rattle.std.specs.Borrow.{sem};
ghost use Rattle.rhai_values.specs.Copy.{plain};
ghost use Rattle.rhai_values.specs.declared.base.value.AccessMode.TheVariants.{ReadWrite};
ghost use Rattle.rhai_values.specs.declared.base.value.Union.TheVariants as value;
ghost use Rattle.rhai_state.specs.Lends.{lends_spare, lends_value};
ghost use Rattle.rhai_state.specs.Scope.{aliased, entries_of, first_aliases, index_of, new_entry, place_of, revalued, scope_of};
ghost use Rattle.rhai_state.specs.Scope.{shown_entry, value_of};
ghost use Rattle.rhai_state.specs.Scope.{Fits};

use crate::slot::Slot;
use rhai_tree::{Items, Shared, Text};
use rhai_values::base::value::{AccessMode, Dynamic, Union};
use std::alloc::{AllocError, Global};
use std::mem::replace;
use std::num::NonZeroUsize;

/// A variable: its name, its value, and the names under which it is exported.
pub struct ScopeEntry<H> {
    pub name: Shared<Text>,
    pub value: Dynamic<H>,
    pub aliases: Items<Shared<Text>>,
}

// Written by hand, so that the crates above call this where an entry goes out of scope.
impl<H: Drop> Drop for ScopeEntry<H> {
    fn drop(self) {
        let ScopeEntry {
            name: _,
            value,
            aliases: _,
        } = self;
        drop(value);
    }
}

/// The variables, the newest last. A name means the last entry that has it. Ports upstream's
/// `Scope`.
pub struct Scope<H> {
    entries: Items<ScopeEntry<H>>,
    spare: Slot<H>,
}

// Written by hand, so that the crates above call this, and need not go through the entries.
impl<H: Drop> Drop for Scope<H> {
    fn drop(self) {
        let Scope {
            entries: _,
            spare: _,
        } = self;
    }
}

impl<H> Scope<H> {
    /// Creates a scope with no entry. It takes no memory. Ports upstream's `Scope::new`.
    pub fn new(alloc: Global) -> Scope<H>
        ensures { entries_of result ≡ [] }
    {
        Scope {
            entries: Items::new(alloc),
            spare: Slot::new(),
        }
    }

    /// Counts the entries. Ports upstream's `Scope::len`.
    pub fn len(&self) -> usize
        ensures { result ≡ length (entries_of self.now) }
    {
        self.entries.len()
    }

    /// Tells whether there is no entry. Ports upstream's `Scope::is_empty`.
    pub fn is_empty(&self) -> bool
        ensures { IsTrue result ↔ (entries_of self.now ≡ []) }
    {
        self.entries.is_empty()
    }

    /// Returns the entries, the newest last.
    pub fn entries(&self) -> &[ScopeEntry<H>]
        ensures { result.now ≡ entries_of self.now }
    {
        self.entries.as_slice()
    }

    /// Tells whether an entry has the name. Ports upstream's `Scope::contains`.
    pub fn contains(&self, name: &str) -> bool
        ensures { result ≡ is_some (index_of name.now (entries_of self.now)) }
    {
        self.search(name).is_some()
    }

    /// Finds the index of the newest entry of a name. Ports upstream's `Scope::search`.
    pub fn search(&self, name: &str) -> Option<usize>
        ensures { result ≡ index_of name.now (entries_of self.now) }
    {
        newest_entry(self.entries.as_slice(), name)
    }

    /// Finds the index of a variable's entry, by its offset from the end if one is given, else by name.
    /// By an offset it is that of the entry there, whatever its name, and by a name that of the newest
    /// entry which has it. Ports what upstream's `search_scope_only` does with an index. Asked: the
    /// offset is at most the length.
    pub fn place_of(&self, offset: Option<NonZeroUsize>, name: &str) -> Option<usize>
        requires { Fits offset (length (entries_of self.now)) }
        ensures exact { result ≡ place_of offset name.now (entries_of self.now) }
        ensures within { IfSome result (λ at. at < length (entries_of self.now)) }
    {
        match offset {
            Some(offset) => Some(self.entries.len() - offset.get()),
            None => self.search(name),
        }
    }

    /// Returns the name, the value and the aliases of the entry at an index, if there is one. Ports
    /// upstream's `Scope::get_entry_by_index`.
    pub fn get(&self, index: usize) -> Option<(&str, &Dynamic<H>, &[Shared<Text>])>
        ensures { option_map shown_entry result ≡ slice_get (entries_of self.now) index }
    {
        let entry = self.entries.get(index)?;
        Some((
            entry.name.get().as_str(),
            &entry.value,
            entry.aliases.as_slice(),
        ))
    }

    /// Returns the value of the entry at an index.
    pub fn value_at(&self, index: usize) -> &Dynamic<H>
        requires { index < length (entries_of self.now) }
        ensures { option_map value_of (slice_get (entries_of self.now) index) ≡ Some result.now }
    {
        &self.entries.as_slice()[index].value
    }

    /// Lends the value of the entry at an index, to be changed there. Ports upstream's
    /// `Scope::get_mut_by_index`.
    pub fn value_at_mut(&mut self, index: usize) -> &mut Dynamic<H>
        requires { index < length (entries_of self.old) }
        ensures* writes_back { sem 𝓛 (lends_value H.row self.entry index result) }
        ensures value { option_map value_of (slice_get (entries_of self.old) index) ≡ Some result.now }
    {
        let entry = self.entries.at_mut(index);
        &mut entry.value
    }

    /// Gives the entry at an index another value, and hands out the one that it had.
    pub fn replace_value(&mut self, index: usize, value: Dynamic<H>) -> Dynamic<H>
        requires { index < length (entries_of self.old) }
        ensures before { option_map value_of (slice_get (entries_of self.old) index) ≡ Some result }
        ensures after { entries_of self.new ≡ revalued (entries_of self.old) index
            (slice_get (entries_of self.old) index) value }
    {
        let entry = self.entries.at_mut(index);
        replace(&mut entry.value, value)
    }

    /// Gives the scope other entries, and hands out those that it had.
    #[inline(always)]
    pub fn exchange(&mut self, entries: Items<ScopeEntry<H>>) -> Items<ScopeEntry<H>>
        ensures before { result ≡ entries_of self.old }
        ensures after { self.new ≡ scope_of entries }
    {
        replace(&mut self.entries, entries)
    }
}

/// Adds behind others a variable that may be written. Where there is no memory the others stay.
#[inline(always)]
pub fn push_variable<H: Drop>(
    entries: &mut Items<ScopeEntry<H>>,
    name: Shared<Text>,
    mut value: Dynamic<H>,
) -> Result<(), AllocError>
    ensures ok { OnOk result (entries.new ≡ entries.old ++ new_entry name ReadWrite value ∷ []) }
    ensures err { OnErr result (entries.new ≡ entries.old) }
{
    value.set_access_mode(AccessMode::ReadWrite);
    let aliases = Items::new(entries.allocator());
    entries.push(ScopeEntry {
        name,
        value,
        aliases,
    })
}

/// Adds behind others a variable that is an integer and may be written. Where there is no memory the
/// others stay.
#[inline(always)]
pub fn push_integer<H: Drop>(
    entries: &mut Items<ScopeEntry<H>>,
    name: Shared<Text>,
    number: i64,
) -> Result<(), AllocError>
    ensures ok { OnOk result
        (entries.new ≡ entries.old ++ new_entry name ReadWrite (plain (value.Int number)) ∷ []) }
    ensures err { OnErr result (entries.new ≡ entries.old) }
{
    let aliases = Items::new(entries.allocator());
    let value = Dynamic::new(Union::Int(number));
    entries.push(ScopeEntry {
        name,
        value,
        aliases,
    })
}

impl<H: Drop> Scope<H> {
    /// Adds an entry. Its value takes the mode. Where there is no memory the scope stays. Ports
    /// upstream's `Scope::push_entry`.
    pub fn push_entry(
        &mut self,
        name: String,
        mode: AccessMode,
        value: Dynamic<H>,
    ) -> Result<(), AllocError>
        ensures ok { OnOk result (entries_of self.new ≡ entries_of self.old
            ++ new_entry (string_bytes name) mode value ∷ []) }
        ensures err { OnErr result (entries_of self.new ≡ entries_of self.old) }
    {
        let name = Shared::new(self.entries.allocator(), Text::from_string(name))?;
        self.push_shared(name, mode, value)
    }

    /// Adds an entry under a shared name. Its value takes the mode. Where there is no memory the
    /// scope stays.
    pub fn push_shared(
        &mut self,
        name: Shared<Text>,
        mode: AccessMode,
        mut value: Dynamic<H>,
    ) -> Result<(), AllocError>
        ensures ok { OnOk result (entries_of self.new ≡ entries_of self.old ++ new_entry name mode value
            ∷ []) }
        ensures err { OnErr result (entries_of self.new ≡ entries_of self.old) }
    {
        value.set_access_mode(mode);
        let aliases = Items::new(self.entries.allocator());
        self.entries.push(ScopeEntry {
            name,
            value,
            aliases,
        })
    }

    /// Lends a place that no variable has, with `()` in it. It is for a `Target` that shows a value of
    /// its own. The scope stays whatever is written there.
    pub fn spare_mut(&mut self) -> &mut Dynamic<H>
        ensures* writes_back { sem 𝓛 (lends_spare H.row self.entry result) }
        ensures value { result.now ≡ plain value.Unit }
    {
        self.spare.lend()
    }

    /// Gives the entry at an index an alias, unless it has it already. Where there is no memory the scope
    /// stays. Ports upstream's `Scope::add_alias_by_index`.
    pub fn add_alias(&mut self, index: usize, alias: Shared<Text>) -> Result<(), AllocError>
        requires { index < length (entries_of self.old) }
        ensures ok { OnOk result (entries_of self.new ≡ aliased (entries_of self.old) index
            (slice_get (entries_of self.old) index) alias) }
        ensures err { OnErr result (entries_of self.new ≡ entries_of self.old) }
    {
        let entry = self.entries.at_mut(index);
        if is_among(alias.get().as_str(), entry.aliases.as_slice()) {
            return Ok(());
        }
        entry.aliases.push(alias)
    }

    /// Lets go of the aliases of the entry at an index from `len` on, if there are any.
    pub fn truncate_aliases(&mut self, index: usize, len: usize)
        requires { index < length (entries_of self.old) }
        ensures { entries_of self.new ≡ first_aliases (entries_of self.old) index
            (slice_get (entries_of self.old) index) len }
    {
        let entry = self.entries.at_mut(index);
        entry.aliases.truncate(len);
    }

    /// Lets go of all entries from `len` on, if there are any. Ports upstream's `Scope::rewind`.
    pub fn rewind(&mut self, len: usize)
        ensures { entries_of self.new ≡ take len (entries_of self.old) }
    {
        self.entries.truncate(len);
    }

    /// Lets go of so many entries from one on, or of those that are there. The later ones move up. Ports
    /// upstream's `Scope::remove_range`.
    pub fn remove_range(&mut self, start: usize, len: usize)
        ensures { entries_of self.new ≡ take start (entries_of self.old) ++ drop (start + len)
            (entries_of self.old) }
    {
        let mut left = len;
        'entries: while is_left(left, start, self.entries.len()) {
            drop(self.entries.remove(start));
            left -= 1;
        }
    }
}

/// Tells whether a name is among aliases.
fn is_among(alias: &str, others: &[Shared<Text>]) -> bool
    ensures { result ≡ list_any (λ other. bytes_eq other alias.now) others.now }
{
    others.iter().any(|other| other.get().as_str() == alias)
}

/// Tells whether there is an entry left to let go of.
fn is_left(left: usize, start: usize, length: usize) -> bool
    ensures { result ≡ (nat_lt 0 left && nat_lt start length) }
{
    left > 0 && start < length
}

/// Finds the index of the newest entry of a name.
fn newest_entry<H>(entries: &[ScopeEntry<H>], name: &str) -> Option<usize>
    ensures { result ≡ index_of name.now entries.now }
{
    let mut at = entries.len();
    'entries: while at > 0 {
        at -= 1;
        if entries[at].name.get().as_str() == name {
            return Some(at);
        }
    }
    None
}
