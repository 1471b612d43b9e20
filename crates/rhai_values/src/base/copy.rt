//! Copies of values.

ghost use Rattle.std.specs.Prelude.{◌≡◌, ◌++◌, ◌∷◌, [], IfOk, OnOk, map};
ghost use Rattle.rhai_values.specs.Copy.{copy_of, copy_union as copy_of_union};
ghost use Rattle.rhai_values.specs.Copy.{copy_pointer as copy_of_pointer};

use crate::base::value::{AccessMode, Dynamic, FnPtr, FnPtrKind, Host, Union};
use rhai_tree::{Boxed, Items, Table};
use std::alloc::{AllocError, Global};

impl<H: Host> Dynamic<H> {
    /// Copies the value, read-write throughout. Texts, functions and environments are shared, and a
    /// copied handle names the same cell. Stands for upstream's `Dynamic::clone`.
    #[inline(always)]
    pub fn try_clone(&self, alloc: Global) -> Result<Dynamic<H>, AllocError>
        ensures { IfOk result (λ c. c ≡ copy_of self.now) }
    {
        let value = match &self.value {
            Union::Int(number) => Union::Int(*number),
            value => copy_union(alloc, value)?,
        };
        Ok(Dynamic {
            value,
            mode: AccessMode::ReadWrite,
        })
    }
}

#[cycle(copy)]
fn copy_union<H: Host>(alloc: Global, value: &Union<H>) -> Result<Union<H>, AllocError>
    ensures { IfOk result (λ c. c ≡ copy_of_union value.now) }
{
    match value {
        Union::Unit => Ok(Union::Unit),
        Union::Bool(truth) => Ok(Union::Bool(*truth)),
        Union::Int(number) => Ok(Union::Int(*number)),
        Union::Char(letter) => Ok(Union::Char(*letter)),
        Union::Str(text) => Ok(Union::Str(text.share()?)),
        Union::ExclusiveRange(start, end) => Ok(Union::ExclusiveRange(*start, *end)),
        Union::InclusiveRange(start, end) => Ok(Union::InclusiveRange(*start, *end)),
        Union::Array(items) => Ok(Union::Array(Boxed::new(
            alloc,
            copy_items(alloc, items.get().as_slice())?,
        )?)),
        Union::Blob(bytes) => Ok(Union::Blob(Boxed::new(
            alloc,
            Items::from_slice(alloc, bytes.get().as_slice())?,
        )?)),
        Union::Map(entries) => Ok(Union::Map(Boxed::new(alloc, copy_map(alloc, entries.get())?)?)),
        Union::FnPtr(pointer) => Ok(Union::FnPtr(Boxed::new(
            alloc,
            copy_pointer(alloc, pointer.get())?,
        )?)),
        Union::Host(host) => Ok(Union::Host(Boxed::new(alloc, host.get().try_clone(alloc)?)?)),
        Union::Cell(id) => Ok(Union::Cell(*id)),
    }
}

#[cycle(copy)]
fn copy_items<H: Host>(alloc: Global, items: &[Dynamic<H>]) -> Result<Items<Dynamic<H>>, AllocError>
    ensures { IfOk result (λ c. c ≡ map copy_of items.now) }
{
    let mut copied = Items::from_vec(Vec::with_capacity(alloc, items.len())?);
    for item in items {
        push_copy(alloc, item, &mut copied)?;
    }
    Ok(copied)
}

/// Adds a copy of an item, which most often is an integer.
#[inline(always)]
#[cycle(copy)]
fn push_copy<H: Host>(
    alloc: Global,
    item: &Dynamic<H>,
    copied: &mut Items<Dynamic<H>>,
) -> Result<(), AllocError>
    ensures { OnOk result (copied.new ≡ copied.old ++ copy_of item.now ∷ []) }
{
    match &item.value {
        Union::Int(number) => copied.push(Dynamic::new(Union::Int(*number))),
        value => {
            let copy = copy_union(alloc, value)?;
            copied.push(Dynamic::new(copy))
        }
    }
}

#[cycle(copy)]
fn copy_map<H: Host>(
    alloc: Global,
    entries: &Table<Dynamic<H>>,
) -> Result<Table<Dynamic<H>>, AllocError>
    ensures { IfOk result (λ c. c ≡ (entries.now.0, map copy_of entries.now.1)) }
{
    let values = copy_items(alloc, entries.values())?;
    entries.with_values(alloc, values)
}

#[cycle(copy)]
fn copy_pointer<H: Host>(alloc: Global, pointer: &FnPtr<H>) -> Result<FnPtr<H>, AllocError>
    ensures { IfOk result (λ c. c ≡ copy_of_pointer pointer.now) }
{
    Ok(FnPtr {
        name: pointer.name.share()?,
        curry: copy_items(alloc, pointer.curry.as_slice())?,
        kind: share_kind(&pointer.kind)?,
    })
}

/// Shares what a pointer leads to.
fn share_kind<H: Drop>(kind: &FnPtrKind<H>) -> Result<FnPtrKind<H>, AllocError>
    ensures { IfOk result (λ k. k ≡ kind.now) }
{
    match kind {
        FnPtrKind::Name => Ok(FnPtrKind::Name),
        FnPtrKind::Arity(count) => Ok(FnPtrKind::Arity(*count)),
        FnPtrKind::Script(def, None) => Ok(FnPtrKind::Script(def.share()?, None)),
        FnPtrKind::Script(def, Some(environ)) => {
            Ok(FnPtrKind::Script(def.share()?, Some(environ.share()?)))
        }
        FnPtrKind::Native(id) => Ok(FnPtrKind::Native(*id)),
    }
}
