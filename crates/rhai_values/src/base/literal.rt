//! The values of constants of the tree.

ghost use Rattle.std.specs.Prelude.{◌≡◌, IfOk, map};
ghost use Rattle.rhai_values.specs.Literals.{leads_to, pointer_of_literal, value_of_literal};

use crate::base::value::{Dynamic, FnPtr, FnPtrKind, Union};
use rhai_tree::literal::{Literal, LiteralFnPtr, LiteralFnPtrKind};
use rhai_tree::{Boxed, Items, Table};
use std::alloc::{AllocError, Global};

/// Builds the value of a constant, read-write throughout. Texts are shared.
#[cycle(literals)]
pub fn literal_value<H: Drop>(alloc: Global, literal: &Literal) -> Result<Dynamic<H>, AllocError>
    ensures { IfOk result (λ d. d ≡ value_of_literal literal.now) }
{
    let value = match literal {
        Literal::Unit => Union::Unit,
        Literal::Bool(truth) => Union::Bool(*truth),
        Literal::Int(number) => Union::Int(*number),
        Literal::Char(letter) => Union::Char(*letter),
        Literal::Str(text) => Union::Str(text.share()?),
        Literal::ExclusiveRange(start, end) => Union::ExclusiveRange(*start, *end),
        Literal::InclusiveRange(start, end) => Union::InclusiveRange(*start, *end),
        Literal::Array(items) => {
            Union::Array(Boxed::new(alloc, literal_values(alloc, items.as_slice())?)?)
        }
        Literal::Blob(bytes) => Union::Blob(Boxed::new(
            alloc,
            Items::from_slice(alloc, bytes.as_slice())?,
        )?),
        Literal::Map(entries) => Union::Map(Boxed::new(alloc, literal_map(alloc, entries)?)?),
        Literal::FnPtr(pointer) => {
            Union::FnPtr(Boxed::new(alloc, literal_pointer(alloc, pointer)?)?)
        }
    };
    Ok(Dynamic::new(value))
}

#[cycle(literals)]
fn literal_values<H: Drop>(
    alloc: Global,
    literals: &[Literal],
) -> Result<Items<Dynamic<H>>, AllocError>
    ensures { IfOk result (λ values. values ≡ map value_of_literal literals.now) }
{
    let mut values = Items::new(alloc);
    for literal in literals {
        values.push(literal_value(alloc, literal)?)?;
    }
    Ok(values)
}

#[cycle(literals)]
fn literal_map<H: Drop>(
    alloc: Global,
    entries: &Table<Literal>,
) -> Result<Table<Dynamic<H>>, AllocError>
    ensures { IfOk result (λ m. m ≡ (entries.now.0, map value_of_literal entries.now.1)) }
{
    let values = literal_values(alloc, entries.values())?;
    entries.with_values(alloc, values)
}

#[cycle(literals)]
fn literal_pointer<H: Drop>(alloc: Global, pointer: &LiteralFnPtr) -> Result<FnPtr<H>, AllocError>
    ensures { IfOk result (λ p. p ≡ pointer_of_literal pointer.now) }
{
    Ok(FnPtr {
        name: pointer.name.share()?,
        curry: literal_values(alloc, pointer.curry.as_slice())?,
        kind: literal_kind(pointer.kind),
    })
}

/// Returns what a constant pointer leads to.
fn literal_kind<H>(kind: LiteralFnPtrKind) -> FnPtrKind<H>
    ensures { result ≡ leads_to kind }
{
    match kind {
        LiteralFnPtrKind::Name => FnPtrKind::Name,
        LiteralFnPtrKind::Arity(count) => FnPtrKind::Arity(count),
        LiteralFnPtrKind::Native(id) => FnPtrKind::Native(id),
    }
}
