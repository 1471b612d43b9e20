//! Arrays of integers, which listed natives may answer.

ghost use Rattle.std.specs.Prelude.{◌≡◌, IfOk};
ghost use Rattle.rhai_values.specs.declared.base.value.Union.TheVariants as value;
ghost use Rattle.rhai_natives.specs.Numbers.{items_of};

use rhai_tree::{Boxed, Items};
use rhai_values::base::value::{Dynamic, Union};
use std::alloc::{AllocError, Global};
use std::marker::Model;

/// An array of integers, each of which may be written.
#[derive(Drop)]
pub struct Integers<H> {
    items: Boxed<Items<Dynamic<H>>>,
}

impl<H> Model for Integers<H> {
    ghost use Rattle.std.specs.Prelude.{◌≡◌, ℤ, List};
    ghost use Rattle.std.specs.Coded.{coded_list, coded_ℤ};
    ghost use Rattle.rhai_natives.specs.Numbers.{items_of, numbers_of};

    ghost Value = { List ℤ };

    ghost coded = { coded_list coded_ℤ };

    ghost view = { λ a. numbers_of a.items };

    ghost invariant = { λ a. a.items ≡ items_of (numbers_of a.items) };
}

impl<H> Integers<H> {
    /// Turns the array into a value.
    pub(crate) fn into_union(self) -> Union<H>
        ensures { result ≡ value.Array (items_of self) }
    {
        let Integers { items } = self;
        Union::Array(items)
    }
}

impl<H: Drop> Integers<H> {
    /// Builds the array of these integers.
    pub fn new(alloc: Global, numbers: &[i64]) -> Result<Integers<H>, AllocError>
        ensures { IfOk result (λ a. a ≡ numbers.now) }
    {
        let items = items_of(alloc, numbers)?;
        let items = Boxed::new(alloc, items)?;
        Ok(Integers { items })
    }
}

fn items_of<H: Drop>(alloc: Global, numbers: &[i64]) -> Result<Items<Dynamic<H>>, AllocError>
    ensures { IfOk result (λ items. items ≡ items_of numbers.now) }
{
    let mut items = Items::new(alloc);
    for number in numbers {
        items.push(Dynamic::new(Union::Int(*number)))?;
    }
    Ok(items)
}
