//! Amounts of money, and the natives over them.

use rhai::{Arguments, Host, Listed, ListedNatives, Response};
use std::alloc::{AllocError, Global};

/// An amount of money in cents.
#[derive(Clone, Copy, Debug, PartialEq, Eq)]
pub struct Money(pub u64);

impl Host for Money {
    ghost use Rattle.std.specs.Prelude.{codes};

    ghost name_of = { λ m. codes "Money" };

    fn try_clone(&self, _alloc: Global) -> Result<Money, AllocError> {
        Ok(*self)
    }

    fn type_name(&self) -> &str {
        "Money"
    }
}

/// A native over amounts. Where an amount would be too large it is the greatest, where it would be below
/// nought it is nought.
#[derive(Clone, Copy, Debug, PartialEq, Eq)]
pub enum MoneyNative {
    Sum,
    Difference,
    Growth,
}

/// The natives over amounts.
#[derive(Debug, Drop)]
pub struct MoneyNatives;

impl ListedNatives<Money> for MoneyNatives {
    ghost use Rattle.host_example.specs.Money.{answering, listing};

    type Native = MoneyNative;

    ghost State = { Unit {0} };

    ghost state = { λ m. tt };

    ghost list = { listing };

    ghost does = { answering };

    fn listed(&self) -> &[Listed<MoneyNative>] {
        &[
            Listed::Pure("+", MoneyNative::Sum),
            Listed::Pure("-", MoneyNative::Difference),
            Listed::Impure("+=", MoneyNative::Growth),
        ]
    }

    fn call(
        &mut self,
        alloc: Global,
        native: MoneyNative,
        arguments: &Arguments<'_, Money>,
    ) -> Option<Response<Money>> {
        let (Money(a), Money(b)) = arguments.hosts()?;
        let sum = Money(a.saturating_add(*b));
        Some(match native {
            MoneyNative::Sum => Response::host(alloc, sum),
            MoneyNative::Difference => Response::host(alloc, Money(a.saturating_sub(*b))),
            MoneyNative::Growth => Response::changing_host(alloc, sum),
        })
    }
}
