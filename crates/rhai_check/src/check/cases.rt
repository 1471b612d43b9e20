//! The numbers and the cases of a `switch`.

ghost use Rattle.std.specs.Prelude.{◌≡◌};
ghost use Rattle.rhai_tree.specs.Cases.{all_below, are_blocks, are_cases, block_of, are_ranges};
ghost use Rattle.rhai_tree.specs.Cases.{is_default, has_case, all_differ, is_switch};

use rhai_tree::expr::{RangeCase, SwitchCase};
use rhai_tree::literal::{Literal, same_literal};

/// Tells whether the numbers and the cases of a `switch` are good. Each number is that of one of so
/// many results, each case has one, and no two cases are equal.
pub(crate) fn is_switch(
    count: usize,
    cases: &[SwitchCase],
    ranges: &[RangeCase],
    def_case: Option<usize>,
) -> bool
    ensures { result ≡ is_switch count cases.now ranges.now def_case }
{
    are_cases(count, cases)
        && are_ranges(count, ranges)
        && is_default(count, def_case)
        && all_differ(cases)
}

/// Tells whether each case has numbers, which are those of results.
fn are_cases(count: usize, cases: &[SwitchCase]) -> bool
    ensures { result ≡ are_cases count cases.now }
{
    'each: for case in cases {
        if !are_blocks(count, case.blocks.as_slice()) {
            return false;
        }
    }
    true
}

/// Tells whether there are numbers, and each is that of a result.
fn are_blocks(count: usize, blocks: &[usize]) -> bool
    ensures { result ≡ are_blocks count blocks.now }
{
    match blocks {
        [] => false,
        _ => all_below(count, blocks),
    }
}

/// Tells whether each number is that of a result.
fn all_below(count: usize, numbers: &[usize]) -> bool
    ensures { result ≡ all_below count numbers.now }
{
    'each: for number in numbers {
        if *number >= count {
            return false;
        }
    }
    true
}

/// Tells whether the number of each range is that of a result.
fn are_ranges(count: usize, ranges: &[RangeCase]) -> bool
    ensures { result ≡ are_ranges count ranges.now }
{
    'each: for range in ranges {
        if block_of(*range) >= count {
            return false;
        }
    }
    true
}

/// Reads the number of a range's result.
fn block_of(range: RangeCase) -> usize
    ensures { result ≡ block_of range }
{
    match range {
        RangeCase::ExclusiveInt(_, _, number) | RangeCase::InclusiveInt(_, _, number) => number,
    }
}

/// Tells whether the number of the default, where there is one, is that of a result.
fn is_default(count: usize, def_case: Option<usize>) -> bool
    ensures { result ≡ is_default count def_case }
{
    match def_case {
        None => true,
        Some(number) => number < count,
    }
}

/// Tells whether no two cases are equal.
fn all_differ(cases: &[SwitchCase]) -> bool
    ensures { result ≡ all_differ cases.now }
{
    let mut rest = cases;
    'each: while let [case, others @ ..] = rest {
        if has_case(&case.value, others) {
            return false;
        }
        rest = others;
    }
    true
}

/// Tells whether a value is that of one of some cases.
fn has_case(value: &Literal, cases: &[SwitchCase]) -> bool
    ensures { result ≡ has_case value.now cases.now }
{
    'each: for case in cases {
        if same_literal(value, &case.value) {
            return true;
        }
    }
    false
}
