//! What the value of a `switch` leads to, found without a copy of it and without memory. Ports these
//! parts of upstream's `eval/stmt.rs`; the contracts cite the machine's definitions.

ghost use Rattle.std.specs.Prelude.{◌≡◌, ◌∷◌, [], IfSome, None, option_map};
ghost use Rattle.std.specs.Option.{option_copied};
ghost use Rattle.rhai_tree.specs.declared.expr.Expr.{out-Expr};
ghost use Rattle.rhai_machine.specs.language.Cases.{by_cases, by_ranges, default_of, is_within as lies_within};
ghost use Rattle.rhai_machine.specs.language.Cases.{number_of as number_in, numbers_for, results_of};
ghost use Rattle.rhai_machine.specs.language.Choices.{truth_literal};
ghost use Rattle.rhai_stmt.specs.Candidates.{numbers_left, ranges_by};

use rhai_tree::expr::{ConditionalExpr, Expr, RangeCase, SwitchCase};
use rhai_values::base::hashable::literal_equals;
use rhai_values::base::value::{Dynamic, Union};

/// What a `switch` is made of, in the tree.
#[derive(Clone, Copy)]
pub struct SwitchParts<'t> {
    pub value: &'t Expr,
    pub results: &'t [ConditionalExpr],
    pub cases: &'t [SwitchCase],
    pub ranges: &'t [RangeCase],
    /// The number of the default's result.
    pub default: Option<usize>,
}

/// The results that the value of a `switch` leads to and that are left to be tried, by their numbers:
/// those of its case, and those of the ranges in which it lies.
#[derive(Clone, Copy)]
pub struct Candidates<'t> {
    numbers: &'t [usize],
    integer: Option<i64>,
    ranges: &'t [RangeCase],
}

/// Tells whether an integer lies in a range.
fn is_within(n: i64, range: RangeCase) -> bool
    ensures { result ≡ lies_within n range }
{
    match range {
        RangeCase::ExclusiveInt(start, end, _) => start <= n && n < end,
        RangeCase::InclusiveInt(start, end, _) => start <= n && n <= end,
    }
}

/// Reads the number of a range's result.
fn number_of(range: RangeCase) -> usize
    ensures { result ≡ number_in range }
{
    match range {
        RangeCase::ExclusiveInt(_, _, number) | RangeCase::InclusiveInt(_, _, number) => number,
    }
}

/// Finds the numbers of the case that a value equals, by type and content.
fn case_numbers<'t, H>(value: &Dynamic<H>, cases: &'t [SwitchCase]) -> &'t [usize]
    ensures { result.now ≡ by_cases value.now cases.now }
{
    'each_case: for case in cases {
        if literal_equals(&case.value, value) {
            return case.blocks.as_slice();
        }
    }
    &[]
}

/// Reads the value, if it is an integer.
fn integer_of<H>(value: &Dynamic<H>) -> Option<i64>
    ensures { (ranges : _) → ranges_by result ranges ≡ by_ranges value.now.value ranges }
{
    match &value.value {
        Union::Int(n) => Some(*n),
        _ => None,
    }
}

/// Finds what a value leads to: nothing where it cannot be hashed.
pub fn candidates_for<'t, H>(
    value: &Dynamic<H>,
    cases: &'t [SwitchCase],
    ranges: &'t [RangeCase],
) -> Candidates<'t>
    ensures { (results : _) (default : _) → numbers_left result ≡ numbers_for
        (record { results = results; cases = cases.now; ranges = ranges.now; default = default })
        value.now }
{
    let is_hashable = value.is_hashable();
    if !is_hashable {
        return Candidates {
            numbers: &[],
            integer: None,
            ranges: &[],
        };
    }
    Candidates {
        numbers: case_numbers(value, cases),
        integer: integer_of(value),
        ranges,
    }
}

impl<'t> Candidates<'t> {
    /// Takes the next number of the case, if it has one left.
    fn next_of_case(&mut self) -> Option<usize>
        ensures none { result ≡ None → self.new ≡ self.old }
        ensures empty { result ≡ None → self.old.numbers.now ≡ [] }
        ensures some { IfSome result (λ number. numbers_left self.old ≡ number ∷ numbers_left self.new) }
    {
        let [number, rest @ ..] = self.numbers else {
            return None;
        };
        self.numbers = rest;
        Some(*number)
    }

    /// Takes the next number of the ranges in which the integer lies.
    fn next_of_ranges(&mut self, n: i64) -> Option<usize>
        ensures numbers { self.new.numbers.now ≡ self.old.numbers.now }
        ensures integer { self.new.integer ≡ self.old.integer }
        ensures none { result ≡ None → ranges_by (Some n) self.old.ranges.now ≡ [] }
        ensures some { IfSome result (λ number. ranges_by (Some n) self.old.ranges.now
            ≡ number ∷ ranges_by (Some n) self.new.ranges.now) }
    {
        'each_range: while let [range, rest @ ..] = self.ranges {
            self.ranges = rest;
            if is_within(n, *range) {
                return Some(number_of(*range));
            }
        }
        None
    }

    /// Takes the number that is tried next.
    fn next_number(&mut self) -> Option<usize>
        ensures none { result ≡ None → numbers_left self.old ≡ [] }
        ensures some { IfSome result (λ number. numbers_left self.old ≡ number ∷ numbers_left self.new) }
    {
        if let Some(number) = self.next_of_case() {
            return Some(number);
        }
        match self.integer {
            Some(n) => self.next_of_ranges(n),
            None => None,
        }
    }

    /// Takes the result that is tried next. A number without a result is passed over.
    pub fn next(&mut self, results: &'t [ConditionalExpr]) -> Option<&'t ConditionalExpr>
        ensures none { result ≡ None → results_of results.now (numbers_left self.old) ≡ [] }
        ensures some { IfSome result (λ candidate. results_of results.now (numbers_left self.old)
            ≡ candidate.now ∷ results_of results.now (numbers_left self.new)) }
    {
        'each_number: loop {
            let Some(number) = self.next_number() else {
                return None;
            };
            if let Some(result) = results.get(number) {
                return Some(result);
            }
        }
    }
}

/// Finds the result where none that was tried has a condition that holds.
pub fn default_result(results: &[ConditionalExpr], number: Option<usize>) -> Option<&Expr>
    ensures { (cases : _) (ranges : _) → option_copied result ≡ default_of
        (record { results = results.now; cases = cases; ranges = ranges; default = number }) }
{
    Some(&results.get(number?)?.expr)
}

/// Reads a condition that is written as a truth value, which takes no charge.
pub fn written_truth(condition: &Expr) -> Option<bool>
    ensures { result ≡ truth_literal (out-Expr condition.now) }
{
    match condition {
        Expr::BoolConstant(holds, _) => Some(*holds),
        _ => None,
    }
}
