//! Scripts as data: the tree of each, and what is set for its run.

ghost use Rattle.std.specs.Prelude.{◌≡◌, IfOk};
ghost use Rattle.rhai_rows.specs.Settings.{settings_of};

use crate::settings::{Setting, Settings};
use rhai_build::functions::TreeParts;
use rhai_samples::built::{
    assignment_to_constant, closure_on_its_variable, continued_until, decrements,
    functions_for_types, integer_and_true, integer_walked, items_and_counter_summed,
    items_of_three_types, joined_parts, method_that_throws, property_of_unit, range_after_a_case,
    return_at_the_top, thrown_value_caught, true_or_integer, truth_chosen, unit_or_integer,
    value_of_a_loop, variable_of_the_caller_increased,
};
use rhai_samples::caught::throws_in_turn;
use rhai_samples::chains::{first_item_increased, increments};
use rhai_samples::choices::{choices_in_turn, integer_chosen, text_chosen};
use rhai_samples::data::many_items;
use rhai_samples::functions::{calls_within_calls, fibonacci};
use rhai_samples::libraries::fibonacci_among;
use rhai_samples::loops::{doublings, pairings};
use rhai_samples::parts::{Part, tree_of};
use rhai_samples::walks::{array_summed, range_summed};
use rhai_tree::Items;
use rhai_tree::expr::Stmt;
use rhai_tree::function::ScriptFuncDef;
use std::alloc::{AllocError, Global};

/// The tree of a script, and what is set for its run.
#[derive(Drop)]
pub struct Script {
    pub statements: Items<Stmt>,
    pub functions: Items<ScriptFuncDef>,
    pub settings: Settings,
}

/// A script as data: its tree, and what is set for its run.
#[derive(Clone, Copy)]
pub struct Sample(pub Tree, pub Setting);

/// A tree: a list of its parts, or what a function makes.
#[derive(Clone, Copy)]
pub enum Tree {
    Parts(&'static [Part<'static>]),
    Statements(MadeStatements),
    WithFunctions(MadeTree),
}

/// Statements that a function of `rhai_samples` makes, with its arguments.
#[derive(Clone, Copy)]
pub enum MadeStatements {
    ThrownValueCaught,
    ValueOfALoop,
    AssignmentToConstant,
    PropertyOfUnit,
    TruthChosen,
    RangeAfterACase,
    JoinedParts,
    ItemsOfThreeTypes,
    ContinuedUntil,
    ReturnAtTheTop,
    TrueOrInteger,
    IntegerAndTrue,
    UnitOrInteger,
    ItemsAndCounterSummed,
    IntegerWalked,
    /// So many turns.
    Decrements(i64),
    /// So many turns.
    Doublings(i64),
    /// So many turns.
    Pairings(i64),
    /// A length, and so many turns.
    Increments(u32, i64),
    /// So many turns, and whether it is increased twice in each.
    FirstItemIncreased(i64, bool),
    /// So many turns.
    ChoicesInTurn(i64),
    /// So many turns.
    ThrowsInTurn(i64),
    /// So many items.
    ManyItems(u32),
    /// So many integers.
    RangeSummed(i64),
    /// A length, and so many times.
    ArraySummed(u32, i64),
}

/// Statements with functions beside them that a function of `rhai_samples` makes, with its argument.
#[derive(Clone, Copy)]
pub enum MadeTree {
    ClosureOnItsVariable,
    VariableOfTheCallerIncreased,
    FunctionsForTypes,
    MethodThatThrows,
    IntegerChosen(i64),
    TextChosen(&'static str),
    Fibonacci(i64),
    /// How many functions there are, and its argument.
    FibonacciAmong(u32, i64),
    CallsWithinCalls(i64),
}

impl Sample {
    /// Makes the script, or says that memory ran out.
    pub fn script(self, alloc: Global) -> Result<Script, AllocError>
        ensures { IfOk result (λ s. s.settings ≡ settings_of self.1) }
    {
        let Sample(tree, setting) = self;
        let TreeParts {
            statements,
            functions,
        } = tree.parts(alloc)?;
        Ok(Script {
            statements,
            functions,
            settings: setting.settings(),
        })
    }
}

impl Tree {
    /// Makes the tree's statements, and the functions beside them.
    fn parts(self, alloc: Global) -> Result<TreeParts, AllocError> {
        match self {
            Tree::Parts(parts) => tree_of(alloc, parts),
            Tree::Statements(made) => Ok(TreeParts {
                statements: made.statements(alloc)?,
                functions: Items::new(alloc),
            }),
            Tree::WithFunctions(made) => made.parts(alloc),
        }
    }
}

impl MadeStatements {
    fn statements(self, alloc: Global) -> Result<Items<Stmt>, AllocError> {
        match self {
            MadeStatements::ThrownValueCaught => thrown_value_caught(alloc),
            MadeStatements::ValueOfALoop => value_of_a_loop(alloc),
            MadeStatements::AssignmentToConstant => assignment_to_constant(alloc),
            MadeStatements::PropertyOfUnit => property_of_unit(alloc),
            MadeStatements::TruthChosen => truth_chosen(alloc),
            MadeStatements::RangeAfterACase => range_after_a_case(alloc),
            MadeStatements::JoinedParts => joined_parts(alloc),
            MadeStatements::ItemsOfThreeTypes => items_of_three_types(alloc),
            MadeStatements::ContinuedUntil => continued_until(alloc),
            MadeStatements::ReturnAtTheTop => return_at_the_top(alloc),
            MadeStatements::TrueOrInteger => true_or_integer(alloc),
            MadeStatements::IntegerAndTrue => integer_and_true(alloc),
            MadeStatements::UnitOrInteger => unit_or_integer(alloc),
            MadeStatements::ItemsAndCounterSummed => items_and_counter_summed(alloc),
            MadeStatements::IntegerWalked => integer_walked(alloc),
            MadeStatements::Decrements(turns) => decrements(alloc, turns),
            MadeStatements::Doublings(turns) => doublings(alloc, turns),
            MadeStatements::Pairings(turns) => pairings(alloc, turns),
            MadeStatements::Increments(length, turns) => increments(alloc, length, turns),
            MadeStatements::FirstItemIncreased(turns, is_twice) => {
                first_item_increased(alloc, turns, is_twice)
            }
            MadeStatements::ChoicesInTurn(turns) => choices_in_turn(alloc, turns),
            MadeStatements::ThrowsInTurn(turns) => throws_in_turn(alloc, turns),
            MadeStatements::ManyItems(count) => many_items(alloc, count),
            MadeStatements::RangeSummed(count) => range_summed(alloc, count),
            MadeStatements::ArraySummed(length, times) => array_summed(alloc, length, times),
        }
    }
}

impl MadeTree {
    fn parts(self, alloc: Global) -> Result<TreeParts, AllocError> {
        match self {
            MadeTree::ClosureOnItsVariable => closure_on_its_variable(alloc),
            MadeTree::VariableOfTheCallerIncreased => variable_of_the_caller_increased(alloc),
            MadeTree::FunctionsForTypes => functions_for_types(alloc),
            MadeTree::MethodThatThrows => method_that_throws(alloc),
            MadeTree::IntegerChosen(value) => integer_chosen(alloc, value),
            MadeTree::TextChosen(text) => text_chosen(alloc, text),
            MadeTree::Fibonacci(number) => fibonacci(alloc, number),
            MadeTree::FibonacciAmong(count, number) => fibonacci_among(alloc, count, number),
            MadeTree::CallsWithinCalls(number) => calls_within_calls(alloc, number),
        }
    }
}
