//! Chains of indices and dots. Ports upstream's `eval/chaining.rs` as far as it is public; the contracts
//! speak of the machine's runs and of specs/Chains.antt.

ghost use Rattle.std.specs.Prelude.{◌≡◌, IfSome, OnOk, is_some, true};
ghost use Rattle.rhai_tree.specs.declared.expr.Expr.{out-Expr};
ghost use Rattle.rhai_errors.specs.Native.{left_by, lent_value};
ghost use Rattle.rhai_state.specs.Scope.{names_in};
ghost use Rattle.rhai_lookups.specs.Levels.{CachesFit, CachesLeft};
ghost use Rattle.rhai_lookups.specs.Runs.{lists_of};
ghost use Rattle.rhai_machine.specs.language.Links.{first_in};
ghost use Rattle.rhai_steps.specs.Callers.{AgreesAt, state_of};
ghost use Rattle.rhai_steps.specs.States.{holding};
ghost use Rattle.rhai_laws.specs.Kept.{Kept};
ghost use Rattle.rhai_links.specs.Chains.{new_of};
ghost use Rattle.rhai_eval.specs.Chains.{assigned_in, chain_type, whole_chain};
ghost use Rattle.rhai_eval.specs.Chains.{AssignsAlong, AssignsNoHandle, chain_resolves};
ghost use Rattle.rhai_eval.specs.Ends.{EndsAs};
ghost use Rattle.rhai_eval.specs.States.{under};

use crate::engine::Engine;
use crate::this::{give_back_with_this, take_with_this};
use rhai_context::ends::finish;
use rhai_context::{give_back, take};
use rhai_errors::error::EvalAltResult;
use rhai_errors::table::NativeTable;
use rhai_links::chain::NewValue;
use rhai_links::links::first_of;
use rhai_lookups::caches::Caches;
use rhai_state::scope::Scope;
use rhai_state::state::GlobalRuntimeState;
use rhai_tree::expr::{Expr, OpAssignment};
use rhai_values::base::value::{Dynamic, Host};
use std::alloc::Global;

/// How an expression goes on from its first part. Ports upstream's `ChainType`.
#[derive(Clone, Copy, Debug, PartialEq, Eq, Hash)]
pub enum ChainType {
    /// By an index.
    Indexing,
    /// By a dot.
    Dotting,
}

/// `Indexing` for an index, and `Dotting` for any other expression. It takes no memory.
impl<'e> From<&'e Expr> for ChainType {
    ghost from_gives = { λ expr kind. kind ≡ chain_type (out-Expr expr.now) };

    fn from(expr: &'e Expr) -> ChainType {
        match expr {
            Expr::Index(..) => ChainType::Indexing,
            _ => ChainType::Dotting,
        }
    }
}

/// Puts what a chain is assigned into the form in which its walk takes it.
fn new_value<H: Host>(new_val: Option<(Dynamic<H>, &OpAssignment)>) -> Option<NewValue<H>>
    ensures same { new_of result ≡ assigned_in new_val.entry }
    ensures given { is_some result ≡ is_some new_val.entry }
{
    match new_val {
        Some((value, op)) => Some(NewValue { op: *op, value }),
        None => None,
    }
}

impl<H: Host> Engine<H> {
    /// Evaluates a whole chain, or assigns to what it leads to where there is a value to assign. Its own
    /// charge is made already. First comes what all its links ask for, from left to right, each charged
    /// behind its operator; then its root, charged where it is a variable; and then the walk from link to
    /// link. The value of a variable is changed where it stands, on errors too, and of a property or an item
    /// that a native got the changed value is set again. An assignment answers `()`, or what a property's
    /// setter gave. Ports upstream's `eval_dot_index_chain`.
    ///
    /// An assignment without an operator that comes to a value, through indexes and properties of arrays
    /// and maps that are not shared, leaves the value assigned, read-write, at the path that it went down
    /// from its variable or from `this`, and all that is off the path as it was just before (`assigns`).
    ///
    /// The chain is a part of a checked tree, above the variables that the scope has there: an expression,
    /// or with a value to assign the left side of an assignment. `this` is taken out of its place meanwhile,
    /// and put back on every way out. Asked besides: a value to assign is no handle of a cell.
    ///
    /// # Errors
    /// Those of what the links ask for, and of the root: at a variable `ErrorVariableNotFound`, and
    /// `ErrorDataRace` where its cell is held; at `this` `ErrorUnboundThis` where there is none.
    /// `ErrorTooManyOperations` at each charge that the limit refuses. At an index or a key those of
    /// `rhai_places::indexing::get_indexed_mut`; where no native has a property or an item `ErrorDotExpr`
    /// and `ErrorIndexingType`; at a method those of `make_method_call`. Of an assignment besides those of
    /// `eval_op_assignment`, with `ErrorAssignmentToConstant` for a new key of a constant map, and at the
    /// operator `ErrorDataTooLarge` for an item, a map or a part above a limit.
    pub fn eval_dot_index_chain<T: NativeTable<H>>(
        &self,
        alloc: Global,
        global: &mut GlobalRuntimeState<H>,
        caches: &mut Caches<H>,
        table: &mut T,
        scope: &mut Scope<H>,
        this: Option<&mut Dynamic<H>>,
        expr: &Expr,
        new_val: Option<(Dynamic<H>, &OpAssignment)>,
    ) -> Result<Dynamic<H>, EvalAltResult<H>>
        requires fit { CachesFit (lists_of global.old) caches.old }
        requires chain { is_some (first_in (out-Expr expr.now)) ≡ true }
        requires resolves { AgreesAt global.old scope.old (chain_resolves (is_some new_val) expr.now) }
        requires value { AssignsNoHandle new_val }
        ensures ends { EndsAs (under H.name_of self.now T.natives)
            (whole_chain expr.now (assigned_in new_val.entry))
            (state_of (T.state table.old) global.old scope.old (holding (lent_value this.entry))) result
            (state_of (T.state table.new) global.new scope.new (holding (left_by this.exit))) }
        ensures kept { Kept (under H.name_of self.now T.natives)
            (state_of (T.state table.old) global.old scope.old (holding (lent_value this.entry)))
            (state_of (T.state table.new) global.new scope.new (holding (left_by this.exit))) }
        ensures assigns { OnOk result (IfSome (assigned_in new_val.entry) (λ given.
            AssignsAlong (under H.name_of self.now T.natives) expr.now given
            (state_of (T.state table.old) global.old scope.old (holding (lent_value this.entry)))
            (state_of (T.state table.new) global.new scope.new (holding (left_by this.exit))))) }
        ensures names { names_in scope.new ≡ names_in scope.old }
        ensures caches { CachesLeft (lists_of global.new) caches.old caches.new }
        ensures search { global.new.always_search_scope ≡ global.old.always_search_scope }
    {
        let Some(root) = first_of(expr) else {
            unreachable!()
        };
        let new = new_value(new_val);
        let evaluator = self.evaluator(alloc);
        match this {
            Some(place) => {
                let mut run = take_with_this(alloc, global, caches, scope, place);
                let done = evaluator.run_chain(&mut run, table, root, expr, new);
                let result = finish(done, &mut run.value, &mut run.error);
                give_back_with_this(run, global, caches, scope, place);
                result
            }
            None => {
                let mut run = take(alloc, global, caches, scope);
                let done = evaluator.run_chain(&mut run, table, root, expr, new);
                let result = finish(done, &mut run.value, &mut run.error);
                give_back(run, global, caches, scope);
                result
            }
        }
    }
}
