//! Expressions that make data of their parts. Ports upstream's `eval/expr.rs`.

ghost use Rattle.std.specs.Prelude.{◌≤◌, IsTrue, map};
ghost use Rattle.rhai_tree.specs.Frame.{all_resolve_exprs, entries_resolve, tests_of, tests_of_entry};
ghost use Rattle.rhai_tree.specs.declared.expr.Expr.TheOpen as layer;
ghost use Rattle.rhai_machine.specs.language.Frames.{OpenExpr};
ghost use Rattle.rhai_machine.specs.language.Runs.{Runs};
ghost use Rattle.rhai_context.specs.Ends.{came};
ghost use Rattle.rhai_eval_steps.specs.Agreement.{KeepsNames, SuitsNames};
ghost use Rattle.rhai_eval_steps.specs.States.{state_in};
ghost use Rattle.rhai_eval_core.specs.States.{under};

use crate::evaluator::Evaluator;
use rhai_context::Context;
use rhai_data::array::ArrayItems;
use rhai_data::map::EntryValues;
use rhai_data::text::{finish, join};
use rhai_errors::table::NativeTable;
use rhai_tree::expr::{Expr, MapEntry};
use rhai_tree::position::Position;
use rhai_values::base::value::Host;

impl<'e, H: Host> Evaluator<'e, H> {
    /// Makes an array of the values of its items, which are evaluated from left to right. How it ended stands
    /// in the run.
    #[inline(never)]
    #[cycle(eval)]
    pub(crate) fn run_array<T: NativeTable<H>>(
        &self,
        run: &mut Context<H>,
        table: &mut T,
        items: &[Expr],
        pos: Position,
    ) -> bool
        requires resolves { SuitsNames run.old (all_resolve_exprs (map tests_of items.now)) }
        ensures counts { IsTrue result → run.old.global.num_operations ≤ run.new.global.num_operations }
        ensures names { IsTrue result → KeepsNames run.old run.new }
        ensures runs { Runs (under H.name_of self.now T.natives) (OpenExpr (layer.Array items.now pos))
            (state_in (T.state table.old) run.old)
            (came result run.new.value run.new.error) (state_in (T.state table.new) run.new) }
    {
        let mut made = ArrayItems::new(self.session.alloc);
        'each_item: for item in items {
            if !self.run_expr(run, table, item) {
                drop(made);
                return false;
            }
            let cells = &run.global.cells;
            let (out, place) = (&mut run.value, &mut run.error);
            if !made.add(&self.session, cells, out, place, item) {
                drop(made);
                return false;
            }
        }
        made.finish(self.session.alloc, &mut run.value, &mut run.error, pos)
    }

    /// Makes a map of the values of its entries, which are evaluated from left to right. How it ended stands
    /// in the run.
    #[inline(never)]
    #[cycle(eval)]
    pub(crate) fn run_map<T: NativeTable<H>>(
        &self,
        run: &mut Context<H>,
        table: &mut T,
        entries: &[MapEntry],
        pos: Position,
    ) -> bool
        requires resolves { SuitsNames run.old (entries_resolve (map tests_of_entry entries.now)) }
        ensures counts { IsTrue result → run.old.global.num_operations ≤ run.new.global.num_operations }
        ensures names { IsTrue result → KeepsNames run.old run.new }
        ensures runs { (template : _) → Runs (under H.name_of self.now T.natives)
            (OpenExpr (layer.Map entries.now template pos))
            (state_in (T.state table.old) run.old)
            (came result run.new.value run.new.error) (state_in (T.state table.new) run.new) }
    {
        let mut made = EntryValues::new(self.session.alloc);
        'each_entry: for entry in entries {
            if !self.run_expr(run, table, &entry.value) {
                drop(made);
                return false;
            }
            let cells = &run.global.cells;
            let (out, place) = (&mut run.value, &mut run.error);
            if !made.add(&self.session, cells, out, place, &entry.value) {
                drop(made);
                return false;
            }
        }
        made.finish(
            self.session.alloc,
            &mut run.value,
            &mut run.error,
            entries,
            pos,
        )
    }

    /// Joins a text of the values of its parts, which are evaluated from left to right. How it ended stands
    /// in the run.
    #[inline(never)]
    #[cycle(eval)]
    pub(crate) fn run_interpolated<T: NativeTable<H>>(
        &self,
        run: &mut Context<H>,
        table: &mut T,
        parts: &[Expr],
        pos: Position,
    ) -> bool
        requires resolves { SuitsNames run.old (all_resolve_exprs (map tests_of parts.now)) }
        ensures counts { IsTrue result → run.old.global.num_operations ≤ run.new.global.num_operations }
        ensures names { IsTrue result → KeepsNames run.old run.new }
        ensures runs { Runs (under H.name_of self.now T.natives)
            (OpenExpr (layer.InterpolatedString parts.now pos))
            (state_in (T.state table.old) run.old)
            (came result run.new.value run.new.error) (state_in (T.state table.new) run.new) }
    {
        let mut text = String::new(self.session.alloc);
        'each_part: for part in parts {
            if !self.run_expr(run, table, part) {
                return false;
            }
            let (global, out, place) = (&mut run.global, &mut run.value, &mut run.error);
            if !join(&self.session, global, table, &mut text, out, place, part) {
                return false;
            }
        }
        finish(
            self.session.alloc,
            &mut run.value,
            &mut run.error,
            text,
            pos,
        )
    }
}
