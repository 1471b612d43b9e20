//! Calls behind a path. Ports upstream's `make_qualified_function_call`.

ghost use Rattle.std.specs.Prelude.{◌≡◌, ◌≤◌, Bool, IsTrue, Option, false};
ghost use Rattle.rhai_tree.specs.Forms.{is_unqualified};
ghost use Rattle.rhai_tree.specs.declared.expr.Expr.TheOpen as layer;
ghost use Rattle.rhai_tree.specs.declared.token.Token.{Token};
ghost use Rattle.rhai_machine.specs.language.Frames.{OpenExpr};
ghost use Rattle.rhai_machine.specs.language.Runs.{Runs};
ghost use Rattle.rhai_call_forms.specs.Forms.{IsForm};
ghost use Rattle.rhai_call_forms.specs.declared.forms.CallForm.TheVariants as form;
ghost use Rattle.rhai_steps.specs.Agreement.{call_leads};
ghost use Rattle.rhai_context.specs.Ends.{came};
ghost use Rattle.rhai_eval_steps.specs.Agreement.{KeepsNames, SuitsNames};
ghost use Rattle.rhai_eval_steps.specs.Calls.{in_parts};
ghost use Rattle.rhai_eval_steps.specs.States.{state_in};
ghost use Rattle.rhai_eval_core.specs.States.{under};

use crate::evaluator::Evaluator;
use rhai_callees::path::{call_behind, charge_last, split_last_read};
use rhai_context::Context;
use rhai_errors::table::NativeTable;
use rhai_few::Few;
use rhai_tree::expr::{Expr, Namespace};
use rhai_tree::position::Position;
use rhai_values::base::value::Host;

impl<'e, H: Host> Evaluator<'e, H> {
    /// Evaluates a call behind a path: its arguments first, then the function that the path leads to. A
    /// variable or `this` that comes first is charged first and read last. How it ended stands in the run.
    #[inline(never)]
    #[cycle(eval)]
    pub fn run_qualified_call<T: NativeTable<H>>(
        &self,
        run: &mut Context<H>,
        table: &mut T,
        namespace: &Namespace,
        name: &str,
        args: &[Expr],
        pos: Position,
    ) -> bool
        requires resolves { SuitsNames run.old (call_leads namespace.now args.now) }
        requires behind { is_unqualified namespace.now.path ≡ false }
        ensures counts { IsTrue result → run.old.global.num_operations ≤ run.new.global.num_operations }
        ensures names { IsTrue result → KeepsNames run.old run.new }
        ensures runs { (token : Option Token) → (captures : Bool) →
            IsForm form.Function self.now.session.fast_operators token args.now →
            Runs (under H.name_of self.now T.natives)
            (OpenExpr (layer.Expr::FnCall (in_parts namespace.now name.now args.now token captures) pos))
            (state_in (T.state table.old) run.old)
            (came result run.new.value run.new.error) (state_in (T.state table.new) run.new) }
    {
        let (last, others) = split_last_read(&run.this, args);
        if !charge_last(&self.session.limits, &mut run.global, &mut run.error, last) {
            return false;
        }
        let mut values = Few::new(self.session.alloc);
        if !self.run_more_args(run, table, &mut values, others, true) {
            drop(values);
            return false;
        }
        let called = call_behind(
            &self.session,
            &run.global,
            &run.scope,
            &run.this,
            last,
            namespace,
            name,
            &mut values,
            pos,
        );
        let done = self.finish_call(run, table, called, &mut values, true, pos);
        drop(values);
        done
    }
}
