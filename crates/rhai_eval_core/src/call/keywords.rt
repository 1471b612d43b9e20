//! Calls of keywords, and what becomes of a pointer with its arguments. Ports the keywords of upstream's
//! `func/call.rs`; the contracts speak of the machine's runs and of specs/Calls.antt.

ghost use Rattle.std.specs.Prelude.{◌≤◌, [], IsTrue, map};
ghost use Rattle.rhai_tree.specs.Frame.{all_resolve_exprs, resolves_expr, tests_of};
ghost use Rattle.rhai_tree.specs.Positions.{start_of};
ghost use Rattle.rhai_machine.specs.language.Frames.{Argument, KeywordArgument, core, ended, core_over};
ghost use Rattle.rhai_machine.specs.language.Arguments.{arguments_core};
ghost use Rattle.rhai_machine.specs.language.Runs.{Goes};
ghost use Rattle.rhai_call_forms.specs.Keywords.{word_of};
ghost use Rattle.rhai_context.specs.Ends.{came};
ghost use Rattle.rhai_eval_steps.specs.Agreement.{KeepsNames, SuitsNames};
ghost use Rattle.rhai_callees.specs.Pointers.{purpose_of};
ghost use Rattle.rhai_eval_steps.specs.States.{state_in};
ghost use Rattle.rhai_eval_core.specs.States.{under};

use crate::evaluator::Evaluator;
use rhai_call_forms::arguments::split_first;
use rhai_call_forms::keywords::Keyword;
use rhai_call_forms::names::natives_alone;
use rhai_call_forms::pointers::{
    is_defined, is_shared, make_pointer, parts_of, pointer_of, text_of,
};
use rhai_callees::pointers::{PointerUse, linked_function, use_pointer};
use rhai_context::Context;
use rhai_context::ends::{put, settle, stop, take_value};
use rhai_errors::error::EvalAltResult;
use rhai_errors::table::NativeTable;
use rhai_few::Few;
use rhai_steps::operation::Operation;
use rhai_tree::expr::Expr;
use rhai_tree::position::Position;
use rhai_values::base::value::Host;

impl<'e, H: Host> Evaluator<'e, H> {
    /// Evaluates a keyword, from its first argument on. A pointer that is called is the function that it is
    /// linked to, or a native's number, or else it is called by its name. How it ended stands in the run.
    #[cycle(eval)]
    pub(crate) fn run_keyword<T: NativeTable<H>>(
        &self,
        run: &mut Context<H>,
        table: &mut T,
        word: Keyword,
        first: &Expr,
        rest: &[Expr],
        captures: bool,
        pos: Position,
    ) -> bool
        requires resolves { SuitsNames run.old (resolves_expr first.now) }
        requires resolves_rest { SuitsNames run.old (all_resolve_exprs (map tests_of rest.now)) }
        ensures counts { IsTrue result → run.old.global.num_operations ≤ run.new.global.num_operations }
        ensures names { IsTrue result → KeepsNames run.old run.new }
        ensures runs { Goes (under H.name_of self.now T.natives)
            (core_over (Argument first.now) (KeywordArgument (word_of word) pos (start_of first.now) rest.now captures))
            (state_in (T.state table.old) run.old) (core (ended (came result run.new.value run.new.error)))
            (state_in (T.state table.new) run.new) }
    {
        if !self.run_arg(run, table, first) {
            return false;
        }
        let value = take_value(&mut run.value);
        let start = first.start_position();
        match word {
            Keyword::IsShared => {
                put(&mut run.value, is_shared(value));
                true
            }
            Keyword::IsDefinedVariable => {
                match text_of(self.session.alloc, &run.global.cells, value, start) {
                    Ok(text) => {
                        put(&mut run.value, is_defined(&run.scope, &text));
                        true
                    }
                    Err(error) => stop(&mut run.error, error),
                }
            }
            Keyword::MakePointer => match text_of(
                self.session.alloc,
                &run.global.cells,
                value,
                start,
            ) {
                Ok(text) => {
                    let made = make_pointer(self.session.alloc, text, start);
                    settle(&mut run.error, &mut run.value, made)
                }
                Err(error) => stop(&mut run.error, error),
            },
            Keyword::Curry => match pointer_of(
                self.session.alloc,
                &run.global.cells,
                value,
                start,
            ) {
                Ok(pointer) => {
                    self.run_pointer(run, table, PointerUse::Curry(pointer), rest, pos)
                }
                Err(error) => stop(&mut run.error, error),
            },
            Keyword::CallPointer => {
                let pointer = match pointer_of(
                    self.session.alloc,
                    &run.global.cells,
                    value,
                    start,
                ) {
                    Ok(pointer) => pointer,
                    Err(error) => return stop(&mut run.error, error),
                };
                match linked_function(run, &pointer, rest) {
                    Ok(Some(function)) => {
                        let (name, curried, _) = parts_of(pointer);
                        drop(name);
                        let linked = PointerUse::Linked(function, curried);
                        self.run_pointer(run, table, linked, rest, pos)
                    }
                    Ok(None) => {
                        let (name, curried, number) = parts_of(pointer);
                        match number {
                            Some(id) => {
                                drop(name);
                                let numbered = PointerUse::Number(id, curried);
                                self.run_pointer(run, table, numbered, rest, pos)
                            }
                            None => {
                                let (first, rest) = split_first(rest);
                                let name = name.get().as_str();
                                let alone = natives_alone(name);
                                self.run_named(
                                    run,
                                    table,
                                    &Operation {
                                        name,
                                        token: None,
                                        at: pos,
                                    },
                                    curried,
                                    first,
                                    rest,
                                    captures,
                                    alone,
                                )
                            }
                        }
                    }
                    Err(_) => {
                        drop(pointer);
                        stop(&mut run.error, EvalAltResult::ErrorOutOfMemory(pos))
                    }
                }
            }
        }
    }

    /// Gives a pointer more arguments, or calls it with them. It is called as the function that it is linked
    /// to, or by a native's number. The arguments are kept as they are. How it ended stands in the run.
    #[cycle(eval)]
    fn run_pointer<T: NativeTable<H>>(
        &self,
        run: &mut Context<H>,
        table: &mut T,
        pointer: PointerUse<H>,
        args: &[Expr],
        pos: Position,
    ) -> bool
        requires { SuitsNames run.old (all_resolve_exprs (map tests_of args.now)) }
        ensures counts { IsTrue result → run.old.global.num_operations ≤ run.new.global.num_operations }
        ensures names { IsTrue result → KeepsNames run.old run.new }
        ensures runs { let rules = under H.name_of self.now T.natives in
            Goes rules
            (arguments_core (under H.name_of self.now T.natives).setting (purpose_of pointer pos) [] args.now)
            (state_in (T.state table.old) run.old) (core (ended (came result run.new.value run.new.error)))
            (state_in (T.state table.new) run.new) }
    {
        let mut values = Few::new(self.session.alloc);
        if !self.run_more_args(run, table, &mut values, args, false) {
            drop(pointer);
            drop(values);
            return false;
        }
        let called = use_pointer(&self.session, run, table, pointer, &mut values, pos);
        let done = self.finish_call(run, table, called, &mut values, true, pos);
        drop(values);
        done
    }
}
