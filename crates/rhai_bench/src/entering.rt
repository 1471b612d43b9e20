//! Public calls of the evaluator that are entered by themselves, each with the last statement of a script, whose other
//! statements are run before it.

ghost use Rattle.std.specs.Prelude.{◌≡◌, ◌∷◌, ◌<◌, IfOk, IfSome, length, map};
ghost use Rattle.rhai_tree.specs.declared.expr.Stmt.{out-Stmt};
ghost use Rattle.rhai_tree.specs.Frame.{all_resolve, resolves_stmt};
ghost use Rattle.rhai_laws.specs.Kept.{is_import};
ghost use Rattle.rhai_steps.specs.Callers.{AgreesAt};
ghost use Rattle.rhai_steps.specs.Agreement.{passes};

mod host;
mod parts;

use crate::entering::host::{Answer, Host, no_part};
use crate::entering::parts::enter_part;
use rhai_eval::base::{EvalAltResult, Scope, Stmt};
use rhai_eval::check::check_tree;
use rhai_rows::attempt::Attempt;
use rhai_rows::entry::Entry;
use rhai_rows::modules::add_library;
use rhai_rows::outcome::{Ending, Outcome};
use rhai_rows::sample::Script;
use rhai_rows::settings::Way;
use rhai_tables::host::Pair;
use std::alloc::{AllocError, Global};

/// Checks a script, runs its statements but the last in one of the ways, above the variables of a scope and with a
/// `this` of 1, and enters a public call with the last one.
pub(crate) fn enter_last(
    alloc: Global,
    entry: Entry,
    script: Script,
    way: Way,
    scope: Scope<Pair>,
    attempt: &mut Attempt,
) -> Result<Outcome, AllocError> {
    let Script {
        statements,
        functions,
        settings,
    } = script;
    let mut host = Host::new(alloc, &settings, way, scope)?;
    let ending = match check_tree(alloc, statements, functions) {
        Err(fault) => Ending::Refused(fault),
        Ok(tree) => {
            add_library(alloc, &mut host.global, &tree)?;
            let answer = enter_list(&mut host, alloc, entry, tree.statements(), attempt);
            drop(tree);
            match answer {
                Ok(value) => Ending::Value(value),
                Err(error) => Ending::Error(error),
            }
        }
    };
    Ok(host.outcome(alloc, ending))
}

/// Runs the statements of a list but the last, and enters a call with that. That of imports is entered once the whole
/// list was run.
fn enter_list(
    host: &mut Host,
    alloc: Global,
    entry: Entry,
    statements: &[Stmt],
    attempt: &mut Attempt,
) -> Answer
    requires { AgreesAt host.old.global host.old.scope (passes (all_resolve (map resolves_stmt statements.now))) }
{
    if entry == Entry::Imports {
        drop(host.run_list(alloc, statements, false)?);
        return host.read_root(alloc, statements);
    }
    let mut rest = statements;
    'each_statement: while rest.len() > 1 {
        match run_first(host, alloc, rest)? {
            Some(others) => rest = others,
            None => return no_part(),
        }
    }
    match split(rest) {
        Some((last, _)) => attempt_part(host, alloc, entry, last, attempt),
        None => no_part(),
    }
}

/// Enters a call with what a statement has for it, which is the attempt.
fn attempt_part(
    host: &mut Host,
    alloc: Global,
    entry: Entry,
    stmt: &Stmt,
    attempt: &mut Attempt,
) -> Answer
    requires { AgreesAt host.old.global host.old.scope (passes (resolves_stmt stmt.now)) }
{
    attempt.begin_over(alloc, &host.global);
    let answer = enter_part(host, alloc, entry, stmt);
    attempt.end_over(alloc, &host.global);
    answer
}

/// Splits the first of some statements from the others.
fn split(statements: &[Stmt]) -> Option<(&Stmt, &[Stmt])>
    ensures { IfSome result (λ pair. statements.now ≡ pair.0.now ∷ pair.1.now) }
{
    match statements {
        [first, rest @ ..] => Some((first, rest)),
        [] => None,
    }
}

/// Runs the first statement of a list, and returns the others, None where there are none, or behind an `import`.
fn run_first<'t>(
    host: &mut Host,
    alloc: Global,
    statements: &'t [Stmt],
) -> Result<Option<&'t [Stmt]>, EvalAltResult<Pair>>
    requires { AgreesAt host.old.global host.old.scope (passes (all_resolve (map resolves_stmt statements.now))) }
    ensures resolves { IfOk result (λ others. IfSome others (λ rest.
        AgreesAt host.new.global host.new.scope (passes (all_resolve (map resolves_stmt rest.now))))) }
    ensures shorter { IfOk result (λ others. IfSome others (λ rest. length rest.now < length statements.now)) }
{
    let Some((first, rest)) = split(statements) else {
        return Ok(None);
    };
    let value = host.run(alloc, first)?;
    drop(value);
    if is_an_import(first) {
        return Ok(None);
    }
    Ok(Some(rest))
}

fn is_an_import(stmt: &Stmt) -> bool
    ensures { result ≡ is_import (out-Stmt stmt.now) }
{
    matches!(stmt, Stmt::Import(..))
}
