//! A host's own calls, over the bench's table of natives.

use crate::Bench;
use rhai_eval::base::{EvalAltResult, Position, Scope};
use rhai_eval::check::CheckedFn;
use rhai_eval::engine::Engine;
use rhai_eval::script::FnKey;
use rhai_eval::target::{Part, Target};
use rhai_hosted::caller::{Answer, Caller, Calls, Manner};
use rhai_tables::host::Pair;
use rhai_values::base::value::{Dynamic, Union};
use std::alloc::Global;
use std::mem::replace;

/// Calls a function by its name, on the variables of a scope if there is one.
fn exec(
    alloc: Global,
    caller: &mut Caller,
    scope: Option<&mut Scope<Pair>>,
    name: &str,
    manner: Manner,
) -> Answer {
    caller.caches.clear();
    Engine::new(alloc).exec_fn_call(
        alloc,
        &mut caller.global,
        &mut caller.caches,
        &mut caller.table,
        scope,
        name,
        None,
        Some(&mut caller.object),
        caller.args.as_mut_slice(),
        manner.is_ref,
        manner.is_method,
        Position::new(1, 1),
    )
}

impl Calls for Bench {
    fn call_function(alloc: Global, caller: &mut Caller, def: &CheckedFn, rewinds: bool) -> Answer {
        caller.caches.clear();
        let result = Engine::new(alloc).call_script_fn(
            alloc,
            &mut caller.global,
            &mut caller.caches,
            &mut caller.table,
            &mut caller.scope,
            Some(&mut caller.object),
            None,
            def,
            caller.args.as_mut_slice(),
            rewinds,
            Position::new(1, 1),
        );
        result.map(|value| (value, false))
    }

    fn call_named(alloc: Global, caller: &mut Caller, name: &str, manner: Manner) -> Answer {
        if manner.has_variables {
            let mut scope = replace(&mut caller.scope, Scope::new(alloc));
            let answer = exec(alloc, caller, Some(&mut scope), name, manner);
            drop(replace(&mut caller.scope, scope));
            answer
        } else {
            exec(alloc, caller, None, name, manner)
        }
    }

    fn call_native(alloc: Global, caller: &mut Caller, name: &str) -> Answer {
        Engine::new(alloc).exec_native_fn_call(
            alloc,
            &mut caller.global,
            &mut caller.caches,
            &mut caller.table,
            name,
            None,
            Some(&mut caller.object),
            caller.args.as_mut_slice(),
            true,
            Position::new(1, 1),
        )
    }

    fn call_indexer(alloc: Global, caller: &mut Caller) -> Answer {
        let [index, ..] = caller.args.as_mut_slice() else {
            return Err(EvalAltResult::ErrorUnboundThis(Position::NONE));
        };
        let item = Engine::new(alloc).call_indexer_get(
            alloc,
            &mut caller.global,
            &mut caller.caches,
            &mut caller.table,
            &mut caller.object,
            index,
            Position::new(1, 1),
        );
        item.map(|value| (value, false))
    }

    fn call_method(alloc: Global, caller: &mut Caller, name: &str) -> Answer {
        caller.caches.clear();
        let mut target = Target {
            at: &mut caller.object,
            part: Part::Whole,
        };
        Engine::new(alloc).make_method_call(
            alloc,
            &mut caller.global,
            &mut caller.caches,
            &mut caller.table,
            name,
            &mut target,
            caller.args.as_mut_slice(),
            Position::new(1, 2),
            Position::new(1, 1),
        )
    }

    fn has_function(alloc: Global, caller: &mut Caller, name: &str) -> Answer {
        let key = FnKey {
            name,
            arity: 0,
            this_type: None,
        };
        caller.caches.clear();
        let found = Engine::new(alloc).has_script_fn(&caller.global, &mut caller.caches, key);
        Ok((Dynamic::new(Union::Bool(found)), false))
    }
}
