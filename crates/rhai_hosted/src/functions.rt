//! What a host's own calls of functions answer, and what they leave.

use crate::caller::{Answer, Caller, Calls, Manner, fours};
use rhai_eval_base::base::CellId;
use rhai_eval_base::check::{CheckedFn, CheckedTree, check_tree};
use rhai_rows::attempt::Attempt;
use rhai_rows::maker::Maker;
use rhai_rows::modules::add_library;
use rhai_rows::outcome::Ending;
use rhai_rows::sample::MadeTree::VariableOfTheCallerIncreased;
use rhai_rows::sample::Tree::{Parts, WithFunctions};
use rhai_rows::sample::{Sample, Script, Tree};
use rhai_rows::settings::Setting::Usual;
use rhai_rows::sheet::Sheet;
use rhai_samples::functions::{
    CALLS_WITHOUT_END, EMPTY_FUNCTION, METHOD_THAT_CHANGES_AN_ITEM, PARAMETER_ASSIGNED, THIS_ASKED,
    VARIABLE_DECLARED,
};
use std::alloc::Global;
use std::io;
use std::mem::replace;

/// A call by its name: the tree with its function, how many arguments the caller has, and its form.
#[derive(Clone, Copy)]
struct Call(&'static str, Tree, usize, Form);

/// How a host calls.
#[derive(Clone, Copy)]
enum Form {
    /// The function itself, at a level, and whether all of its variables go.
    Function(usize, bool),
    /// A name, in a manner.
    Named(&'static str, Manner),
    /// A name, as a method, where object and arguments are handles.
    MethodOnHandles(&'static str),
    /// A name that is missing, as a method, where object and arguments are handles. What the error says is
    /// written, and how many operations are counted.
    MissingOnHandles(&'static str),
    /// The same of the name of a native.
    NativeOnHandles(&'static str),
    /// A name, where object and arguments are handles of a cell that is held. What the error says is written, how many
    /// operations are counted, and what the cell has.
    OnHeldHandles(&'static str),
    /// A name of a native, with the object lent as its first argument.
    Native(&'static str),
    /// The indexer that reads, of the object at the first argument.
    Indexer,
    /// A method on a `Target`.
    OnTarget(&'static str),
    /// Whether a function of a name without arguments is there.
    Seeks(&'static str),
}

impl Form {
    /// Returns the name of the public call that is made.
    fn called(self) -> &'static str {
        match self {
            Form::Function(..) => "call_script_fn",
            Form::Native(_) | Form::NativeOnHandles(_) => "exec_native_fn_call",
            Form::Indexer => "call_indexer_get",
            Form::OnTarget(_) => "make_method_call",
            Form::Seeks(_) => "has_script_fn",
            _ => "exec_fn_call",
        }
    }
}

const CALLS: &[Call] = &[
    Call(
        "this",
        Parts(METHOD_THAT_CHANGES_AN_ITEM),
        0,
        Form::Function(64, true),
    ),
    Call(
        "all variables",
        Parts(VARIABLE_DECLARED),
        0,
        Form::Function(64, true),
    ),
    Call(
        "no statements",
        Parts(EMPTY_FUNCTION),
        0,
        Form::Function(64, true),
    ),
    Call(
        "its variables",
        Parts(VARIABLE_DECLARED),
        0,
        Form::Function(0, false),
    ),
    Call(
        "a call too deep",
        Parts(CALLS_WITHOUT_END),
        0,
        Form::Function(64, true),
    ),
    Call(
        "too deep",
        Parts(VARIABLE_DECLARED),
        0,
        Form::Function(65, true),
    ),
    Call(
        "a method",
        Parts(METHOD_THAT_CHANGES_AN_ITEM),
        1,
        Form::Named("add", Manner::METHOD),
    ),
    Call(
        "a reference",
        Parts(PARAMETER_ASSIGNED),
        0,
        Form::Named("chg", Manner::REFERENCE),
    ),
    Call(
        "a value",
        Parts(PARAMETER_ASSIGNED),
        0,
        Form::Named("chg", Manner::VALUE),
    ),
    Call(
        "the scope",
        WithFunctions(VariableOfTheCallerIncreased),
        0,
        Form::Named("bump", Manner::ON_VARIABLES),
    ),
    Call(
        "a method on the scope",
        WithFunctions(VariableOfTheCallerIncreased),
        1,
        Form::Named("bump", Manner::METHOD_ON_VARIABLES),
    ),
    Call(
        "a method on a handle",
        Parts(THIS_ASKED),
        0,
        Form::MethodOnHandles("m"),
    ),
    Call(
        "a method with its own cell",
        Parts(METHOD_THAT_CHANGES_AN_ITEM),
        1,
        Form::MethodOnHandles("add"),
    ),
    Call(
        "a missing method with its own cell",
        Parts(EMPTY_FUNCTION),
        1,
        Form::MissingOnHandles("none"),
    ),
    Call(
        "a missing native",
        Parts(EMPTY_FUNCTION),
        1,
        Form::NativeOnHandles("none"),
    ),
    Call(
        "a held argument",
        Parts(EMPTY_FUNCTION),
        1,
        Form::OnHeldHandles("e"),
    ),
    Call(
        "on a target",
        Parts(METHOD_THAT_CHANGES_AN_ITEM),
        1,
        Form::OnTarget("add"),
    ),
    Call("a native", Parts(EMPTY_FUNCTION), 0, Form::Native("inc")),
    Call("no native", Parts(EMPTY_FUNCTION), 1, Form::Native("none")),
    Call("no indexer", Parts(EMPTY_FUNCTION), 1, Form::Indexer),
    Call("a name", Parts(EMPTY_FUNCTION), 0, Form::Seeks("e")),
    Call("no name", Parts(EMPTY_FUNCTION), 0, Form::Seeks("f")),
];

/// Writes what a call of a name comes to, and what it leaves.
pub fn write_call<C: Calls>(alloc: Global, name: &str, out: &mut Vec<u8>) -> io::Result<()> {
    let mut sheet = Sheet::new(alloc);
    match call_of(name) {
        Some(call) => tell_call::<C>(call, &mut Attempt::GRANTED, false, &mut sheet),
        None => sheet.write("no call"),
    }
    sheet.hand_to(out)
}

/// Tells what a call of a name comes to that is an attempt, how many operations are counted then, and what it leaves. The
/// public call that it makes has to be the one that is named too.
pub fn tell_attempt<C: Calls>(called: &str, name: &str, attempt: &mut Attempt, sheet: &mut Sheet) {
    match call_of(name) {
        Some(call) if call.3.called() == called => tell_call::<C>(call, attempt, true, sheet),
        _ => sheet.write("no call"),
    }
}

/// Finds the call of a name.
fn call_of(name: &str) -> Option<Call> {
    for call in CALLS {
        if call.0 == name {
            return Some(*call);
        }
    }
    None
}

/// Tells what a call comes to: all of it of an attempt, and else what its form asks for.
fn tell_call<C: Calls>(call: Call, attempt: &mut Attempt, tells_all: bool, sheet: &mut Sheet) {
    let Call(_, tree, ..) = call;
    let script = Sample(tree, Usual).script(sheet.maker.allocator());
    if let Some(script) = sheet.maker.kept(script) {
        tell_script::<C>(call, script, attempt, tells_all, sheet);
    }
}

/// Checks the script of a call, and tells what the call comes to.
fn tell_script<C: Calls>(
    call: Call,
    script: Script,
    attempt: &mut Attempt,
    tells_all: bool,
    sheet: &mut Sheet,
) {
    let Script {
        statements,
        functions,
        settings: _,
    } = script;
    match check_tree(sheet.maker.allocator(), statements, functions) {
        Ok(tree) => {
            tell_called::<C>(call, &tree, attempt, tells_all, sheet);
            drop(tree);
        }
        Err(_) => sheet.write("no tree"),
    }
}

/// Makes a caller for the one function of a tree, and tells what the call comes to.
fn tell_called<C: Calls>(
    call: Call,
    tree: &CheckedTree,
    attempt: &mut Attempt,
    tells_all: bool,
    sheet: &mut Sheet,
) {
    let Call(_, _, count, form) = call;
    let alloc = sheet.maker.allocator();
    let caller = Caller::new(alloc, count);
    if let Some(mut caller) = sheet.maker.kept(caller) {
        let added = add_library(alloc, &mut caller.global, tree);
        sheet.maker.remember(added);
        match tree.functions() {
            [function] => {
                let def = function.get();
                prepare(form, &mut caller, def, &mut sheet.maker);
                attempt.begin_over(alloc, &caller.global);
                let answer = answer_of::<C>(alloc, form, &mut caller, def);
                attempt.end_over(alloc, &caller.global);
                tell_answer(form, answer, &caller, tells_all, sheet);
            }
            _ => sheet.write("no function"),
        }
        drop(caller);
    }
}

/// Makes what a form has before its call.
fn prepare(form: Form, caller: &mut Caller, def: &CheckedFn, maker: &mut Maker) {
    match form {
        Form::Function(level, _) => {
            let args = fours(maker.allocator(), def.def().params.len());
            if let Some(args) = maker.kept(args) {
                drop(replace(&mut caller.args, args));
            }
            caller.global.level = level;
        }
        Form::MethodOnHandles(_) | Form::MissingOnHandles(_) | Form::NativeOnHandles(_) => {
            caller.share(maker);
        }
        Form::OnHeldHandles(_) => {
            caller.share(maker);
            drop(caller.global.cells.take(CellId { number: 0 }));
        }
        _ => {}
    }
}

/// Tells what the call answered, and what it left or what its error says; or all of that of an attempt.
fn tell_answer(form: Form, answer: Answer, caller: &Caller, tells_all: bool, sheet: &mut Sheet) {
    if tells_all {
        tell_end(answer, sheet);
        sheet.write(", ");
        sheet.show(&caller.global.num_operations);
        sheet.write(" charges");
        tell_left(caller, sheet);
        return;
    }
    match form {
        Form::MissingOnHandles(_) | Form::NativeOnHandles(_) => {
            tell_text(answer, sheet);
            sheet.write("; ");
            sheet.show(&caller.global.num_operations);
        }
        Form::OnHeldHandles(_) => {
            tell_text(answer, sheet);
            sheet.write("; ");
            sheet.show(&caller.global.num_operations);
            sheet.write("; ");
            sheet.content(&caller.global.cells, 0);
        }
        _ => {
            tell_end(answer, sheet);
            tell_left(caller, sheet);
        }
    }
}

/// Makes the call of a form.
fn answer_of<C: Calls>(alloc: Global, form: Form, caller: &mut Caller, def: &CheckedFn) -> Answer {
    match form {
        Form::Function(_, rewinds) => C::call_function(alloc, caller, def, rewinds),
        Form::Named(name, manner) => C::call_named(alloc, caller, name, manner),
        Form::MethodOnHandles(name) | Form::MissingOnHandles(name) => {
            C::call_named(alloc, caller, name, Manner::METHOD)
        }
        Form::OnHeldHandles(name) => C::call_named(alloc, caller, name, Manner::VALUE),
        Form::Native(name) | Form::NativeOnHandles(name) => C::call_native(alloc, caller, name),
        Form::Indexer => C::call_indexer(alloc, caller),
        Form::OnTarget(name) => C::call_method(alloc, caller, name),
        Form::Seeks(name) => C::has_function(alloc, caller, name),
    }
}

/// Tells what the error of a call says.
fn tell_text(answer: Answer, sheet: &mut Sheet) {
    match answer {
        Ok((value, _)) => {
            drop(value);
            sheet.write("no error");
        }
        Err(error) => sheet.tell_error(error),
    }
}

/// Tells how a call ended.
fn tell_end(answer: Answer, sheet: &mut Sheet) {
    let ending = match answer {
        Ok((value, _)) => Ending::Value(value),
        Err(error) => Ending::Error(error),
    };
    sheet.end(&ending);
    drop(ending);
}

/// Tells what a call left: the object, the arguments and the variables.
fn tell_left(caller: &Caller, sheet: &mut Sheet) {
    sheet.write("; ");
    sheet.value(&caller.object);
    for arg in caller.args.as_slice() {
        sheet.write(", ");
        sheet.value(arg);
    }
    for entry in caller.scope.entries() {
        sheet.write("; ");
        sheet.write(entry.name.get().as_str());
        sheet.write(" = ");
        sheet.value(&entry.value);
    }
}
