//! What a variable's offset and name find, in a scope of three variables.

ghost use Rattle.std.specs.Prelude.{◌≡◌, IfOk, IsTrue, Bool, length, true};
ghost use Rattle.rhai_tree.specs.declared.expr.Expr.{out-Expr};
ghost use Rattle.rhai_state.specs.Scope.{entries_of, in_use, Fits};
ghost use Rattle.rhai_steps.specs.Offsets.{offset_in};
ghost use Rattle.rhai_eval.specs.Search.{is_variable};

use rhai_eval::base::{Dynamic, Expr, Items, Namespace, Position, Scope, Shared, Text, Union};
use rhai_eval::engine::Engine;
use rhai_eval::state::{Caches, GlobalRuntimeState};
use rhai_rows::maker::Maker;
use rhai_rows::outcome::Ending;
use rhai_rows::sheet::Sheet;
use rhai_tables::host::Pair;
use rhai_tables::tables::NoNatives;
use std::alloc::{AllocError, Global};
use std::io;
use std::mem::replace;
use std::num::NonZeroUsize;

/// Makes the scope of `a` with 1, `b` with 2 and `a` with 3.
fn scope_of_three(maker: &mut Maker) -> Scope<Pair> {
    let mut scope = Scope::new(maker.allocator());
    maker.declare(&mut scope, "a", Dynamic::new(Union::Int(1)));
    maker.declare(&mut scope, "b", Dynamic::new(Union::Int(2)));
    maker.declare(&mut scope, "a", Dynamic::new(Union::Int(3)));
    scope
}

fn variable(alloc: Global, name: &str, offset: Option<NonZeroUsize>) -> Result<Expr, AllocError>
    ensures variable { IfOk result (λ e. is_variable (out-Expr e) ≡ true) }
    ensures offset { IfOk result (λ e. (searches : Bool) → offset_in searches (out-Expr e)
        ≡ in_use searches offset) }
{
    Ok(Expr::Variable {
        offset,
        name: Shared::new(alloc, Text::from_str(alloc, name)?)?,
        namespace: Namespace {
            path: Items::new(alloc),
            index: None,
            position: Position::NONE,
        },
        pos: Position::new(1, 1),
    })
}

/// Tells whether an offset, if there is one, is at most a length.
fn is_within(offset: Option<NonZeroUsize>, length: usize) -> bool
    ensures { IsTrue result → (searches : Bool) → Fits (in_use searches offset) length }
{
    match offset {
        Some(offset) => offset.get() <= length,
        None => true,
    }
}

/// Writes what is found for a name and an offset, 0 for none.
pub fn write_search(
    alloc: Global,
    words: &str,
    always_search_scope: bool,
    out: &mut Vec<u8>,
) -> io::Result<()> {
    let (name, offset) = words.split_once(' ').unwrap_or((words, "0"));
    let offset = NonZeroUsize::new(offset.parse::<usize>().unwrap_or(0));
    let mut sheet = Sheet::new(alloc);
    tell_search(name, offset, always_search_scope, &mut sheet);
    sheet.hand_to(out)
}

/// Tells where a variable of this name and offset stands, if the offset tells, and its value or the error; and what is
/// left of the scope and of a `this` of 1, where 9 is written through the target. The scope has `a` with 1, `b` with 2 and `a` with 3.
fn tell_search(
    name: &str,
    offset: Option<NonZeroUsize>,
    always_search_scope: bool,
    sheet: &mut Sheet,
) {
    let mut scope = scope_of_three(&mut sheet.maker);
    if is_within(offset, scope.len()) {
        let global = GlobalRuntimeState::new(sheet.maker.allocator());
        if let Some(mut global) = sheet.maker.kept(global) {
            global.always_search_scope = always_search_scope;
            tell_variable(name, offset, &mut global, &mut scope, sheet);
            drop(global);
        }
    } else {
        sheet.write("no such offset");
    }
    drop(scope);
}

fn tell_variable(
    name: &str,
    offset: Option<NonZeroUsize>,
    global: &mut GlobalRuntimeState<Pair>,
    scope: &mut Scope<Pair>,
    sheet: &mut Sheet,
)
    requires { (searches : Bool) → Fits (in_use searches offset) (length (entries_of scope.old)) }
{
    match variable(sheet.maker.allocator(), name, offset) {
        Ok(expr) => {
            let engine = Engine::<Pair>::new(sheet.maker.allocator());
            let index = engine.scope_index(&*global, &expr, scope.len());
            drop(engine);
            tell_index(index, sheet);
            tell_value(global, scope, &expr, sheet);
            drop(expr);
        }
        Err(AllocError) => sheet.maker.lack_memory(),
    }
}

fn tell_index(index: Option<usize>, sheet: &mut Sheet) {
    match index {
        Some(index) => {
            sheet.write("at ");
            sheet.show(&index);
        }
        None => sheet.write("by name"),
    }
    sheet.write(": ");
}

fn tell_value(
    global: &mut GlobalRuntimeState<Pair>,
    scope: &mut Scope<Pair>,
    expr: &Expr,
    sheet: &mut Sheet,
)
    requires variable { is_variable (out-Expr expr.now) ≡ true }
    requires fits { Fits (offset_in global.old.always_search_scope (out-Expr expr.now))
        (length (entries_of scope.old)) }
{
    let alloc = sheet.maker.allocator();
    let mut caches = Caches::new(alloc);
    let mut table = NoNatives;
    let mut this = Dynamic::new(Union::Int(1));
    let found = Engine::new(alloc).search_scope_only(
        alloc,
        global,
        &mut caches,
        &mut table,
        scope,
        Some(&mut this),
        expr,
    );
    match found {
        Ok(mut target) => {
            sheet.value(target.as_ref());
            drop(replace(target.as_mut(), Dynamic::new(Union::Int(9))));
        }
        Err(error) => {
            let ending = Ending::Error(error);
            sheet.end(&ending);
            drop(ending);
        }
    }
    sheet.write("; ");
    sheet.variables(0, scope);
    sheet.write(" this = ");
    sheet.value(&this);
}
