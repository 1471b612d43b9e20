//! What the index and the name of a path's root find, in a state of two imports.

ghost use Rattle.std.specs.Prelude.{IsTrue, Bool};
ghost use Rattle.rhai_state.specs.Scope.{in_use, Fits};

use rhai_eval::base::{Dynamic, Items, Namespace, Position, Shared, Text, Union};
use rhai_eval::engine::Engine;
use rhai_eval::state::{GlobalRuntimeState, Module};
use rhai_rows::maker::Maker;
use rhai_rows::sheet::Sheet;
use rhai_tables::host::Pair;
use std::alloc::{AllocError, Global};
use std::io;
use std::num::NonZeroUsize;

/// Writes the constant `K` of the module that is found for a name and an index, 0 for none. The state has imports `y`,
/// whose `K` is 1, and `z`, whose `K` is 2.
pub fn write_root(
    alloc: Global,
    words: &str,
    always_search_scope: bool,
    out: &mut Vec<u8>,
) -> io::Result<()> {
    let (name, index) = words.split_once(' ').unwrap_or((words, "0"));
    let index = NonZeroUsize::new(index.parse::<usize>().unwrap_or(0));
    let mut sheet = Sheet::new(alloc);
    let global = GlobalRuntimeState::new(alloc);
    if let Some(mut global) = sheet.maker.kept(global) {
        global.always_search_scope = always_search_scope;
        import(&mut sheet.maker, &mut global, "y", 1);
        import(&mut sheet.maker, &mut global, "z", 2);
        tell_import(name, index, &global, &mut sheet);
        drop(global);
    }
    sheet.hand_to(out)
}

/// Adds an import with a constant `K`.
fn import(maker: &mut Maker, global: &mut GlobalRuntimeState<Pair>, name: &str, value: i64) {
    let mut module = Module::new(maker.allocator());
    maker.insert(&mut module.constants, "K", Dynamic::new(Union::Int(value)));
    let name = String::from_str(maker.allocator(), name);
    let name = maker.kept(name);
    let module = maker.shared(module);
    if let (Some(name), Some(module)) = (name, module) {
        let pushed = global.push_import(name, module);
        maker.remember(pushed);
    }
}

/// Tells the constant of the import that a path of one name leads to.
fn tell_import(
    name: &str,
    index: Option<NonZeroUsize>,
    global: &GlobalRuntimeState<Pair>,
    sheet: &mut Sheet,
) {
    match namespace(sheet.maker.allocator(), name, index) {
        Ok(namespace) => {
            tell_root(&namespace, global, sheet);
            drop(namespace);
        }
        Err(AllocError) => sheet.maker.lack_memory(),
    }
}

/// Makes a path of one name.
fn namespace(
    alloc: Global,
    name: &str,
    index: Option<NonZeroUsize>,
) -> Result<Namespace, AllocError> {
    let mut path = Items::new(alloc);
    path.push(Shared::new(alloc, Text::from_str(alloc, name)?)?)?;
    Ok(Namespace {
        path,
        index,
        position: Position::new(1, 1),
    })
}

/// Tells whether an index, if there is one, is at most a length.
fn is_within(index: Option<NonZeroUsize>, length: usize) -> bool
    ensures { IsTrue result → (searches : Bool) → Fits (in_use searches index) length }
{
    match index {
        Some(index) => index.get() <= length,
        None => true,
    }
}

fn tell_root(namespace: &Namespace, global: &GlobalRuntimeState<Pair>, sheet: &mut Sheet) {
    if !is_within(namespace.index, global.imports.len()) {
        sheet.write("no such index");
        return;
    }
    let engine = Engine::<Pair>::new(sheet.maker.allocator());
    match engine.search_imports(global, namespace) {
        Some(module) => tell_constant(module, sheet),
        None => sheet.write("no module"),
    }
    drop(engine);
}

fn tell_constant(module: &Module<Pair>, sheet: &mut Sheet) {
    match module.constants.get("K") {
        Some(value) => sheet.value(value),
        None => sheet.write("no constant"),
    }
}
