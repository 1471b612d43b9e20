//! Methods on handles of a cell, which is held until the chain is left.

ghost use Rattle.rhai_values.specs.Cells.{IsNoHandle};

use crate::caller::{add_cell, handle};
use rhai_eval_base::base::{Dynamic, FnPtrKind, Items, NativeId, Scope, Table, Union};
use rhai_eval_base::check::{CheckedTree, check_tree};
use rhai_eval_base::state::GlobalRuntimeState;
use rhai_rows::maker::Maker;
use rhai_rows::modules::add_library;
use rhai_rows::runner::Runner;
use rhai_rows::settings::{Settings, Way};
use rhai_rows::sheet::Sheet;
use rhai_samples::parts::Part::{
    Assign, Block, Dot, Function, Index, Int, Method, Value, Variable,
};
use rhai_samples::parts::{Part, tree_of};
use rhai_tables::host::Pair;
use rhai_tables::tables::bench::BenchTable;
use std::alloc::Global;
use std::io;

/// A chain on handles.
#[derive(Clone, Copy)]
struct Chain {
    name: &'static str,
    /// The variable that it begins with.
    root: &'static str,
    tree: &'static [Part<'static>],
    cell: Cell,
    /// The variable `p`.
    called: Pointer,
}

/// What the cell has.
#[derive(Clone, Copy)]
enum Cell {
    One,
    Pointer(Pointer),
    /// A map with the handle under a name.
    MapOfHandle(&'static str),
    /// A map with a pointer under the pointer's name.
    MapOfPointer(Pointer),
}

/// A pointer with its name, with a handle of the cell as its argument already, or with none.
#[derive(Clone, Copy)]
struct Pointer(&'static str, Kind, bool);

/// What a pointer leads to.
#[derive(Clone, Copy)]
enum Kind {
    Name,
    Native(u64),
    Arity(usize),
}

const POINTER_TO_G: Pointer = Pointer("g", Kind::Arity(1), true);

const CHAINS: &[Chain] = &[
    Chain {
        name: "f.call()",
        root: "f",
        tree: POINTER_CALLED,
        cell: Cell::Pointer(POINTER_TO_G),
        called: POINTER_TO_G,
    },
    Chain {
        name: "f.call(a)",
        root: "f",
        tree: POINTER_CALLED_WITH_AN_ARRAY,
        cell: Cell::Pointer(Pointer("g", Kind::Arity(1), false)),
        called: POINTER_TO_G,
    },
    Chain {
        name: "m.f()",
        root: "m",
        tree: METHOD_OF_A_MAP,
        cell: Cell::MapOfHandle("f"),
        called: POINTER_TO_G,
    },
    Chain {
        name: "m.get$f()",
        root: "m",
        tree: GETTER_OF_A_MAP,
        cell: Cell::MapOfPointer(Pointer("get$f", Kind::Native(99), false)),
        called: POINTER_TO_G,
    },
    Chain {
        name: "x.type_of().call(p)",
        root: "x",
        tree: POINTER_CALLED_ON_A_TYPE,
        cell: Cell::One,
        called: POINTER_TO_G,
    },
    Chain {
        name: "x.call(n)",
        root: "x",
        tree: POINTER_CALLED_ON_A_VARIABLE,
        cell: Cell::One,
        called: Pointer("double", Kind::Name, true),
    },
    Chain {
        name: "x.call(p)",
        root: "x",
        tree: POINTER_CALLED_ON_A_VARIABLE,
        cell: Cell::One,
        called: Pointer("n", Kind::Native(2), true),
    },
];

/// `fn g(a) { a[0] = 7; }` and `f.call()`
const POINTER_CALLED: &[Part<'_>] = &[
    Variable("a", 0, 11),
    Int(0, 13),
    Index(12),
    Int(7, 18),
    Assign(16),
    Block(1, 9, 21),
    Function("g", &["a"]),
    Variable("f", 0, 1),
    Method("call", 0, 3),
    Dot(2),
    Value,
];

/// `fn g(a) { a[0] = 7; }` and `f.call(a)`
const POINTER_CALLED_WITH_AN_ARRAY: &[Part<'_>] = &[
    Variable("a", 0, 11),
    Int(0, 13),
    Index(12),
    Int(7, 18),
    Assign(16),
    Block(1, 9, 21),
    Function("g", &["a"]),
    Variable("f", 0, 1),
    Variable("a", 0, 8),
    Method("call", 1, 3),
    Dot(2),
    Value,
];

/// `fn g(x) { 5 }` and `m.f()`
const METHOD_OF_A_MAP: &[Part<'_>] = &[
    Int(5, 11),
    Value,
    Block(1, 9, 13),
    Function("g", &["x"]),
    Variable("m", 0, 1),
    Method("f", 0, 3),
    Dot(2),
    Value,
];

/// `fn g(x) { 5 }` and `m.get$f()`
const GETTER_OF_A_MAP: &[Part<'_>] = &[
    Int(5, 11),
    Value,
    Block(1, 9, 13),
    Function("g", &["x"]),
    Variable("m", 0, 1),
    Method("get$f", 0, 3),
    Dot(2),
    Value,
];

/// `fn g(x) { 5 }` and `x.type_of().call(p)`
const POINTER_CALLED_ON_A_TYPE: &[Part<'_>] = &[
    Int(5, 11),
    Value,
    Block(1, 9, 13),
    Function("g", &["x"]),
    Variable("x", 0, 1),
    Method("type_of", 0, 3),
    Variable("p", 0, 18),
    Method("call", 1, 13),
    Dot(12),
    Dot(2),
    Value,
];

/// `fn g(x) { 5 }` and `x.call(p)`
const POINTER_CALLED_ON_A_VARIABLE: &[Part<'_>] = &[
    Int(5, 11),
    Value,
    Block(1, 9, 13),
    Function("g", &["x"]),
    Variable("x", 0, 1),
    Variable("p", 0, 8),
    Method("call", 1, 3),
    Dot(2),
    Value,
];

/// Writes what a chain on handles comes to in every way of running. Behind it stand its charges, and what
/// stands in the cell then. Where two ways differ both are written.
pub fn write_handled<R: Runner>(alloc: Global, name: &str, out: &mut Vec<u8>) -> io::Result<()> {
    let mut sheet = Sheet::new(alloc);
    match chain_of(name) {
        Some(chain) => tell_ways::<R>(chain, &mut sheet),
        None => sheet.write("no chain"),
    }
    sheet.hand_to(out)
}

/// Finds the chain of a name.
fn chain_of(name: &str) -> Option<Chain> {
    for chain in CHAINS {
        if chain.name == name {
            return Some(*chain);
        }
    }
    None
}

fn tell_ways<R: Runner>(chain: Chain, sheet: &mut Sheet) {
    tell_way::<R>(chain, Way::USUAL, sheet);
    for way in Way::ALL {
        let mut other = Sheet::new(sheet.maker.allocator());
        tell_way::<R>(chain, way, &mut other);
        sheet.add_other(other);
    }
}

fn tell_way<R: Runner>(chain: Chain, way: Way, sheet: &mut Sheet) {
    let alloc = sheet.maker.allocator();
    let parts = tree_of(alloc, chain.tree);
    if let Some(parts) = sheet.maker.kept(parts) {
        match check_tree(alloc, parts.statements, parts.functions) {
            Err(fault) => sheet.show(&fault),
            Ok(tree) => {
                tell_tree::<R>(chain, way, &tree, sheet);
                drop(tree);
            }
        }
    }
}

fn tell_tree<R: Runner>(chain: Chain, way: Way, tree: &CheckedTree, sheet: &mut Sheet) {
    let alloc = sheet.maker.allocator();
    let global = GlobalRuntimeState::new(alloc);
    if let Some(mut global) = sheet.maker.kept(global) {
        global.always_search_scope = way.always_search_scope;
        let content = content(&mut sheet.maker, chain.cell);
        add_cell(&mut sheet.maker, &mut global.cells, content);
        let added = add_library(alloc, &mut global, tree);
        sheet.maker.remember(added);
        tell_run::<R>(chain, way, tree, &mut global, sheet);
        sheet.write(", ");
        sheet.show(&global.num_operations);
        sheet.write(" charges, ");
        sheet.content(&global.cells, 0);
        drop(global);
    }
}

fn tell_run<R: Runner>(
    chain: Chain,
    way: Way,
    tree: &CheckedTree,
    global: &mut GlobalRuntimeState<Pair>,
    sheet: &mut Sheet,
) {
    let alloc = sheet.maker.allocator();
    let mut scope = scope_of(&mut sheet.maker, chain);
    let mut caches = way.caches(alloc);
    let mut table = BenchTable::new(alloc, false);
    let answer = R::eval_tree(
        alloc,
        &Settings::USUAL,
        global,
        &mut caches,
        &mut table,
        &mut scope,
        tree,
    );
    drop(scope);
    drop(caches);
    drop(table);
    match sheet.maker.kept(answer) {
        Some(Ok(value)) => sheet.tell_value(value),
        Some(Err(error)) => sheet.tell_error(error),
        None => {}
    }
}

fn pointer_of(maker: &mut Maker, pointer: Pointer) -> Dynamic<Pair>
    ensures { IsNoHandle result.value }
{
    let Pointer(name, kind, has_handle) = pointer;
    let mut curry = Items::new(maker.allocator());
    if has_handle {
        maker.push(&mut curry, handle());
    }
    maker.pointer(name, curry, kind.led_to())
}

impl Kind {
    fn led_to(self) -> FnPtrKind<Pair> {
        match self {
            Kind::Name => FnPtrKind::Name,
            Kind::Native(number) => FnPtrKind::Native(NativeId { number }),
            Kind::Arity(count) => FnPtrKind::Arity(count),
        }
    }
}

/// Makes a map with a value under a name.
fn map(maker: &mut Maker, name: &str, value: Dynamic<Pair>) -> Dynamic<Pair>
    ensures { IsNoHandle result.value }
{
    let mut entries = Table::new(maker.allocator());
    maker.insert(&mut entries, name, value);
    maker.map(entries)
}

/// Makes the value that the cell has.
fn content(maker: &mut Maker, cell: Cell) -> Dynamic<Pair>
    ensures { IsNoHandle result.value }
{
    match cell {
        Cell::One => Dynamic::new(Union::Int(1)),
        Cell::Pointer(own) => pointer_of(maker, own),
        Cell::MapOfHandle(name) => map(maker, name, handle()),
        Cell::MapOfPointer(own) => {
            let pointer = pointer_of(maker, own);
            map(maker, own.0, pointer)
        }
    }
}

/// Makes the variables: the root, which is the handle, an array of it as `a`, and a pointer as `p`.
fn scope_of(maker: &mut Maker, chain: Chain) -> Scope<Pair> {
    let mut items = Items::new(maker.allocator());
    maker.push(&mut items, handle());
    let array = maker.array(items);
    let called = pointer_of(maker, chain.called);
    let mut scope = Scope::new(maker.allocator());
    maker.declare(&mut scope, chain.root, handle());
    maker.declare(&mut scope, "a", array);
    maker.declare(&mut scope, "p", called);
    scope
}
